//! Pages of the indexes of directories.
ghost use Rattle.std.specs.Option.{option_and_then};
ghost use Rattle.std.specs.Prelude.{◌≡◌, None, ℕ, List, Some};
ghost use Rattle.standing_laws.specs.domain_base.declared.place.CellAt.{CellAt};
ghost use Rattle.standing_laws.specs.domain_base.declared.place.Tag.{Tag};
ghost use Rattle.standing_laws.specs.stored_set.Sets.{AddsIndexPage, WritesIndexPage};
ghost use Rattle.standing_laws.specs.release_steps.Tags.{start_of};
ghost use Rattle.standing_laws.specs.domain_standing.Domain.{DomainNow};
ghost use Rattle.standing_laws.specs.IndexCalls.{KeepsTables};
ghost use Rattle.standing_laws.specs.OtherPages.{KeepsPlaces};
ghost use Rattle.set_standing.specs.Around.{BytesFollow, GoesOnAround, StandsAround};

/// The domain around the slot still stands if a page of a directory's index is put in place of
/// another.
pub fn all_stands_around_an_index_page_that_is_written()
    ensures { (number : ℕ) (tag : Tag) (start : CellAt) (page : ℕ) (bytes : List ℕ)
        (d now : DomainNow) → (around : StandsAround number d) → KeepsPlaces d now
        → BytesFollow d now → option_and_then start_of (around.chains tag) ≡ Some start
        → WritesIndexPage number (d.tags number) d.space d.cells tag page bytes around.chains
        (around.indexes start) d.pages now.pages → GoesOnAround None number d now }
{}

/// The domain around the slot still stands if a free page is put into the index of a directory.
pub fn all_stands_around_an_index_page_that_is_put_in()
    ensures { (number : ℕ) (tag : Tag) (start : CellAt) (place prefer : ℕ) (bytes : List ℕ)
        (d now : DomainNow) → (around : StandsAround number d) → KeepsTables d now
        → BytesFollow d now → option_and_then start_of (around.chains tag) ≡ Some start
        → AddsIndexPage number (d.tags number) d.cells tag place bytes prefer around.chains
        (around.indexes start) d.space now.space d.pages now.pages
        → GoesOnAround None number d now }
{}
