//! Pages of directories.
ghost use Rattle.std.specs.Prelude.{◌≡◌, ◌<◌, None, ℕ, IsSomeAnd, List};
ghost use Rattle.standing_laws.specs.domain_base.Limits.{file_pages};
ghost use Rattle.standing_laws.specs.domain_base.declared.place.Home.{Home};
ghost use Rattle.standing_laws.specs.domain_base.declared.place.Kind.TheVariants.{Directory};
ghost use Rattle.standing_laws.specs.domain_base.declared.place.Tag.{Tag};
ghost use Rattle.standing_laws.specs.page_store.Bitfiles.{Bitfiles, IsDirectory, count_pages};
ghost use Rattle.standing_laws.specs.extent_maps.declared.run.PagePlace.TheVariants.{At};
ghost use Rattle.standing_laws.specs.fileset_files.Files.{place_at};
ghost use Rattle.standing_laws.specs.stored_set.Sets.{AddsPage, StandsAsSet, attributes_at};
ghost use Rattle.standing_laws.specs.domain_standing.Domain.{DomainNow};
ghost use Rattle.standing_laws.specs.Leads.{IsLiveOf};
ghost use Rattle.standing_laws.specs.OtherPages.{KeepsPlaces};
ghost use Rattle.set_standing.specs.Around.{BytesFollow, ChangesSlot, GoesOnAround, StandsAround};

/// The domain around the slot still stands if a page of a directory is put in place of the one that
/// stood there.
pub fn all_stands_around_a_page_that_is_written()
    ensures { (number : ℕ) (tag : Tag) (page : ℕ) (d now : DomainNow)
        → (around : StandsAround number d) → KeepsPlaces d now → BytesFollow d now
        → IsLiveOf Directory (around.chains tag)
        → ((home : Home) → ¬ place_at around.chains tag page ≡ At home
        → now.pages home ≡ d.pages home)
        → GoesOnAround None number d now }
{}

/// The domain around the slot still stands if a directory gets a page after its last one.
pub fn all_stands_around_a_directory_that_gets_a_page()
    ensures { (number : ℕ) (tag : Tag) (page : ℕ) (bytes : List ℕ) (prefer : ℕ)
        (d now : DomainNow) → (around : StandsAround number d) → ChangesSlot number d now
        → BytesFollow d now → now.tags number ≡ d.tags number
        → (set : Bitfiles) → StandsAsSet number (d.tags number) d.space d.cells d.pages set
        → IsDirectory set tag → page ≡ count_pages set tag → page < file_pages
        → IsSomeAnd (attributes_at around.chains tag) (AddsPage number (d.tags number) tag page
        bytes prefer d.frame.version around.chains d.space now.space d.cells now.cells d.pages
        now.pages) → GoesOnAround None number d now }
{}
