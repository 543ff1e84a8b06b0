//! Changes of files by which no name changes.
ghost use Rattle.std.specs.Prelude.{◌≡◌, ℕ, Bool, IsSomeAnd, List, None, Option, Some};
ghost use Rattle.standing_laws.specs.domain_base.declared.place.CellAt.{CellAt};
ghost use Rattle.standing_laws.specs.domain_base.declared.place.Home.{Home};
ghost use Rattle.standing_laws.specs.domain_base.declared.place.Kind.TheVariants.{File};
ghost use Rattle.standing_laws.specs.domain_base.declared.place.Tag.{Tag};
ghost use Rattle.standing_laws.specs.extent_maps.declared.run.PagePlace.TheVariants.{Absent, At};
ghost use Rattle.standing_laws.specs.metadata_cells.Chain.{PlacedCell};
ghost use Rattle.standing_laws.specs.file_chains.Files.{places_of};
ghost use Rattle.standing_laws.specs.fileset_files.Changes.{ChangesFirst, says_attributes, with_chain, with_first};
ghost use Rattle.standing_laws.specs.fileset_files.Files.{place_at};
ghost use Rattle.standing_laws.specs.fileset_files.State.{FileState};
ghost use Rattle.standing_laws.specs.fileset_files.Together.{AreTogether};
ghost use Rattle.standing_laws.specs.fileset_files.declared.attributes.Attributes.{Attributes};
ghost use Rattle.standing_laws.specs.fileset_files.Truncation.{IsLowered, pending_cell, says_truncated};
ghost use Rattle.standing_laws.specs.fileset_files.States.{cut, described, placed};
ghost use Rattle.standing_laws.specs.stored_set.Sets.{GetsPage, attributes_at};
ghost use Rattle.standing_laws.specs.release_list.Listing.{Adds, Listing};
ghost use Rattle.standing_laws.specs.domain_standing.Domain.{DomainNow};
ghost use Rattle.standing_laws.specs.Leads.{IsLiveOf};
ghost use Rattle.standing_laws.specs.OtherPages.{KeepsPlaces};
ghost use Rattle.set_standing.specs.Around.{BytesFollow, ChangesSlot, StandsAround};
ghost use Rattle.set_standing.specs.Beside.{ChangesOneFile};

/// If the first cell of a file says another size and another flag, and nothing else new, the domain
/// stands around the slot. All outside the slot stays, and the same set is shown.
pub fn all_stands_around_a_file_that_is_described()
    ensures { (number : ℕ) (tag : Tag) (was : Attributes) (size : ℕ) (flag : Bool)
        (d now : DomainNow) → (around : StandsAround number d) → KeepsPlaces d now
        → BytesFollow d now → attributes_at around.chains tag ≡ Some was → was.kind ≡ File
        → ChangesFirst (around.chains tag) d.pages now.pages
        → AreTogether number (d.tags number) d.space d.cells now.pages (with_chain tag
        (with_first (says_attributes (record was { size = size; is_logged = flag })))
        around.chains)
        → ChangesOneFile number tag (described (record was { size = size; is_logged = flag }))
        (λ page. ⊥) around.chains d now }
{}

/// The domain around the slot still stands if other bytes are put at the home of a file's page.
pub fn all_stands_around_a_page_of_a_file_that_is_put()
    ensures { (number : ℕ) (tag : Tag) (page : ℕ) (d now : DomainNow)
        → (around : StandsAround number d) → KeepsPlaces d now → BytesFollow d now
        → IsLiveOf File (around.chains tag)
        → ((home : Home) → ¬ place_at around.chains tag page ≡ At home
        → now.pages home ≡ d.pages home)
        → ChangesOneFile number tag (λ (state : FileState). state) (λ k. k ≡ page) around.chains
        d now }
{}

/// The domain around the slot still stands if a file gets a home for a page that it does not have,
/// and these bytes are put there.
pub fn all_stands_around_a_file_that_gets_a_page()
    ensures { (number : ℕ) (tag : Tag) (page : ℕ) (bytes : List ℕ) (prefer : ℕ)
        (d now : DomainNow) (chain : List PlacedCell) → (around : StandsAround number d)
        → ChangesSlot number d now → BytesFollow d now → now.tags number ≡ d.tags number
        → IsLiveOf File (around.chains tag) → around.chains tag ≡ Some chain
        → places_of chain page ≡ Absent
        → (gets : GetsPage number (d.tags number) tag page bytes prefer d.frame.version
        around.chains d.space now.space d.cells now.cells d.pages now.pages chain)
        → ChangesOneFile number tag (placed page (At gets.home)) (λ k. ⊥) around.chains d now }
{}

/// The domain around the slot still stands if a file is cut: the file then has the new size, and
/// pages after its end may be stale and are to be let go of. If nothing is left to be done for the
/// file, nothing is listed; otherwise the file is on the list.
pub fn all_stands_around_a_file_that_is_cut()
    ensures none { (number : ℕ) (tag : Tag) (size : ℕ) (d now : DomainNow)
        → (around : StandsAround number d) → KeepsPlaces d now → BytesFollow d now
        → IsLiveOf File (around.chains tag)
        → ChangesFirst (around.chains tag) d.pages now.pages
        → IsSomeAnd (around.chains tag) (λ chain. IsLowered size chain None)
        → AreTogether number (d.tags number) d.space d.cells now.pages (with_chain tag
        (with_first (says_truncated size None)) around.chains)
        → ChangesOneFile number tag (cut size None) (λ page. ⊥) around.chains d now }
    ensures listed { (number : ℕ) (tag : Tag) (size : ℕ) (lowered : Option ℕ) (at : CellAt)
        (d now : DomainNow) (listed : Listing) → (around : StandsAround number d)
        → KeepsPlaces d now → BytesFollow d now → IsLiveOf File (around.chains tag)
        → ChangesFirst (around.chains tag) d.pages now.pages
        → IsSomeAnd (around.chains tag) (λ chain. IsLowered size chain lowered)
        → AreTogether number (d.tags number) d.space d.cells now.pages (with_chain tag
        (with_first (says_truncated size lowered)) around.chains)
        → IsSomeAnd (around.chains tag) (λ chain. Some at
        ≡ pending_cell (with_first (says_truncated size lowered) chain))
        → Adds at None d.list.entries listed.entries → listed.tag_pages ≡ d.list.tag_pages
        → ChangesOneFile number tag (cut size lowered) (λ page. ⊥) around.chains d
        (record now { list = listed }) }
{}
