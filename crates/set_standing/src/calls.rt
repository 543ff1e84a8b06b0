//! Calls that make files, and calls that change what is said of them.
ghost use Rattle.std.specs.Prelude.{◌≡◌, ◌≤◌, ◌⊎◌, [], None, ℕ, Some};
ghost use Rattle.standing_laws.specs.domain_base.Limits.{max_links};
ghost use Rattle.standing_laws.specs.domain_base.declared.place.Kind.TheVariants.{Directory};
ghost use Rattle.standing_laws.specs.domain_base.declared.place.Tag.{Tag};
ghost use Rattle.standing_laws.specs.free_space.Spaces.{missed};
ghost use Rattle.standing_laws.specs.file_chains.FileChanges.{LeavesOtherCells};
ghost use Rattle.standing_laws.specs.fileset_files.Changes.{ChangesFirst, says_attributes, says_parent, with_chain, with_first};
ghost use Rattle.standing_laws.specs.fileset_files.Creation.{Creates, LeavesBeside, TakesForFile, TakesNext};
ghost use Rattle.standing_laws.specs.fileset_files.Together.{AreTogether};
ghost use Rattle.standing_laws.specs.fileset_files.declared.attributes.Attributes.{Attributes};
ghost use Rattle.standing_laws.specs.fileset_files.declared.new_cells.NewFile.{NewFile};
ghost use Rattle.standing_laws.specs.stored_set.Sets.{attributes_at};
ghost use Rattle.standing_laws.specs.domain_standing.Domain.{DomainNow};
ghost use Rattle.standing_laws.specs.Leads.{IsLiveOf};
ghost use Rattle.standing_laws.specs.OtherPages.{KeepsPlaces};
ghost use Rattle.set_standing.specs.Around.{BytesFollow, ChangesSlot, GoesOnAround, StandsAround};

/// If a call was refused, and at most a miss was counted, the domain around the slot still stands.
pub fn all_stands_around_a_call_that_does_nothing()
    ensures { (number : ℕ) (d now : DomainNow) → StandsAround number d → ChangesSlot number d now
        → BytesFollow d now → now.tags number ≡ d.tags number → now.cells ≡ d.cells
        → now.pages ≡ d.pages → (now.space ≡ d.space) ⊎ (now.space ≡ missed d.space)
        → GoesOnAround None number d now }
{}

/// The domain around the slot still stands if a file or directory is made that belongs to no clone
/// that was not made.
pub fn all_stands_around_a_file_that_is_made()
    ensures { (number : ℕ) (tag : Tag) (what : NewFile) (prefer : ℕ) (d now : DomainNow)
        → (around : StandsAround number d) → ChangesSlot number d now
        → BytesFollow d now → what.birth ≤ d.table.made
        → Creates number (now.tags number) tag d.frame.version what around.chains now.space d.cells
        now.cells d.pages now.pages
        → TakesForFile prefer (d.tags number) (now.tags number) d.space now.space d.cells now.cells
        d.pages
        → LeavesOtherCells d.cells [] d.pages now.pages
        → LeavesBeside now.cells (now.tags number) d.pages now.pages
        → TakesNext tag (d.tags number) (now.tags number) d.pages now.pages
        → GoesOnAround None number d now }
{}

/// The domain around the slot still stands if the first cell of a file or directory says another
/// number of links, from 1 to 1,000.
pub fn all_stands_around_links_that_are_set()
    ensures { (number : ℕ) (tag : Tag) (was : Attributes) (links : ℕ) (d now : DomainNow)
        → (around : StandsAround number d) → KeepsPlaces d now → BytesFollow d now
        → attributes_at around.chains tag ≡ Some was → 1 ≤ links → links ≤ max_links
        → ChangesFirst (around.chains tag) d.pages now.pages
        → AreTogether number (d.tags number) d.space d.cells now.pages (with_chain tag
        (with_first (says_attributes (record was { links = links }))) around.chains)
        → GoesOnAround None number d now }
{}

/// The domain around the slot still stands if the first cell of a directory says that it stands in
/// another directory.
pub fn all_stands_around_a_parent_that_is_said()
    ensures { (number : ℕ) (tag parent : Tag) (d now : DomainNow)
        → (around : StandsAround number d) → KeepsPlaces d now → BytesFollow d now
        → IsLiveOf Directory (around.chains tag)
        → ChangesFirst (around.chains tag) d.pages now.pages
        → AreTogether number (d.tags number) d.space d.cells now.pages
        (with_chain tag (with_first (says_parent parent)) around.chains)
        → GoesOnAround (Some (tag, parent)) number d now }
{}
