//! What else is asked of a domain that stands, between two commands: the bits of its bitmaps, what
//! directories say of their parents, and books.
ghost use Rattle.std.specs.Prelude.{◌≡◌, ◌≤◌, ℕ, Some};
ghost use Rattle.std.specs.FinMap.{get, insert};
ghost use Rattle.domain_standing.specs.domain_base.declared.place.Home.{Home};
ghost use Rattle.domain_standing.specs.domain_base.declared.place.Kind.TheVariants.{Directory};
ghost use Rattle.domain_standing.specs.domain_base.declared.place.Tag.{Tag};
ghost use Rattle.domain_standing.specs.fileset_files.Creation.{LeavesBeside, root_tag};
ghost use Rattle.domain_standing.specs.fileset_files.Files.{Chains};
ghost use Rattle.domain_standing.specs.fileset_model.Filesets.{FilesetMap};
ghost use Rattle.domain_standing.specs.fileset_model.Usage.{with_limits};
ghost use Rattle.domain_standing.specs.fileset_model.declared.fileset.FilesetSlot.{FilesetSlot};
ghost use Rattle.domain_standing.specs.fileset_table.declared.slot.FilesetEntry.{FilesetEntry};
ghost use Rattle.domain_standing.specs.free_space.Spaces.{Spaces};
ghost use Rattle.domain_standing.specs.quota_book.Book.{Book, empty_book};
ghost use Rattle.domain_standing.specs.quota_book.Sums.{IsBookOf};
ghost use Rattle.domain_standing.specs.release_list.Standing.{Files};
ghost use Rattle.domain_standing.specs.release_steps.Calls.{Makes};
ghost use Rattle.domain_standing.specs.Chains.{IndexesAt};
ghost use Rattle.domain_standing.specs.Domain.{DomainNow};
ghost use Rattle.domain_standing.specs.Slots.{StandSlots};
ghost use Rattle.domain_standing.specs.Standing.{AreBooksOf, HaveParents, IsMarkedBut};
ghost use Rattle.domain_standing.specs.Tables.{StandTables};
ghost use Rattle.standing_laws.specs.GoingFileset.{BeginsToGo};
ghost use Rattle.standing_laws.specs.Leads.{LeadsOn, StandsBelow, fileset_now};
ghost use Rattle.standing_laws.specs.NewFileset.{JoinsEmpty, empty_slot, no_chains};
ghost use Rattle.standing_laws.specs.OtherPages.{KeepsVolumes};
ghost use Rattle.standing_laws.specs.SetsQuota.{SetsQuota, fileset_limited};
ghost use Rattle.standing_laws.specs.SlotParents.{HasOnlyRoot, HaveParentsIn, StandsForSome};
ghost use Rattle.standing_laws.specs.SlotsStay.{PutsFileset};

/// If the first pages of volumes stay, bitmaps say the same of any free space.
pub fn bits_stay_where_volumes_keep_their_pages()
    ensures { (d now : DomainNow) → StandTables d → now.frame ≡ d.frame → KeepsVolumes d now
        → (space : Spaces) → IsMarkedBut (record d { space = space })
        → IsMarkedBut (record now { space = space }) }
{}

/// Bitmaps say what they said if a fileset begins.
pub fn bits_stay_where_a_fileset_begins()
    ensures { (number : ℕ) (entry : FilesetEntry) (d now : DomainNow) (files : Files)
        (indexes : IndexesAt) → StandsBelow d files indexes → JoinsEmpty number entry d now
        → (space : Spaces) → IsMarkedBut (record d { space = space })
        → IsMarkedBut (record now { space = space }) }
{}

/// Bitmaps say what they said if the removal of a fileset begins.
pub fn bits_stay_where_a_fileset_begins_to_go()
    ensures { (number : ℕ) (entry : FilesetEntry) (d now : DomainNow) (files : Files)
        (indexes : IndexesAt) → StandsBelow d files indexes → BeginsToGo number entry d now
        → (space : Spaces) → IsMarkedBut (record d { space = space })
        → IsMarkedBut (record now { space = space }) }
{}

/// Bitmaps say what they said if an owner's limits are set.
pub fn bits_stay_where_limits_are_set()
    ensures { (number : ℕ) (d now : DomainNow) (files files_now : Files) (indexes : IndexesAt)
        → StandsBelow d files indexes → SetsQuota number d now files files_now
        → (space : Spaces) → IsMarkedBut (record d { space = space })
        → IsMarkedBut (record now { space = space }) }
{}

/// Bitmaps say what they said if tables of cells and the tag directory of one slot change, as when
/// a root is made.
pub fn bits_stay_where_cells_and_tags_change()
    ensures { (number : ℕ) (d now : DomainNow) (files : Files) (indexes : IndexesAt)
        → StandTables d → StandsBelow now files indexes → now.frame ≡ d.frame
        → LeavesBeside now.cells (now.tags number) d.pages now.pages
        → (space : Spaces) → IsMarkedBut (record d { space = space })
        → IsMarkedBut (record now { space = space }) }
{}

/// Bitmaps say what they said once the root of a fileset that begins is made.
pub fn bits_stay_where_a_root_is_made()
    ensures { (number : ℕ) (entry : FilesetEntry) (d joined now : DomainNow) (chains_now : Chains)
        (files files_now : Files) (indexes : IndexesAt) → StandsBelow d files indexes
        → JoinsEmpty number entry d joined
        → (makes : Makes number joined.frame.version root_tag
        (fileset_now joined number no_chains files) (fileset_now now number chains_now files_now))
        → makes.what.birth ≤ joined.table.made → now.frame ≡ joined.frame
        → now.table ≡ joined.table
        → ((other : ℕ) → ¬ other ≡ number → now.tags other ≡ joined.tags other)
        → (space : Spaces) → IsMarkedBut (record d { space = space })
        → IsMarkedBut (record now { space = space }) }
{}

/// Each directory still says the one in which its row stands if an original that has no file yet
/// joins the table.
pub fn parents_stay_where_a_fileset_begins()
    ensures { (number : ℕ) (entry : FilesetEntry) (d now : DomainNow) (files : Files)
        (indexes : IndexesAt) (all : FilesetMap) → StandsBelow d files indexes → StandSlots d all
        → JoinsEmpty number entry d now → HaveParents d → HaveParents now }
{}

/// Directories of another slot still say those in which they stand after a call on a tag.
pub fn parents_stay_in_other_slots()
    ensures { (number : ℕ) (tag : Tag) (d now : DomainNow) (chains chains_now : Chains)
        (files files_now : Files) (indexes : IndexesAt) → StandsBelow d files indexes
        → LeadsOn number tag d now chains chains_now files files_now → (other : ℕ)
        → ¬ other ≡ number → StandsForSome other d → HaveParentsIn other d
        → HaveParentsIn other now }
{}

/// A single root that says itself stands where it says.
pub fn a_root_alone_stands_in_itself()
    ensures { (number : ℕ) (d : DomainNow) → StandTables d → HasOnlyRoot number d
        → HaveParentsIn number d }
{}

/// All directories say those in which they stand once the root of a fileset that begins is made.
pub fn parents_stay_where_a_root_is_made()
    ensures { (number : ℕ) (entry : FilesetEntry) (d joined now : DomainNow) (chains_now : Chains)
        (files files_now : Files) (indexes : IndexesAt) (all : FilesetMap)
        → StandsBelow d files indexes → StandSlots d all → JoinsEmpty number entry d joined
        → (makes : Makes number joined.frame.version root_tag
        (fileset_now joined number no_chains files) (fileset_now now number chains_now files_now))
        → makes.what.birth ≤ joined.table.made → now.frame ≡ joined.frame
        → now.table ≡ joined.table
        → ((other : ℕ) → ¬ other ≡ number → now.tags other ≡ joined.tags other)
        → makes.what.kind ≡ Directory
        → ((home : Home) → joined.pages home ≡ d.pages home
        → joined.contents home ≡ d.contents home)
        → HaveParents d → HaveParents now }
{}

/// All directories say those in which they stand if the removal of a fileset begins.
pub fn parents_stay_where_a_fileset_begins_to_go()
    ensures { (number : ℕ) (entry : FilesetEntry) (d now : DomainNow) (files : Files)
        (indexes : IndexesAt) (all : FilesetMap) → StandsBelow d files indexes → StandSlots d all
        → BeginsToGo number entry d now → HaveParents d → HaveParents now }
{}

/// All directories say those in which they stand if an owner's limits are set.
pub fn parents_stay_where_limits_are_set()
    ensures { (number : ℕ) (d now : DomainNow) (files files_now : Files) (indexes : IndexesAt)
        → StandsBelow d files indexes → SetsQuota number d now files files_now
        → (all : FilesetMap) → StandSlots d all → HaveParents d → HaveParents now }
{}

/// Books are those of their filesets if one slot has another fileset, or a new one, whose book is
/// its own, and the other books stay.
pub fn books_stay_where_a_slot_has_another_fileset()
    ensures { (number : ℕ) (entry : FilesetEntry) (d now : DomainNow) → StandTables now
        → PutsFileset number entry d now → (books books_now : ℕ → Book)
        → ((n : ℕ) → ¬ n ≡ number → books_now n ≡ books n) → (fileset : FilesetSlot)
        → IsBookOf (books_now number) fileset.tree → (all : FilesetMap) → AreBooksOf books d all
        → AreBooksOf books_now now (insert all entry.name fileset) }
{}

/// Books are those of their filesets with an empty book for a fileset that begins.
pub fn books_stay_where_a_fileset_begins()
    ensures { (number : ℕ) (entry : FilesetEntry) (d now : DomainNow) → StandTables now
        → PutsFileset number entry d now → (books books_now : ℕ → Book)
        → ((n : ℕ) → ¬ n ≡ number → books_now n ≡ books n) → books_now number ≡ empty_book
        → (all : FilesetMap) → AreBooksOf books d all
        → AreBooksOf books_now now (insert all entry.name empty_slot) }
{}

/// Books are those of their filesets if an owner's limits are set, in the book as well.
pub fn books_stay_where_limits_are_set()
    ensures { (number : ℕ) (d now : DomainNow) (files files_now : Files) (indexes : IndexesAt)
        → StandsBelow d files indexes → StandTables now
        → (sets : SetsQuota number d now files files_now) → (books books_now : ℕ → Book)
        → ((n : ℕ) → ¬ n ≡ number → books_now n ≡ books n)
        → books_now number ≡ record (books number) {
          limits = with_limits (books number).limits sets.who sets.limits;
        } → (all : FilesetMap) (fileset : FilesetSlot) → get all sets.entry.name ≡ Some fileset
        → AreBooksOf books d all
        → AreBooksOf books_now now
        (insert all sets.entry.name (fileset_limited sets.who sets.limits fileset)) }
{}
