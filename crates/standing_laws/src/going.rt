//! A fileset whose removal begins.
ghost use Rattle.std.specs.Prelude.{◌≡◌, ℕ};
ghost use Rattle.std.specs.FinMap.{remove};
ghost use Rattle.domain_standing.specs.domain_base.declared.place.Home.{Home};
ghost use Rattle.domain_standing.specs.fileset_model.Filesets.{FilesetMap};
ghost use Rattle.domain_standing.specs.fileset_table.declared.slot.FilesetEntry.{FilesetEntry};
ghost use Rattle.domain_standing.specs.quota_book.Book.{Book};
ghost use Rattle.domain_standing.specs.release_list.Standing.{Files};
ghost use Rattle.domain_standing.specs.Chains.{IndexesAt};
ghost use Rattle.domain_standing.specs.Domain.{DomainNow};
ghost use Rattle.domain_standing.specs.Slots.{StandSlots};
ghost use Rattle.domain_standing.specs.Standing.{AreBooksOf, StandsDomain};
ghost use Rattle.standing_laws.specs.GoingFileset.{BeginsToGo};
ghost use Rattle.standing_laws.specs.Leads.{StandsBelow};
ghost use Rattle.standing_laws.specs.SlotsStay.{OthersStand};

/// All of a domain except its filesets still stands if the slot of an original says that it is
/// being removed: its tags and quota cells stand where they did.
pub fn all_stands_on_where_a_fileset_begins_to_go()
    ensures { (number : ℕ) (entry : FilesetEntry) (d now : DomainNow) (files : Files)
        (indexes : IndexesAt) → StandsBelow d files indexes → BeginsToGo number entry d now
        → StandsBelow now files indexes }
{}

/// If the removal of a fileset begins, the original in each other slot stands for the fileset for
/// which it stood.
pub fn other_slots_stay_where_a_fileset_begins_to_go()
    ensures { (number : ℕ) (entry : FilesetEntry) (d now : DomainNow) (files : Files)
        (indexes : IndexesAt) → StandsBelow d files indexes → BeginsToGo number entry d now
        → OthersStand number d now }
{}

/// If the removal of a fileset begins, the domain stands for all filesets except this one, if each
/// unchanged page keeps its bytes.
pub fn filesets_stand_on_where_one_begins_to_go()
    ensures { (number : ℕ) (entry : FilesetEntry) (d now : DomainNow) (files : Files)
        (indexes : IndexesAt) → StandsBelow d files indexes → BeginsToGo number entry d now
        → ((home : Home) → now.pages home ≡ d.pages home → now.contents home ≡ d.contents home)
        → (all : FilesetMap) → StandSlots d all → StandSlots now (remove all entry.name) }
{}

/// If the removal of a fileset begins, a domain stands for its filesets without this one.
pub fn a_domain_stands_on_where_a_fileset_begins_to_go()
    ensures { (number : ℕ) (entry : FilesetEntry) (d now : DomainNow)
        → BeginsToGo number entry d now
        → ((home : Home) → now.pages home ≡ d.pages home → now.contents home ≡ d.contents home)
        → (all : FilesetMap) → StandsDomain d all → StandsDomain now (remove all entry.name) }
{}

/// If the removal of a fileset begins, the book of each other slot is still that of its fileset.
pub fn books_stay_where_a_fileset_begins_to_go()
    ensures { (number : ℕ) (entry : FilesetEntry) (d now : DomainNow) (files : Files)
        (indexes : IndexesAt) → StandsBelow d files indexes → BeginsToGo number entry d now
        → (books : ℕ → Book) (all : FilesetMap) → AreBooksOf books d all
        → AreBooksOf books now (remove all entry.name) }
{}
