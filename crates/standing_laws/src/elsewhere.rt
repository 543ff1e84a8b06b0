//! The filesets of slots that a change does not touch.
ghost use Rattle.std.specs.Prelude.{◌≡◌, ℕ, List, Option, Some};
ghost use Rattle.std.specs.FinMap.{insert};
ghost use Rattle.domain_standing.specs.domain_base.declared.place.CellAt.{CellAt};
ghost use Rattle.domain_standing.specs.domain_base.declared.place.Tag.{Tag};
ghost use Rattle.domain_standing.specs.fileset_files.Changes.{Removes, without_chain};
ghost use Rattle.domain_standing.specs.fileset_files.Files.{Chains};
ghost use Rattle.domain_standing.specs.fileset_files.Together.{AreTogether};
ghost use Rattle.domain_standing.specs.stored_set.Sets.{AddsIndexPage, GivesIndexBack, WritesIndexPage, without_index};
ghost use Rattle.domain_standing.specs.fileset_model.Filesets.{FilesetMap};
ghost use Rattle.domain_standing.specs.fileset_model.declared.fileset.FilesetSlot.{FilesetSlot};
ghost use Rattle.domain_standing.specs.fileset_table.declared.slot.FilesetEntry.{FilesetEntry};
ghost use Rattle.domain_standing.specs.fileset_table.declared.slot.SlotItem.TheVariants as slot;
ghost use Rattle.domain_standing.specs.release_list.Listed.{IsEntry};
ghost use Rattle.domain_standing.specs.release_list.Listing.{Adds, Listing};
ghost use Rattle.domain_standing.specs.release_list.Standing.{Files};
ghost use Rattle.domain_standing.specs.domain_layout.Shape.{FilesetShape};
ghost use Rattle.domain_standing.specs.Chains.{IndexesAt};
ghost use Rattle.domain_standing.specs.Domain.{DomainNow, item_in};
ghost use Rattle.domain_standing.specs.Slots.{StandSlots};
ghost use Rattle.standing_laws.specs.IndexCalls.{KeepsTables, NamesFile, with_removed};
ghost use Rattle.standing_laws.specs.Leads.{StandsBelow};
ghost use Rattle.standing_laws.specs.NewFileset.{JoinsEmpty};
ghost use Rattle.standing_laws.specs.Slots.{StandsSlot};
ghost use Rattle.standing_laws.specs.SlotsStay.{KeepsSlot, OthersStand, PutsFileset};

/// If a domain stands before a change and after it, the original in a slot stands for the same
/// fileset, with the same shape, if nothing of the slot has changed.
pub fn a_slot_stays()
    ensures { (number : ℕ) (d now : DomainNow) (files files_now : Files)
        (indexes indexes_now : IndexesAt) → StandsBelow d files indexes
        → StandsBelow now files_now indexes_now
        → KeepsSlot number d now files files_now indexes indexes_now
        → (entry : FilesetEntry) (shape : FilesetShape) (fileset : FilesetSlot)
        → item_in d number ≡ Some (slot.Original entry)
        → StandsSlot d number entry shape fileset → StandsSlot now number entry shape fileset }
{}

/// The original in each other slot stands for the same fileset if a page of a directory's index is
/// written.
pub fn other_slots_stay_where_an_index_page_is_written()
    ensures { (number : ℕ) (tag : Tag) (start : CellAt) (d now : DomainNow) (chains : Chains)
        (files : Files) (indexes : IndexesAt) (page : ℕ) (bytes : List ℕ)
        → StandsBelow d files indexes → NamesFile number tag start d chains files
        → KeepsTables d now → now.space ≡ d.space
        → WritesIndexPage number (d.tags number) d.space d.cells tag page bytes chains
        (indexes start) d.pages now.pages → OthersStand number d now }
{}

/// The original in each other slot stands for the same fileset if a page is put into an index.
pub fn other_slots_stay_where_an_index_page_is_put_in()
    ensures { (number : ℕ) (tag : Tag) (start : CellAt) (d now : DomainNow) (chains : Chains)
        (files : Files) (indexes : IndexesAt) (place prefer : ℕ) (bytes : List ℕ)
        → StandsBelow d files indexes → NamesFile number tag start d chains files
        → KeepsTables d now
        → AddsIndexPage number (d.tags number) d.cells tag place bytes prefer chains
        (indexes start) d.space now.space d.pages now.pages → OthersStand number d now }
{}

/// The original in each other slot stands for the same fileset if a file or directory is taken away
/// with its index.
pub fn other_slots_stay_where_a_file_goes_with_its_index()
    ensures { (number : ℕ) (tag : Tag) (start : CellAt) (d now : DomainNow) (chains : Chains)
        (files : Files) (indexes : IndexesAt) (group : ℕ) → StandsBelow d files indexes
        → NamesFile number tag start d chains files → KeepsTables d now
        → AreTogether number (d.tags number) now.space d.cells now.pages (without_chain tag chains)
        → Removes number (d.tags number) tag start (without_index tag chains) now.pages
        → GivesIndexBack group (d.tags number) (chains tag) (indexes start) d.space now.space
        d.pages now.pages → (clone : Option CellAt) (listed : Listing)
        → IsEntry (with_removed start tag chains files) (record { at = start; clone = clone })
        → Adds start clone d.list.entries listed.entries → listed.tag_pages ≡ d.list.tag_pages
        → OthersStand number d (record now { list = listed }) }
{}

/// The original in each other slot stands for the same fileset if an original joins the table.
pub fn other_slots_stay_where_a_fileset_begins()
    ensures { (number : ℕ) (entry : FilesetEntry) (d now : DomainNow) (files : Files)
        (indexes : IndexesAt) → StandsBelow d files indexes → JoinsEmpty number entry d now
        → OthersStand number d now }
{}

/// If the originals of all other slots stand for the filesets for which they stood, and that of one
/// slot for a fileset, be it new or the one that was there, the domain stands for all of them.
pub fn filesets_stand_where_others_stay()
    ensures { (number : ℕ) (entry : FilesetEntry) (d now : DomainNow) (files_now : Files)
        (indexes_now : IndexesAt) (all : FilesetMap) → StandsBelow now files_now indexes_now
        → PutsFileset number entry d now → StandSlots d all
        → ((other : ℕ) (its : FilesetEntry) (shape : FilesetShape) (fileset : FilesetSlot)
        → ¬ other ≡ number → item_in d other ≡ Some (slot.Original its)
        → StandsSlot d other its shape fileset → StandsSlot now other its shape fileset)
        → (shape : FilesetShape) (fileset : FilesetSlot)
        → StandsSlot now number entry shape fileset
        → StandSlots now (insert all entry.name fileset) }
{}
