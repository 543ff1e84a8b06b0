//! A domain once an owner's limits are set in one of its filesets.
ghost use Rattle.std.specs.Prelude.{◌≡◌, ℕ, Some};
ghost use Rattle.std.specs.FinMap.{get, insert};
ghost use Rattle.domain_standing.specs.fileset_model.Filesets.{FilesetMap};
ghost use Rattle.domain_standing.specs.fileset_model.declared.fileset.FilesetSlot.{FilesetSlot};
ghost use Rattle.domain_standing.specs.fileset_table.declared.slot.FilesetEntry.{FilesetEntry};
ghost use Rattle.domain_standing.specs.fileset_table.declared.slot.SlotItem.TheVariants as slot;
ghost use Rattle.domain_standing.specs.release_list.Standing.{Files};
ghost use Rattle.domain_standing.specs.domain_layout.Shape.{FilesetShape};
ghost use Rattle.domain_standing.specs.domain_layout.Agreeing.{AgreeOn, AgreeOnShape};
ghost use Rattle.domain_standing.specs.Chains.{IndexesAt, StandChains};
ghost use Rattle.domain_standing.specs.Domain.{DomainNow, item_in};
ghost use Rattle.domain_standing.specs.Holders.{HoldsOwned};
ghost use Rattle.domain_standing.specs.Rest.{SaysTheRest};
ghost use Rattle.domain_standing.specs.Slots.{StandSlots};
ghost use Rattle.domain_standing.specs.Sources.{StandAlone};
ghost use Rattle.domain_standing.specs.Standing.{StandsDomain};
ghost use Rattle.domain_standing.specs.Tables.{StandTables};
ghost use Rattle.standing_laws.specs.Leads.{StandsBelow};
ghost use Rattle.standing_laws.specs.SetsQuota.{SetsQuota, entry_limited, fileset_limited, shape_limited};
ghost use Rattle.standing_laws.specs.Slots.{StandsSlot};

/// If a domain stands, its tables do once an owner's limits are set in the chain of quota cells
/// that a slot names, or in one that it names from then on.
pub fn tables_stand_on_where_limits_are_set()
    ensures { (number : ℕ) (d now : DomainNow) (files files_now : Files) (indexes : IndexesAt)
        → StandsBelow d files indexes → SetsQuota number d now files files_now
        → StandTables now }
{}

/// Once an owner's limits are set, each page is held for one thing alone, and all that are held for
/// nothing and do not wait are free.
pub fn held_pages_stand_on_where_limits_are_set()
    ensures { (number : ℕ) (d now : DomainNow) (files files_now : Files) (indexes : IndexesAt)
        → StandsBelow d files indexes → SetsQuota number d now files files_now
        → HoldsOwned now files_now indexes }
{}

/// Once an owner's limits are set, the cells of the domain say what is asked of them.
pub fn rest_stands_on_where_limits_are_set()
    ensures { (number : ℕ) (d now : DomainNow) (files files_now : Files) (indexes : IndexesAt)
        → StandsBelow d files indexes → SetsQuota number d now files files_now
        → SaysTheRest now files_now }
{}

/// Once an owner's limits are set, the chains of the domain still stand, with the slot's chain as
/// it is then.
pub fn chains_stand_on_where_limits_are_set()
    ensures { (number : ℕ) (d now : DomainNow) (files files_now : Files) (indexes : IndexesAt)
        → StandsBelow d files indexes → SetsQuota number d now files files_now
        → StandChains now files_now indexes }
{}

/// Once an owner's limits are set, all of the domain except its filesets still stands.
pub fn all_below_stands_on_where_limits_are_set()
    ensures { (number : ℕ) (d now : DomainNow) (files files_now : Files) (indexes : IndexesAt)
        → StandsBelow d files indexes → SetsQuota number d now files files_now
        → StandsBelow now files_now indexes }
{}

/// The original in another slot has the shape that it had, stands for the same fileset, and shows
/// the same set, if the bytes at the homes of its files are the same.
pub fn other_slots_stay_where_limits_are_set()
    ensures { (number : ℕ) (d now : DomainNow) (files files_now : Files) (indexes : IndexesAt)
        → StandsBelow d files indexes → SetsQuota number d now files files_now
        → (other : ℕ) (entry : FilesetEntry) (shape : FilesetShape) (fileset : FilesetSlot)
        → ¬ other ≡ number → item_in d other ≡ Some (slot.Original entry)
        → StandsSlot d other entry shape fileset → AgreeOnShape d.contents now.contents shape
        → StandsSlot now other entry shape fileset }
{}

/// The original in the slot stands for its fileset with these limits of the owner.
pub fn the_slot_has_the_limits_that_are_set()
    ensures { (number : ℕ) (d now : DomainNow) (files files_now : Files) (indexes : IndexesAt)
        → StandsBelow d files indexes → (sets : SetsQuota number d now files files_now)
        → (shape : FilesetShape) (fileset : FilesetSlot)
        → StandsSlot d number sets.entry shape fileset
        → AgreeOnShape d.contents now.contents shape
        → StandsSlot now number (entry_limited sets.sets.start sets.entry)
        (shape_limited sets.who sets.limits shape)
        (fileset_limited sets.who sets.limits fileset) }
{}

/// Once an owner's limits are set, a domain stands for its filesets, with these limits of the owner
/// in that one, if the bytes of all files are the same.
pub fn filesets_stand_on_where_limits_are_set()
    ensures { (number : ℕ) (d now : DomainNow) (files files_now : Files) (indexes : IndexesAt)
        → StandsBelow d files indexes → (sets : SetsQuota number d now files files_now)
        → (all : FilesetMap) → (slots : StandSlots d all)
        → AgreeOn d.contents now.contents slots.shapes → (fileset : FilesetSlot)
        → get all sets.entry.name ≡ Some fileset
        → StandSlots now
        (insert all sets.entry.name (fileset_limited sets.who sets.limits fileset)) }
{}

/// No file starts to be read through another one.
pub fn files_stand_alone_where_limits_are_set()
    ensures { (number : ℕ) (d now : DomainNow) (files files_now : Files) (indexes : IndexesAt)
        → StandsBelow d files indexes → StandsBelow now files_now indexes
        → SetsQuota number d now files files_now → StandAlone d → StandAlone now }
{}

/// All together: a domain stands for its filesets, with these limits of the owner in that one.
pub fn a_domain_stands_on_where_limits_are_set()
    ensures { (number : ℕ) (d now : DomainNow) (files_now : Files) (all : FilesetMap)
        → (stands : StandsDomain d all) → (sets : SetsQuota number d now stands.files files_now)
        → AgreeOn d.contents now.contents stands.slots.shapes → (fileset : FilesetSlot)
        → get all sets.entry.name ≡ Some fileset
        → StandsDomain now
        (insert all sets.entry.name (fileset_limited sets.who sets.limits fileset)) }
{}
