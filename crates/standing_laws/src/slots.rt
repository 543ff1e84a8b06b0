//! The filesets of slots.
ghost use Rattle.std.specs.FinMap.{get, insert};
ghost use Rattle.std.specs.Option.{option_and_then};
ghost use Rattle.std.specs.Prelude.{◌≡◌, ℕ, IsSomeAnd, Some};
ghost use Rattle.domain_standing.specs.domain_base.declared.place.CellAt.{CellAt};
ghost use Rattle.domain_standing.specs.domain_base.declared.place.Home.{Home};
ghost use Rattle.domain_standing.specs.domain_base.declared.place.Tag.{Tag};
ghost use Rattle.domain_standing.specs.extent_maps.declared.run.PagePlace.TheVariants.{At};
ghost use Rattle.domain_standing.specs.fileset_model.Filesets.{FilesetMap};
ghost use Rattle.domain_standing.specs.fileset_model.declared.fileset.FilesetSlot.{FilesetSlot};
ghost use Rattle.domain_standing.specs.fileset_table.declared.slot.FilesetEntry.{FilesetEntry};
ghost use Rattle.domain_standing.specs.fileset_table.declared.slot.SlotItem.TheVariants as slot;
ghost use Rattle.domain_standing.specs.fileset_files.Files.{Chains};
ghost use Rattle.domain_standing.specs.release_list.Standing.{Files, place_in};
ghost use Rattle.domain_standing.specs.release_steps.Tags.{start_of};
ghost use Rattle.domain_standing.specs.domain_layout.Shape.{FilesetShape};
ghost use Rattle.domain_standing.specs.domain_layout.Agreeing.{AgreeOnShape};
ghost use Rattle.domain_standing.specs.Chains.{IndexesAt};
ghost use Rattle.domain_standing.specs.Domain.{DomainNow, item_in};
ghost use Rattle.domain_standing.specs.Slots.{StandSlots};
ghost use Rattle.standing_laws.specs.Leads.{LeadsOn, StandsBelow};
ghost use Rattle.standing_laws.specs.Slots.{AgreeOnOthers, StandsSlot};

/// If a domain stands for filesets, the original in a slot stands for that of its name.
pub fn each_original_stands_in_its_slot()
    ensures { (d : DomainNow) (all : FilesetMap) (slots : StandSlots d all) (number : ℕ)
        (entry : FilesetEntry) → item_in d number ≡ Some (slot.Original entry)
        → IsSomeAnd (slots.shapes entry.name)
        (λ shape. IsSomeAnd (get all entry.name) (StandsSlot d number entry shape)) }
{}

/// If a domain stands, the original in another slot has the shape that it had after a call on a
/// file, stands for the same fileset, and shows the same set, if the bytes at the homes of its
/// files are the same.
pub fn other_slots_stay()
    ensures { (number : ℕ) (tag : Tag) (d now : DomainNow) (chains chains_now : Chains)
        (files files_now : Files) (indexes : IndexesAt) → StandsBelow d files indexes
        → LeadsOn number tag d now chains chains_now files files_now
        → (other : ℕ) (entry : FilesetEntry) (shape : FilesetShape) (fileset : FilesetSlot)
        → ¬ other ≡ number → item_in d other ≡ Some (slot.Original entry)
        → StandsSlot d other entry shape fileset → AgreeOnShape d.contents now.contents shape
        → StandsSlot now other entry shape fileset }
{}

/// Those bytes are the same if each page of a file keeps its bytes, except the pages of the file
/// that the call is on.
pub fn other_slots_keep_their_bytes()
    ensures { (number : ℕ) (tag : Tag) (d now : DomainNow) (chains chains_now : Chains)
        (files files_now : Files) (indexes : IndexesAt) → StandsBelow d files indexes
        → LeadsOn number tag d now chains chains_now files files_now
        → ((at : CellAt) (page : ℕ) (home : Home)
        → ¬ option_and_then start_of (chains tag) ≡ Some at → place_in files at page ≡ At home
        → d.contents home ≡ now.contents home)
        → (other : ℕ) (entry : FilesetEntry) (shape : FilesetShape) (fileset : FilesetSlot)
        → ¬ other ≡ number → item_in d other ≡ Some (slot.Original entry)
        → StandsSlot d other entry shape fileset
        → AgreeOnShape d.contents now.contents shape }
{}

/// A domain stands after a call for the filesets for which it stood, except for that of the slot of
/// the call, once that one is known.
pub fn filesets_stand_on()
    ensures { (number : ℕ) (tag : Tag) (d now : DomainNow) (chains chains_now : Chains)
        (files files_now : Files) (indexes : IndexesAt) (all : FilesetMap)
        → StandsBelow d files indexes
        → (leads : LeadsOn number tag d now chains chains_now files files_now)
        → (slots : StandSlots d all) → AgreeOnOthers number d now slots.shapes
        → (shape : FilesetShape) (fileset : FilesetSlot)
        → StandsSlot now number leads.entry shape fileset
        → StandSlots now (insert all leads.entry.name fileset) }
{}
