//! Changes of files by which names stay.
ghost use Rattle.std.specs.Prelude.{◌≡◌, ℕ, Some};
ghost use Rattle.std.specs.FinMap.{get};
ghost use Rattle.standing_laws.specs.domain_base.declared.place.Tag.{Tag};
ghost use Rattle.standing_laws.specs.page_store.Bitfiles.{Bitfile};
ghost use Rattle.standing_laws.specs.fileset_files.Files.{AreFiles, Chains};
ghost use Rattle.standing_laws.specs.fileset_model.Apply.{with_change};
ghost use Rattle.standing_laws.specs.fileset_values.Orders.{Path};
ghost use Rattle.standing_laws.specs.fileset_model.declared.fileset.FilesetSlot.{FilesetSlot};
ghost use Rattle.standing_laws.specs.fileset_model.declared.node.Node.{Node};
ghost use Rattle.standing_laws.specs.fileset_table.declared.slot.FilesetEntry.{FilesetEntry};
ghost use Rattle.standing_laws.specs.fileset_table.declared.slot.SlotItem.TheVariants as slot;
ghost use Rattle.standing_laws.specs.name_space.Names.{number_of};
ghost use Rattle.standing_laws.specs.stored_set.Sets.{StandsAsSet};
ghost use Rattle.standing_laws.specs.domain_layout.Shape.{AreLimits, FilesetShape};
ghost use Rattle.standing_laws.specs.domain_standing.Domain.{DomainNow, item_in};
ghost use Rattle.standing_laws.specs.domain_standing.Tables.{StandTables};
ghost use Rattle.standing_laws.specs.Slots.{StandsSlot};
ghost use Rattle.set_standing.specs.NamesNodes.{named_shape};
ghost use Rattle.set_standing.specs.OneFile.{FileFollows, KeepsKind};

/// If an original is shown as the set that it was, its owners keep their limits, one file is what a
/// change makes of the node that it was, and each other file is what it was, then it stands for the
/// fileset with that change.
pub fn a_fileset_of_one_changed_file_stands()
    ensures { (number : ℕ) (entry : FilesetEntry) (tag : Tag) (path : Path)
        (change : Node → Node) (d now : DomainNow) (shape : FilesetShape) (fileset : FilesetSlot)
        (file : Bitfile) (chains : Chains) → StandTables d → StandTables now
        → item_in d number ≡ Some (slot.Original entry)
        → item_in now number ≡ Some (slot.Original entry)
        → StandsSlot d number entry shape fileset
        → (AreLimits d.pages entry shape.limits → AreLimits now.pages entry shape.limits)
        → (set : StandsAsSet number (now.tags number) now.space now.cells now.pages shape.shown)
        → AreFiles number (d.tags number) d.pages chains
        → FileFollows tag change d.contents now.contents chains set.chains → KeepsKind change
        → get fileset.tree.paths path ≡ Some (number_of tag) → shape.shown tag ≡ Some file
        → StandsSlot now number entry (named_shape set.chains shape.shown shape.limits)
        (record fileset { tree = with_change path change fileset.tree }) }
{}
