//! Changes of names by which files stay.
ghost use Rattle.std.specs.Prelude.{◌≡◌, ℕ, None, Some};
ghost use Rattle.std.specs.FinMap.{get};
ghost use Rattle.standing_laws.specs.page_store.Bitfiles.{Bitfiles};
ghost use Rattle.standing_laws.specs.fileset_model.Apply.{linked, renamed, with_node, without};
ghost use Rattle.standing_laws.specs.fileset_model.Fileset.{Fileset};
ghost use Rattle.standing_laws.specs.fileset_values.Orders.{Path};
ghost use Rattle.standing_laws.specs.fileset_model.declared.fileset.FilesetSlot.{FilesetSlot};
ghost use Rattle.standing_laws.specs.fileset_model.declared.node.Node.{Node};
ghost use Rattle.standing_laws.specs.fileset_table.declared.slot.FilesetEntry.{FilesetEntry};
ghost use Rattle.standing_laws.specs.fileset_table.declared.slot.SlotItem.TheVariants as slot;
ghost use Rattle.standing_laws.specs.name_space.Changes.{IsOriginal};
ghost use Rattle.standing_laws.specs.stored_set.Sets.{StandsAsSet};
ghost use Rattle.standing_laws.specs.domain_layout.Shape.{FilesetShape};
ghost use Rattle.standing_laws.specs.domain_standing.Domain.{DomainNow, item_in};
ghost use Rattle.standing_laws.specs.domain_standing.Tables.{StandTables};
ghost use Rattle.standing_laws.specs.Slots.{StandsSlot};
ghost use Rattle.set_standing.specs.Around.{StaysAround};
ghost use Rattle.set_standing.specs.Follow.{Said};
ghost use Rattle.set_standing.specs.NamesNodes.{IsNewNode, NodesFollow, named_shape};

/// Each file and directory of a fileset is what it was, or new, if one is made under a number that
/// none had; if one more path leads to a file; if a path is taken away; and if what stands at a
/// path is moved to another, in place of what stood there.
pub fn names_keep_files()
    ensures made { (path : Path) (number : ℕ) (node : Node) (tree : Fileset)
        → get tree.nodes number ≡ None → IsNewNode node
        → NodesFollow tree (with_node path number node tree) }
    ensures linked { (path to : Path) (tree : Fileset) → NodesFollow tree (linked path to tree) }
    ensures without { (path : Path) (tree : Fileset) → NodesFollow tree (without path tree) }
    ensures renamed { (from to : Path) (tree : Fileset) → NodesFollow tree (renamed from to tree) }
    ensures same { (tree : Fileset) → NodesFollow tree tree }
{}

/// If a domain stays around an original whose files keep what they have, these are then shown as a
/// set, and the rows of the set make another fileset in which each file is what it was, or new,
/// then the original stands for that fileset, with the bytes that its files had.
pub fn a_fileset_of_new_names_stands()
    ensures { (said : Said) (number : ℕ) (entry : FilesetEntry) (d now : DomainNow)
        (shape : FilesetShape) (fileset fileset_now : FilesetSlot) (shown : Bitfiles)
        → StandTables d → StandTables now
        → item_in d number ≡ Some (slot.Original entry) → StandsSlot d number entry shape fileset
        → StaysAround said number d now
        → (set : StandsAsSet number (now.tags number) now.space now.cells now.pages shown)
        → IsOriginal shown fileset_now
        → NodesFollow fileset.tree fileset_now.tree
        → StandsSlot now number entry (named_shape set.chains shown shape.limits) fileset_now }
{}
