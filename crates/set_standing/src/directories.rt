//! Changes of names by which directories stand where they stood.
ghost use Rattle.std.specs.Prelude.{◌≡◌, ◌-◌, ◌≤◌, ℕ, None, Some, length, take};
ghost use Rattle.std.specs.FinMap.{get};
ghost use Rattle.std.specs.Option.{option_map};
ghost use Rattle.standing_laws.specs.domain_base.declared.place.Kind.{Kind};
ghost use Rattle.standing_laws.specs.legal_histories.Valid.{IsValidFileset};
ghost use Rattle.standing_laws.specs.fileset_model.Apply.{linked, rename_checks, renamed, with_node, without};
ghost use Rattle.standing_laws.specs.fileset_model.Fileset.{Fileset};
ghost use Rattle.standing_laws.specs.fileset_values.Orders.{Path};
ghost use Rattle.standing_laws.specs.fileset_model.Paths.{first_refusal, is_directory, node_at};
ghost use Rattle.standing_laws.specs.fileset_model.declared.fileset.FilesetSlot.{FilesetSlot};
ghost use Rattle.standing_laws.specs.name_space.Changes.{new_node};
ghost use Rattle.standing_laws.specs.name_space.Names.{is_directory_kind};
ghost use Rattle.set_standing.specs.Directories.{DirectoriesFollow, IsDirectoryOf, said_of};

/// Each directory of a fileset stands in the one in which it stood, except a new directory and one
/// that moves, for which it is recorded where they stand. This holds if a file or directory is
/// made, if one more path leads to a file, if a path is taken away, and if what stands at a path is
/// moved to another, in place of what stood there.
pub fn names_keep_directories()
    ensures made { (path : Path) (of : Kind) (uid gid number dir : ℕ) (tree : Fileset)
        → IsValidFileset tree → get tree.paths path ≡ None → get tree.nodes number ≡ None
        → get tree.paths (take (length path - 1) path) ≡ Some dir
        → DirectoriesFollow (said_of of number dir) tree
        (with_node path number (new_node of uid gid) tree) }
    ensures linked { (path to : Path) (number : ℕ) (tree : Fileset) → IsValidFileset tree
        → get tree.paths path ≡ Some number → ¬ IsDirectoryOf tree number
        → get tree.paths to ≡ None → DirectoriesFollow None tree (linked path to tree) }
    ensures without { (path : Path) (tree : Fileset)
        → DirectoriesFollow None tree (without path tree) }
    ensures renamed { (from to : Path) (slot : FilesetSlot) (of : Kind) (number dir : ℕ)
        → IsValidFileset slot.tree → first_refusal (rename_checks from to slot) ≡ None
        → 1 ≤ length to → get slot.tree.paths from ≡ Some number
        → option_map is_directory (node_at slot.tree from) ≡ Some (is_directory_kind of)
        → get slot.tree.paths (take (length to - 1) to) ≡ Some dir
        → DirectoriesFollow (said_of of number dir) slot.tree (renamed from to slot.tree) }
{}
