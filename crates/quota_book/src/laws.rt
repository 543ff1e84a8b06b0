//! Laws of a book whose totals are the sums over a fileset's files and directories.
ghost use Rattle.std.specs.Prelude.{◌≡◌, ◌+◌, ◌∷◌, ◌++◌, ℕ, true, false, [], List, Option, Some, None, if◌then◌else◌};
ghost use Rattle.std.specs.FinMap as map;
ghost use Rattle.fileset_model.specs.Apply.{empty_fileset, is_named_elsewhere, linked as with_path, moved as with_move, with_change, with_node, without};
ghost use Rattle.fileset_model.specs.Fileset.{Fileset};
ghost use Rattle.fileset_model.specs.fileset_values.Orders.{Path};
ghost use Rattle.fileset_model.specs.Paths.{first_refusal};
ghost use Rattle.fileset_model.specs.Usage.{blocks_of, quota_refusal, with_limits};
ghost use Rattle.fileset_model.specs.fileset_values.declared.command.Owner.{Owner};
ghost use Rattle.fileset_model.specs.declared.fileset.Limits.{Limits};
ghost use Rattle.fileset_model.specs.fileset_values.declared.command.Owner.TheVariants.{User, Group, Fileset as WholeFileset};
ghost use Rattle.fileset_model.specs.declared.node.Node.{Node};
ghost use Rattle.quota_book.specs.Book.{Book, Charges, HasAll, Refunds, empty_book, refusal_in, used};
ghost use Rattle.quota_book.specs.Owners.{same_owner};
ghost use Rattle.quota_book.specs.QuotaCells.{Said, all_said, limits_at, touched, with_quota};
ghost use Rattle.quota_book.specs.Sums.{ChangesNode, CountsMore, IsBookOf, IsNotRoot, gid_of, uid_of};

/// The law that a charge keeps the totals equal to sums from scratch: if one file or directory
/// counts that much more after a change than before it, the book with that charge is the new
/// fileset's.
pub fn charges_keep_the_sums()
    ensures { (old new : Fileset) (number : ℕ) (was is : Option Node) (uid gid files blocks : ℕ)
        (book charged : Book) → IsBookOf book old → ChangesNode number was is old new
        → CountsMore uid gid files blocks was is → Charges uid gid files blocks book charged
        → IsBookOf charged new }
{}

/// The law that a refund keeps them equal too, and that what is refunded was counted.
pub fn refunds_keep_the_sums()
    ensures sums { (old new : Fileset) (number : ℕ) (was is : Option Node)
        (uid gid files blocks : ℕ) (book refunded : Book) → IsBookOf book old
        → ChangesNode number was is old new → CountsMore uid gid files blocks is was
        → Refunds uid gid files blocks book refunded → IsBookOf refunded new }
    ensures enough { (old new : Fileset) (number : ℕ) (was is : Option Node)
        (uid gid files blocks : ℕ) (book : Book) → IsBookOf book old
        → ChangesNode number was is old new → CountsMore uid gid files blocks is was
        → HasAll uid gid files blocks (used book) }
{}

/// The law that a fileset's book answers as the fileset's check does: for the user, the group and
/// the fileset in turn. The book of a fileset with only a root is empty.
pub fn books_answer_as_filesets()
    ensures asked { (book : Book) (tree : Fileset) (uid gid files blocks : ℕ) → IsBookOf book tree
        → quota_refusal tree uid gid files blocks
        ≡ first_refusal (refusal_in book (User uid) files blocks
        ∷ refusal_in book (Group gid) files blocks ∷ refusal_in book WholeFileset files blocks
        ∷ []) }
    ensures empty { (root : ℕ) → IsBookOf empty_book (empty_fileset root) }
{}

/// The law that the changes of a fileset by which a file or directory comes, changes or goes are
/// changes of one node: a new one at a path, another one in its place, and its last path taken
/// away.
pub fn filesets_change_one_by_one()
    ensures made { (tree : Fileset) (path : Path) (number : ℕ) (node : Node) → ¬ path ≡ []
        → IsNotRoot tree number → map.get tree.nodes number ≡ None
        → ChangesNode number None (Some node) tree (with_node path number node tree) }
    ensures changed { (tree : Fileset) (path : Path) (number : ℕ) (node : Node)
        (change : Node → Node) → map.get tree.paths path ≡ Some number → IsNotRoot tree number
        → map.get tree.nodes number ≡ Some node → ChangesNode number (Some node)
        (Some (change node)) tree (with_change path change tree) }
    ensures gone { (tree : Fileset) (path : Path) (number : ℕ) (node : Node) → ¬ path ≡ []
        → map.get tree.paths path ≡ Some number → is_named_elsewhere tree path number ≡ false
        → IsNotRoot tree number → map.get tree.nodes number ≡ Some node
        → ChangesNode number (Some node) None tree (without path tree) }
{}

/// The law that the other changes keep the sums without a charge: a second path of a file, one of
/// its paths taken away if it has another, all below a path moved, and limits set.
pub fn sums_stay_without_a_charge()
    ensures linked { (tree : Fileset) (path to : Path) (book : Book) → ¬ to ≡ []
        → IsBookOf book tree → IsBookOf book (with_path path to tree) }
    ensures unlinked { (tree : Fileset) (path : Path) (number : ℕ) (book : Book) → ¬ path ≡ []
        → map.get tree.paths path ≡ Some number → is_named_elsewhere tree path number ≡ true
        → IsBookOf book tree → IsBookOf book (without path tree) }
    ensures moved { (tree : Fileset) (from to : Path) (book : Book) → ¬ from ≡ [] → ¬ to ≡ []
        → IsBookOf book tree → IsBookOf book (with_move from to tree) }
    ensures limited { (tree : Fileset) (who : Owner) (limits : Limits) (book : Book)
        → IsBookOf book tree
        → IsBookOf (record book { limits = with_limits book.limits who limits })
        (record tree { limits = with_limits tree.limits who limits }) }
{}

/// The law that a file or directory counts one file and its blocks for its ids, and that one with
/// the same ids and more blocks counts the additional blocks.
pub fn nodes_count_for_their_ids()
    ensures one { (node : Node) → CountsMore (uid_of node) (gid_of node) 1 (blocks_of node) None
        (Some node) }
    ensures grown { (node grown : Node) (blocks : ℕ) → uid_of grown ≡ uid_of node
        → gid_of grown ≡ gid_of node → blocks_of grown ≡ blocks_of node + blocks
        → CountsMore (uid_of node) (gid_of node) 0 blocks (Some node) (Some grown) }
{}

/// The law that a change of an owner's limits is a change of the one cell that it touches, or of a
/// cell that is added if it touches none. All other owners keep their limits.
pub fn one_cell_is_touched()
    ensures touched { (cells : List Said) (who other : Owner) (limits : Limits) (k : ℕ)
        → touched cells who ≡ Some k
        → limits_at (all_said (with_quota k who limits cells)) other
        ≡ (if same_owner other who then limits else limits_at (all_said cells) other) }
    ensures added { (cells : List Said) (who other : Owner) (limits : Limits)
        → touched cells who ≡ None
        → limits_at (all_said (cells ++ ((who, limits) ∷ []) ∷ [])) other
        ≡ (if same_owner other who then limits else limits_at (all_said cells) other) }
{}
