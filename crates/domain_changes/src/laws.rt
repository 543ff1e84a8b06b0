//! A law of the books of a domain's filesets once the book of one of them and its tree have
//! changed.
ghost use Rattle.std.specs.Prelude.{◌≡◌, ℕ, Option, Some};
ghost use Rattle.std.specs.FinMap.{get, insert};
ghost use Rattle.domain_memory.specs.fileset_model.Fileset.{Fileset};
ghost use Rattle.domain_memory.specs.fileset_model.Filesets.{FilesetMap};
ghost use Rattle.domain_memory.specs.fileset_model.declared.fileset.FilesetSlot.{FilesetSlot};
ghost use Rattle.domain_memory.specs.fileset_model.declared.node.Node.{Node};
ghost use Rattle.domain_memory.specs.fileset_table.declared.slot.FilesetEntry.{FilesetEntry};
ghost use Rattle.domain_memory.specs.quota_book.Book.{Charges, HasAll, Refunds, used};
ghost use Rattle.domain_memory.specs.quota_book.Sums.{ChangesNode, CountsMore, IsBookOf};
ghost use Rattle.domain_memory.specs.domain_standing.Standing.{AreBooksOf};
ghost use Rattle.domain_memory.specs.domain_standing.Tables.{StandTables};
ghost use Rattle.domain_memory.specs.Staged.{staged_books, staged_in};
ghost use Rattle.domain_memory.specs.declared.memory.DomainMemory.{DomainMemory};
ghost use Rattle.domain_changes.specs.Charging.{ChangesOneBook};
ghost use Rattle.domain_changes.specs.Table.{HasOriginal};

/// Books stay those of their filesets if only the book of one original has changed, and as its tree
/// has: if it was that of the old tree and is that of the new one; if one more file or directory
/// counts and as much is charged; and if one less counts and as much, which its owners use, is
/// refunded.
pub fn books_follow_their_filesets()
    ensures follows { (number : ℕ) (entry : FilesetEntry) (old now : DomainMemory)
        (all : FilesetMap) (fileset : FilesetSlot) (tree : Fileset)
        → HasOriginal old number entry → get all entry.name ≡ Some fileset
        → StandTables (staged_in now) → now.table ≡ old.table
        → ((n : ℕ) → ¬ n ≡ number → staged_books now n ≡ staged_books old n)
        → (IsBookOf (staged_books old number) fileset.tree
        → IsBookOf (staged_books now number) tree)
        → AreBooksOf (staged_books old) (staged_in old) all
        → AreBooksOf (staged_books now) (staged_in now)
        (insert all entry.name (record fileset { tree = tree })) }
    ensures charged { (number : ℕ) (entry : FilesetEntry) (old now : DomainMemory)
        (all : FilesetMap) (fileset : FilesetSlot) (tree : Fileset) (node : ℕ)
        (was is : Option Node) (uid gid files blocks : ℕ) → HasOriginal old number entry
        → get all entry.name ≡ Some fileset → StandTables (staged_in now)
        → ChangesOneBook number (Charges uid gid files blocks) old now
        → ChangesNode node was is fileset.tree tree → CountsMore uid gid files blocks was is
        → AreBooksOf (staged_books old) (staged_in old) all
        → AreBooksOf (staged_books now) (staged_in now)
        (insert all entry.name (record fileset { tree = tree })) }
    ensures refunded { (number : ℕ) (entry : FilesetEntry) (old now : DomainMemory)
        (all : FilesetMap) (fileset : FilesetSlot) (tree : Fileset) (node : ℕ)
        (was is : Option Node) (uid gid files blocks : ℕ) → HasOriginal old number entry
        → get all entry.name ≡ Some fileset → StandTables (staged_in now)
        → ChangesOneBook number (Refunds uid gid files blocks) old now
        → ChangesNode node was is fileset.tree tree → CountsMore uid gid files blocks is was
        → AreBooksOf (staged_books old) (staged_in old) all
        → AreBooksOf (staged_books now) (staged_in now)
        (insert all entry.name (record fileset { tree = tree })) }
    ensures enough { (number : ℕ) (entry : FilesetEntry) (old : DomainMemory) (all : FilesetMap)
        (fileset : FilesetSlot) (tree : Fileset) (node : ℕ) (was is : Option Node)
        (uid gid files blocks : ℕ) → HasOriginal old number entry
        → get all entry.name ≡ Some fileset → ChangesNode node was is fileset.tree tree
        → CountsMore uid gid files blocks is was
        → AreBooksOf (staged_books old) (staged_in old) all
        → HasAll uid gid files blocks (used (staged_books old number)) }
{}
