//! Laws of the definitions. Each is the contract of a function without a body.
ghost use Rattle.std.specs.Prelude.{◌≡◌, ◌⊎◌, ℕ, ◌+◌, ◌-◌, ◌<◌, ◌≤◌, List, length, slice_index, Option, Some};
ghost use Rattle.fileset_model.specs.Pages.{Pages, byte_at, truncated, written};
ghost use Rattle.legal_histories.specs.WholePages.{AreWhole};
ghost use Rattle.std.specs.FinMap.{empty, get};
ghost use Rattle.fileset_model.specs.Apply.{AnswersIfMemory, with_tree};
ghost use Rattle.fileset_model.specs.Fileset.{Fileset as Tree};
ghost use Rattle.fileset_model.specs.fileset_values.Orders.{Name as NameBytes};
ghost use Rattle.fileset_model.specs.Filesets.{FilesetMap};
ghost use Rattle.legal_histories.specs.Valid.{AreValid, IsValidFileset};
ghost use Rattle.fileset_model.specs.fileset_values.declared.command.Command.{Command as CommandOf};
ghost use Rattle.fileset_model.specs.fileset_values.declared.entry.Entry.{Entry as EntryOf};
ghost use Rattle.fileset_model.specs.declared.fileset.FilesetSlot.{FilesetSlot as SlotOf};
ghost use Rattle.fileset_model.specs.declared.fileset.Role.TheVariants.{Original as OriginalRole};
ghost use Rattle.fileset_model.specs.fileset_values.declared.reply.Reply.{Reply as ReplyOf};

/// A valid tree in place of an original's tree keeps all filesets valid.
pub fn a_valid_tree_keeps_all_valid()
    ensures { (all : FilesetMap) (name : NameBytes) (slot : SlotOf) (change : Tree → Tree)
        → AreValid all → get all name ≡ Some slot → slot.role ≡ OriginalRole
        → IsValidFileset (change slot.tree) → AreValid (with_tree all name change) }
{}

/// Every answer to a command, including a refusal and out of memory, keeps all filesets valid.
pub fn every_answer_keeps_all_valid()
    ensures { (old new : FilesetMap) (command : CommandOf) (reply : ReplyOf)
        → AreValid old → AnswersIfMemory old command reply new → AreValid new }
{}

/// No filesets at all are valid.
pub fn no_filesets_are_valid()
    ensures { AreValid empty }
{}

/// What was written is read back, and every other byte of the file reads as before.
pub fn what_was_written_is_read()
    ensures within { (pages : Pages) (offset x : ℕ) (bytes : List ℕ)
        → AreWhole pages → offset ≤ x → x < offset + length bytes
        → byte_at (written pages offset bytes) x ≡ slice_index bytes (x - offset) }
    ensures outside { (pages : Pages) (offset x : ℕ) (bytes : List ℕ)
        → AreWhole pages → (x < offset) ⊎ (offset + length bytes ≤ x)
        → byte_at (written pages offset bytes) x ≡ byte_at pages x }
{}

/// After a cut, the bytes below the new size read as before, and those from the size on read as
/// zeros.
pub fn a_cut_leaves_zeros()
    ensures below { (pages : Pages) (size x : ℕ) → AreWhole pages → x < size
        → byte_at (truncated pages size) x ≡ byte_at pages x }
    ensures behind { (pages : Pages) (size x : ℕ) → AreWhole pages → size ≤ x
        → byte_at (truncated pages size) x ≡ 0 }
{}
