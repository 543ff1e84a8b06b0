//! Refunding to its owners what is gone with its last path.
ghost use Rattle.std.specs.Prelude.{◌≡◌, false, true, IfErr, IfOk, IsSomeAnd, None, Some, slice_get};
ghost use Rattle.domain_changes.specs.fileset_model.Filesets.{FilesetMap};
ghost use Rattle.domain_changes.specs.fileset_values.Orders.{Path as PathOf};
ghost use Rattle.domain_changes.specs.fileset_model.Paths.{node_at, target_refusal};
ghost use Rattle.domain_changes.specs.fileset_model.declared.fileset.FilesetSlot.{FilesetSlot};
ghost use Rattle.domain_changes.specs.fileset_table.declared.slot.FilesetEntry.{FilesetEntry};
ghost use Rattle.domain_changes.specs.quota_book.Book.{HasAll, Refunds, used};
ghost use Rattle.domain_changes.specs.domain_layout.CellRules.{of_original};
ghost use Rattle.domain_changes.specs.domain_memory.Kept.{KeepsKept};
ghost use Rattle.domain_changes.specs.domain_memory.Staged.{IsStaged, IsStagedForSome, MayGoBack, staged_books, staged_in};
ghost use Rattle.domain_changes.specs.Charging.{ChangesOneBook};
ghost use Rattle.name_changes.specs.Looking.{IsLiveIn, LeadsTo};
ghost use Rattle.name_changes.specs.Stages.{HasFileset};
ghost use Rattle.file_changes.specs.Stages.{HasFile};
ghost use Rattle.name_commands.specs.Leaving.{IsShareOf};

use domain_changes::from_domain_base::limits::BLOCKS_PER_PAGE;
use domain_changes::{DomainMemory, FilesetNo, Kind, OutOfMemory, Refusal, Tag, refund};
use file_changes::{count_pages, describe};
use std::alloc::Global;

/// Who owns a file or directory, and how many blocks of 512 bytes its pages count for; a
/// directory's pages count for none.
#[derive(Clone, Copy)]
pub struct Share {
    /// The user that owns it.
    pub uid: u32,
    /// The group that owns it.
    pub gid: u32,
    /// The blocks of 512 bytes that it takes.
    pub blocks: u64,
}

/// The share of what a tag names, which is of this kind. Fails only if memory runs out.
pub(crate) fn share_of(
    memory: &DomainMemory,
    alloc: Global,
    number: FilesetNo,
    tag: Tag,
    kind: Kind,
) -> Result<Share, OutOfMemory>
    requires stands { ∥ IsStagedForSome memory.now ∥₁ }
    requires back { ∥ MayGoBack memory.now ∥₁ }
    requires original { of_original (slice_get memory.now.table.slots number) ≡ true }
    requires live { IsLiveIn memory.now number tag kind }
    ensures { (path : PathOf) (all : FilesetMap) (entry : FilesetEntry) (fileset : FilesetSlot)
        → HasFile memory.now number tag path all entry fileset → LeadsTo path fileset tag kind
        → IfOk result (λ share. IsSomeAnd (node_at fileset.tree path) (IsShareOf share)) }
{
    let what = describe(memory, number, tag);
    let pages = match kind {
        Kind::File => count_pages(memory, alloc, number, tag)?,
        Kind::Directory => 0,
    };
    Ok(Share {
        uid: what.uid,
        gid: what.gid,
        blocks: u64::from(BLOCKS_PER_PAGE) * u64::from(pages),
    })
}

/// The share of what a path leads to; nobody's if it leads nowhere. Fails only if memory runs out.
pub(crate) fn share_led(
    memory: &DomainMemory,
    alloc: Global,
    number: FilesetNo,
    led: Result<(Tag, Kind), Refusal>,
) -> Result<Share, OutOfMemory>
    requires stands { ∥ IsStagedForSome memory.now ∥₁ }
    requires back { ∥ MayGoBack memory.now ∥₁ }
    requires original { of_original (slice_get memory.now.table.slots number) ≡ true }
    requires live { IfOk led (λ there. IsLiveIn memory.now number there.0 there.1) }
    ensures { (path : PathOf) (all : FilesetMap) (entry : FilesetEntry) (fileset : FilesetSlot)
        → HasFileset memory.now number all entry fileset
        → IfOk led (λ there. LeadsTo path fileset there.0 there.1)
        → IfErr led (λ refusal. target_refusal fileset path ≡ Some refusal)
        → target_refusal fileset path ≡ None
        → IfOk result (λ share. IsSomeAnd (node_at fileset.tree path) (IsShareOf share)) }
{
    match led {
        Ok(there) => share_of(memory, alloc, number, there.0, there.1),
        Err(_) => Ok(Share {
            uid: 0,
            gid: 0,
            blocks: 0,
        }),
    }
}

/// Refunds a file or directory to its owners, if it is gone.
pub(crate) fn refund_gone(memory: &mut DomainMemory, number: FilesetNo, share: Share, is_gone: bool)
    requires stands { ∥ IsStagedForSome memory.old ∥₁ }
    requires back { ∥ MayGoBack memory.old ∥₁ }
    requires original { of_original (slice_get memory.old.table.slots number) ≡ true }
    requires enough { is_gone ≡ true → ∥ HasAll share.uid share.gid 1 share.blocks
        (used (staged_books memory.old number)) ∥₁ }
    ensures gone { is_gone ≡ true → ChangesOneBook number
        (Refunds share.uid share.gid 1 share.blocks) memory.old memory.new }
    ensures left { is_gone ≡ false → memory.new ≡ memory.old }
    ensures domain { staged_in memory.new ≡ staged_in memory.old }
    ensures staged { (all : FilesetMap) → IsStaged memory.old all → IsStaged memory.new all }
    ensures kept { KeepsKept memory.old memory.new }
    ensures back { ∥ MayGoBack memory.new ∥₁ }
{
    if is_gone {
        refund(memory, number, share.uid, share.gid, 1, share.blocks);
    }
}
