//! Charging and refunding in a fileset's book what its owners use, and what their limits refuse.
ghost use Rattle.std.specs.Prelude.{◌≡◌, ◌<◌, ◌∷◌, ℕ, true, [], IsSome, List, OnErr, OnOk, Some, length, slice_get};
ghost use Rattle.std.specs.FinMap.{get};
ghost use Rattle.domain_memory.specs.fileset_model.Filesets.{FilesetMap};
ghost use Rattle.domain_memory.specs.fileset_model.Paths.{first_refusal};
ghost use Rattle.domain_memory.specs.fileset_model.Usage.{quota_refusal};
ghost use Rattle.domain_memory.specs.fileset_values.declared.command.Owner.TheVariants as owner;
ghost use Rattle.domain_memory.specs.fileset_model.declared.fileset.FilesetSlot.{FilesetSlot};
ghost use Rattle.domain_memory.specs.fileset_table.declared.slot.FilesetEntry.{FilesetEntry};
ghost use Rattle.domain_memory.specs.fileset_table.declared.slot.SlotItem.TheVariants as slot;
ghost use Rattle.domain_memory.specs.quota_book.Book.{Charges, FitsAll, HasAll, IsBelow, Refunds, limits_in, refusal_in, used};
ghost use Rattle.domain_memory.specs.domain_layout.CellRules.{of_original};
ghost use Rattle.domain_memory.specs.domain_standing.Domain.{item_in};
ghost use Rattle.domain_memory.specs.domain_standing.Standing.{AreBooksOf};
ghost use Rattle.domain_memory.specs.Slots.{ChangesSlot, book_in, slot_in};
ghost use Rattle.domain_memory.specs.Kept.{KeepsKept};
ghost use Rattle.domain_memory.specs.Staged.{IsStaged, IsStagedForSome, MayGoBack, staged_books, staged_in};
ghost use Rattle.domain_changes.specs.Charging.{ChangesBook, ChangesInBook, ChangesOneBook};

use domain_memory::{
    DomainMemory, FilesetNo, Limits, OutOfMemory, Owner, QuotaBook, Refusal, SlotFiles, Usage,
};

/// Whether what an owner uses stays below 2^64 with `files` more files and `blocks` more blocks
/// of 512 bytes.
fn fits(book: &QuotaBook, who: Owner, files: u64, blocks: u64) -> bool
    ensures { result ≡ true → IsBelow files blocks (used book.now.book who) }
{
    let usage = book.usage(who);
    files <= u64::MAX - usage.files && blocks <= u64::MAX - usage.blocks
}

/// Whether what the user, the group and the whole fileset use stays below 2^64 with `files`
/// more files and `blocks` more blocks.
fn fits_all(book: &QuotaBook, uid: u32, gid: u32, files: u64, blocks: u64) -> bool
    ensures { result ≡ true → FitsAll uid gid files blocks (used book.now.book) }
{
    fits(book, Owner::User(uid), files, blocks)
        && fits(book, Owner::Group(gid), files, blocks)
        && fits(book, Owner::Fileset, files, blocks)
}

/// Charges owners in the book of what is in a slot.
fn charge_files(
    held: &mut SlotFiles,
    uid: u32,
    gid: u32,
    files: u64,
    blocks: u64,
) -> Result<(), OutOfMemory>
    ensures ok { OnOk result (ChangesBook (Charges uid gid files blocks) held.old held.new) }
    ensures err { OnErr result (held.new ≡ held.old) }
{
    if !fits_all(&held.book, uid, gid, files, blocks) {
        return Err(OutOfMemory);
    }
    held.book.charge(uid, gid, files, blocks)
}

/// Charges owners in the book of a slot, if it has one.
fn charge_slot(
    held: &mut Option<SlotFiles>,
    uid: u32,
    gid: u32,
    files: u64,
    blocks: u64,
) -> Result<(), OutOfMemory>
    ensures ok { OnOk result (ChangesSlot (ChangesBook (Charges uid gid files blocks)) held.old
        held.new) }
    ensures err { OnErr result (held.new ≡ held.old) }
{
    match held {
        Some(held) => charge_files(held, uid, gid, files, blocks),
        None => Ok(()),
    }
}

/// Charges owners in the book of the fileset in a slot.
fn charge_book(
    memory: &mut DomainMemory,
    number: FilesetNo,
    uid: u32,
    gid: u32,
    files: u64,
    blocks: u64,
) -> Result<(), OutOfMemory>
    requires within { number < length memory.old.slots.items }
    ensures ok { OnOk result (ChangesInBook number (Charges uid gid files blocks) memory.old
        memory.new) }
    ensures err { OnErr result (memory.new.slots.items ≡ memory.old.slots.items) }
    ensures same { memory.new ≡ record memory.old { slots = memory.new.slots } }
{
    charge_slot(
        &mut memory.slots[number.number() as usize],
        uid,
        gid,
        files,
        blocks,
    )
}

/// Adds files and blocks of 512 bytes to what a user, a group and the whole fileset in a slot, an
/// original, use. No limit is looked at. The domain is what it was, and no other book changes.
/// Fails only if memory runs out or a sum would not be below 2^64, and then this book has not
/// changed either.
pub fn charge(
    memory: &mut DomainMemory,
    number: FilesetNo,
    uid: u32,
    gid: u32,
    files: u64,
    blocks: u64,
) -> Result<(), OutOfMemory>
    requires stands { ∥ IsStagedForSome memory.old ∥₁ }
    requires back { ∥ MayGoBack memory.old ∥₁ }
    requires original { of_original (slice_get memory.old.table.slots number) ≡ true }
    ensures ok { OnOk result (ChangesOneBook number (Charges uid gid files blocks) memory.old
        memory.new) }
    ensures err { OnErr result (staged_books memory.new ≡ staged_books memory.old) }
    ensures domain { staged_in memory.new ≡ staged_in memory.old }
    ensures staged { (all : FilesetMap) → IsStaged memory.old all → IsStaged memory.new all }
    ensures kept { KeepsKept memory.old memory.new }
    ensures back { ∥ MayGoBack memory.new ∥₁ }
    ensures same { memory.new ≡ record memory.old { slots = memory.new.slots } }
{
    charge_book(memory, number, uid, gid, files, blocks)
}

/// Takes back what was charged, in the book of what is in a slot.
fn refund_files(held: &mut SlotFiles, uid: u32, gid: u32, files: u64, blocks: u64)
    requires { HasAll uid gid files blocks (used held.old.book.book) }
    ensures { ChangesBook (Refunds uid gid files blocks) held.old held.new }
{
    held.book.refund(uid, gid, files, blocks);
}

/// Takes back what was charged, in the book of a slot, if it has one.
fn refund_slot(held: &mut Option<SlotFiles>, uid: u32, gid: u32, files: u64, blocks: u64)
    requires { HasAll uid gid files blocks (used (book_in held.old)) }
    ensures { ChangesSlot (ChangesBook (Refunds uid gid files blocks)) held.old held.new }
{
    if let Some(held) = held {
        refund_files(held, uid, gid, files, blocks);
    }
}

/// Takes back what was charged, in the book of the fileset in a slot.
fn refund_book(
    memory: &mut DomainMemory,
    number: FilesetNo,
    uid: u32,
    gid: u32,
    files: u64,
    blocks: u64,
)
    requires within { number < length memory.old.slots.items }
    requires enough { HasAll uid gid files blocks (used (staged_books memory.old number)) }
    ensures { ChangesInBook number (Refunds uid gid files blocks) memory.old memory.new }
{
    refund_slot(
        &mut memory.slots[number.number() as usize],
        uid,
        gid,
        files,
        blocks,
    );
}

/// Subtracts files and blocks of 512 bytes from what a user, a group and the whole fileset in a
/// slot, an original, use. Each of them uses that much. The domain is what it was, and no other
/// book changes. It takes no memory.
pub fn refund(
    memory: &mut DomainMemory,
    number: FilesetNo,
    uid: u32,
    gid: u32,
    files: u64,
    blocks: u64,
)
    requires stands { ∥ IsStagedForSome memory.old ∥₁ }
    requires back { ∥ MayGoBack memory.old ∥₁ }
    requires original { of_original (slice_get memory.old.table.slots number) ≡ true }
    requires enough { ∥ HasAll uid gid files blocks (used (staged_books memory.old number)) ∥₁ }
    ensures refunds { ChangesOneBook number (Refunds uid gid files blocks) memory.old memory.new }
    ensures domain { staged_in memory.new ≡ staged_in memory.old }
    ensures staged { (all : FilesetMap) → IsStaged memory.old all → IsStaged memory.new all }
    ensures kept { KeepsKept memory.old memory.new }
    ensures back { ∥ MayGoBack memory.new ∥₁ }
    ensures same { memory.new ≡ record memory.old { slots = memory.new.slots } }
{
    refund_book(memory, number, uid, gid, files, blocks);
}

/// The book of what is in a slot that is not empty.
fn book_of(slots: &[Option<SlotFiles>], number: FilesetNo) -> &QuotaBook
    requires { IsSome (slot_in slots.now number) }
    ensures { book_in (slot_in slots.now number) ≡ result.now.book }
{
    let Some(held) = &slots[number.number() as usize] else {
        unreachable!()
    };
    &held.book
}

/// The refusal of `files` more files and `blocks` more blocks by the limits in a book: those of the
/// user, of the group and of the whole fileset, in this order.
fn refused_by(book: &QuotaBook, uid: u32, gid: u32, files: u64, blocks: u64) -> Option<Refusal>
    ensures { result ≡ first_refusal
        (refusal_in book.now.book (owner.User uid) files blocks
        ∷ refusal_in book.now.book (owner.Group gid) files blocks
        ∷ refusal_in book.now.book owner.Fileset files blocks ∷ []) }
{
    let user = book.ask(Owner::User(uid), files, blocks);
    if user.is_some() {
        return user;
    }
    let group = book.ask(Owner::Group(gid), files, blocks);
    if group.is_some() {
        return group;
    }
    book.ask(Owner::Fileset, files, blocks)
}

/// The refusal of `files` more files and `blocks` more blocks by the limits of a user, of a group
/// and of the whole fileset in a slot, an original: the first of them that refuses. None if and
/// only if none of them refuses.
pub fn ask_quota(
    memory: &DomainMemory,
    number: FilesetNo,
    uid: u32,
    gid: u32,
    files: u64,
    blocks: u64,
) -> Option<Refusal>
    requires stands { ∥ IsStagedForSome memory.now ∥₁ }
    requires original { of_original (slice_get memory.now.table.slots number) ≡ true }
    ensures asked { (all : FilesetMap) (entry : FilesetEntry) (fileset : FilesetSlot)
        → item_in (staged_in memory.now) number ≡ Some (slot.Original entry)
        → get all entry.name ≡ Some fileset
        → AreBooksOf (staged_books memory.now) (staged_in memory.now) all
        → result ≡ quota_refusal fileset.tree uid gid files blocks }
    ensures refused { result ≡ first_refusal
        (refusal_in (staged_books memory.now number) (owner.User uid) files blocks
        ∷ refusal_in (staged_books memory.now number) (owner.Group gid) files blocks
        ∷ refusal_in (staged_books memory.now number) owner.Fileset files blocks ∷ []) }
{
    let book = book_of(&memory.slots, number);
    refused_by(book, uid, gid, files, blocks)
}

/// What an owner uses of the fileset in a slot, an original, with the owner's limits. A limit of 0
/// is no limit.
pub fn used_by(memory: &DomainMemory, number: FilesetNo, who: Owner) -> (Usage, Limits)
    requires stands { ∥ IsStagedForSome memory.now ∥₁ }
    requires original { of_original (slice_get memory.now.table.slots number) ≡ true }
    ensures usage { result.0 ≡ used (staged_books memory.now number) who }
    ensures limits { result.1 ≡ limits_in (staged_books memory.now number) who }
{
    let book = book_of(&memory.slots, number);
    (book.usage(who), book.limits(who))
}
