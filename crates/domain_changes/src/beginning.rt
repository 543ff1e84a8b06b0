//! Beginning a fileset.
ghost use Rattle.std.specs.Prelude.{◌≡◌, ◌<◌, true, false, None, Some, IfErr, OnOk, count_by, length, slice_get, slice_set};
ghost use Rattle.std.specs.FinMap.{insert};
ghost use Rattle.std.specs.List.{list_any};
ghost use Rattle.domain_memory.specs.file_chains.Allocated.{FindsNone};
ghost use Rattle.domain_memory.specs.fileset_files.Creation.{IsNewDirectory};
ghost use Rattle.domain_memory.specs.fileset_files.Together.{HasTogether};
ghost use Rattle.domain_memory.specs.fileset_model.Filesets.{FilesetMap};
ghost use Rattle.domain_memory.specs.fileset_table.Table.{has_name, is_fileset};
ghost use Rattle.domain_memory.specs.fileset_table.declared.slot.SlotItem.TheVariants as slot;
ghost use Rattle.domain_memory.specs.word_forms.Forms.{is_fileset_name};
ghost use Rattle.domain_memory.specs.staged_pages.Store.{pages_of};
ghost use Rattle.domain_memory.specs.quota_book.Book.{empty_book};
ghost use Rattle.domain_memory.specs.domain_standing.Standing.{AreBooksOf, HaveParents};
ghost use Rattle.domain_memory.specs.standing_laws.NewFileset.{empty_slot};
ghost use Rattle.domain_memory.specs.Staged.{IsStaged, IsStagedForSome, MayGoBack, staged_books, staged_in};
ghost use Rattle.domain_changes.specs.Beginning.{BeginsNone, MakesRoot, new_entry as entry_of_new};
ghost use Rattle.domain_memory.specs.Kept.{KeepsKept};

use crate::table::put_in_table;
use crate::tags::begin_tags;
use domain_memory::{
    Bitfiles, DomainMemory, FilesetEntry, FilesetName, FilesetNo, Home, QuotaBook, SlotFiles,
    SlotItem, StoreFault, VolIx,
};
use std::alloc::Global;

/// The entry of a new fileset in the table: no limits, and no quota cell.
fn new_entry(name: FilesetName, first_tag: Home) -> FilesetEntry
    ensures { result ≡ entry_of_new name first_tag }
{
    FilesetEntry {
        name,
        first_tag,
        files_limit: 0,
        blocks_limit: 0,
        quota: None,
    }
}

/// Makes the root of a fileset whose tags were never used, born at the number of clones that were
/// made. NoPage and OutOfMemory are returned as by `create_root`.
fn make_root(
    memory: &mut DomainMemory,
    alloc: Global,
    files: &mut Bitfiles,
    prefer: VolIx,
) -> Result<(), StoreFault>
    requires together { HasTogether files.old.fileset files.old.tags memory.old.space
        memory.old.cells (pages_of memory.old.pages) }
    requires fresh { IsNewDirectory (pages_of memory.old.pages) files.old.tags }
    ensures ok { OnOk result (MakesRoot files.old.fileset files.old.tags prefer memory.old
        memory.new) }
    ensures files { files.new ≡ files.old }
    ensures kept { KeepsKept memory.old memory.new }
    ensures same { memory.new ≡ record memory.old {
      pages = memory.new.pages;
      space = memory.new.space;
      cells = memory.new.cells;
    } }
    ensures cause { IfErr result (FindsNone memory.old.space memory.new.space memory.old.cells) }
{
    let born = memory.table.made();
    files.create_root(
        alloc,
        &mut memory.pages,
        &mut memory.space,
        &mut memory.cells,
        born,
        memory.frame.version,
        prefer,
    )
}

/// Puts files with an empty book into a slot. Their tag directory had no page before the change.
fn put_files(memory: &mut DomainMemory, alloc: Global, number: FilesetNo, files: Bitfiles)
    requires within { number < length memory.old.slots.items }
    ensures slots { memory.new.slots.items ≡ slice_set memory.old.slots.items number
        (Some (record {
          files = files;
          book = record { book = empty_book; kept = empty_book };
          tag_pages = 0;
        })) }
    ensures same { memory.new ≡ record memory.old { slots = memory.new.slots } }
{
    memory.slots[number.number() as usize] = Some(SlotFiles {
        files,
        book: QuotaBook::new(alloc),
        tag_pages: 0,
    });
}

/// Begins a fileset of this name in a free slot: it has only an empty root of user 0 and group 0,
/// and no limits. Pages are taken from the preferred volume if it has free ones. NoPage is returned
/// only if a page is needed for its tags or for its root's cell, and none is free. After an Err the
/// change may be half made, and must be taken back.
pub fn begin_fileset(
    memory: &mut DomainMemory,
    alloc: Global,
    number: FilesetNo,
    name: FilesetName,
    prefer: VolIx,
) -> Result<(), StoreFault>
    requires stands { ∥ IsStagedForSome memory.old ∥₁ }
    requires back { ∥ MayGoBack memory.old ∥₁ }
    requires fresh { memory.old.was ≡ None }
    requires free { slice_get memory.old.table.slots number ≡ Some slot.Free }
    requires named { is_fileset_name name ≡ true }
    requires unused { list_any (has_name name) memory.old.table.slots ≡ false }
    requires few { count_by is_fileset memory.old.table.slots < 16 }
    ensures staged { (all : FilesetMap) → IsStaged memory.old all
        → OnOk result (IsStaged memory.new (insert all name empty_slot)) }
    ensures parents { (all : FilesetMap) → IsStaged memory.old all
        → HaveParents (staged_in memory.old)
        → OnOk result (HaveParents (staged_in memory.new)) }
    ensures books { (all : FilesetMap) → IsStaged memory.old all
        → AreBooksOf (staged_books memory.old) (staged_in memory.old) all → OnOk result
        (AreBooksOf (staged_books memory.new) (staged_in memory.new)
        (insert all name empty_slot)) }
    ensures kept { KeepsKept memory.old memory.new }
    ensures back { ∥ MayGoBack memory.new ∥₁ }
    ensures cause { IfErr result (BeginsNone memory.old.space memory.old.cells) }
{
    let mut begun = begin_tags(memory, alloc, number, prefer)?;
    let entry = new_entry(name, begun.home);
    put_in_table(memory, alloc, number, SlotItem::Original { entry })?;
    make_root(memory, alloc, &mut begun.files, prefer)?;
    put_files(memory, alloc, number, begun.files);
    Ok(())
}
