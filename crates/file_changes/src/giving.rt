//! Giving a file a page that it does not have.
ghost use Rattle.std.specs.Prelude.{◌≡◌, ◌<◌, true, IfErr, IsSomeAnd, OnErr, OnOk, slice_get};
ghost use Rattle.domain_memory.specs.fileset_files.Files.{Chains};
ghost use Rattle.domain_memory.specs.fileset_files.Pages.{GetsNone, MayGrow};
ghost use Rattle.domain_memory.specs.fileset_files.Together.{AreTogether, HasTogether};
ghost use Rattle.domain_memory.specs.stored_set.Sets.{GetsPage};
ghost use Rattle.domain_memory.specs.fileset_model.Filesets.{FilesetMap};
ghost use Rattle.domain_memory.specs.fileset_values.Orders.{Path};
ghost use Rattle.domain_memory.specs.fileset_model.declared.fileset.FilesetSlot.{FilesetSlot};
ghost use Rattle.domain_memory.specs.fileset_table.declared.slot.FilesetEntry.{FilesetEntry};
ghost use Rattle.domain_memory.specs.domain_layout.CellRules.{of_original};
ghost use Rattle.domain_memory.specs.domain_standing.Standing.{HaveParents};
ghost use Rattle.set_standing.specs.Nodes.{with_page};
ghost use Rattle.domain_memory.specs.Kept.{KeepsKept};
ghost use Rattle.domain_memory.specs.Staged.{IsStagedForSome, MayGoBack, staged_books, staged_in};
ghost use Rattle.file_changes.specs.Reading.{KeepsOpen};
ghost use Rattle.file_changes.specs.Stages.{GivesNone, HasFile, IsFileIn, LacksPage, StandsChanged};

use crate::slots::files_in;
use domain_memory::limits::FILE_PAGES;
use domain_memory::{
    Bitfiles, DomainMemory, FilesetNo, FreeCells, FreeSpace, MetaPages, Page, StoreFault, Tag,
    Version, VolIx,
};
use std::alloc::Global;

/// Gives a file a page that it keeps and does not have, and puts these bytes there. At an Err
/// nothing but room and the count of misses has changed.
fn give_in<M: MetaPages>(
    alloc: Global,
    pages: &mut M,
    space: &mut FreeSpace,
    cells: &mut FreeCells,
    files: &Bitfiles,
    tag: Tag,
    page: u32,
    bytes: Page,
    prefer: VolIx,
    version: Version,
) -> Result<(), StoreFault>
    requires together { HasTogether files.now.fileset files.now.tags space.old cells.old
        (M.pages pages.old) }
    requires grows { (chains : Chains) → AreTogether files.now.fileset files.now.tags space.old
        cells.old (M.pages pages.old) chains → MayGrow tag page chains }
    requires small { page < FILE_PAGES }
    ensures ok { (chains : Chains) → AreTogether files.now.fileset files.now.tags space.old
        cells.old (M.pages pages.old) chains → OnOk result (IsSomeAnd (chains tag) (GetsPage
        files.now.fileset files.now.tags tag page bytes prefer version chains space.old space.new
        cells.old cells.new (M.pages pages.old) (M.pages pages.new))) }
    ensures none { (chains : Chains) → AreTogether files.now.fileset files.now.tags space.old
        cells.old (M.pages pages.old) chains → IfErr result (λ fault. IsSomeAnd (chains tag)
        (λ chain. GetsNone page chain space.old space.new cells.old fault)) }
    ensures cells { OnErr result (cells.new ≡ cells.old) }
    ensures pages { OnErr result (M.pages pages.new ≡ M.pages pages.old) }
    ensures before { M.before pages.new ≡ M.before pages.old }
{
    pages.reserve(alloc, 2)?;
    let home = files.give_page(alloc, pages, space, cells, tag, page, prefer, version)?;
    pages.put(home, bytes);
    Ok(())
}

/// Gives a file of the fileset in a slot, an original, a page that it keeps and does not have, and
/// puts these bytes there. It is a free page, looked for on the preferred volume first. NoPage is
/// returned only if no page is free, or if a cell is needed as well and only one page and no cell
/// is free. After an Err the change may be half made, and must be taken back; what was kept stays.
pub fn give_page(
    memory: &mut DomainMemory,
    alloc: Global,
    number: FilesetNo,
    tag: Tag,
    page: u32,
    bytes: Page,
    prefer: VolIx,
) -> Result<(), StoreFault>
    requires stands { ∥ IsStagedForSome memory.old ∥₁ }
    requires back { ∥ MayGoBack memory.old ∥₁ }
    requires original { of_original (slice_get memory.old.table.slots number) ≡ true }
    requires file { IsFileIn memory.old number tag }
    requires lacks { LacksPage memory.old number tag page }
    requires small { page < FILE_PAGES }
    ensures ok { (path : Path) (all : FilesetMap) (entry : FilesetEntry) (fileset : FilesetSlot)
        → HasFile memory.old number tag path all entry fileset → OnOk result
        (StandsChanged path (with_page page bytes) all entry fileset memory.new) }
    ensures parents { (path : Path) (all : FilesetMap) (entry : FilesetEntry)
        (fileset : FilesetSlot) → HasFile memory.old number tag path all entry fileset
        → HaveParents (staged_in memory.old) → OnOk result (HaveParents (staged_in memory.new)) }
    ensures open_still { (path : Path) (all : FilesetMap) (entry : FilesetEntry)
        (fileset : FilesetSlot) → HasFile memory.old number tag path all entry fileset
        → OnOk result (KeepsOpen number tag memory.old memory.new) }
    ensures table { memory.new.table ≡ memory.old.table }
    ensures counted { staged_books memory.new ≡ staged_books memory.old }
    ensures kept { KeepsKept memory.old memory.new }
    ensures back { ∥ MayGoBack memory.new ∥₁ }
    ensures cause { IfErr result (GivesNone memory.old number tag page) }
{
    let slot = files_in(&memory.slots, number);
    give_in(
        alloc,
        &mut memory.pages,
        &mut memory.space,
        &mut memory.cells,
        &slot.files,
        tag,
        page,
        bytes,
        prefer,
        memory.frame.version,
    )
}
