//! The pages of a domain that was just made, before they are written.
ghost use Rattle.std.specs.Prelude.{◌≡◌, ◌∷◌, ◌<◌, ◌≤◌, [], IfOk, IsSomeAnd, OnOk};
ghost use Rattle.domain_layout.specs.domain_base.Version.{bitmap_pages, most_pages};
ghost use Rattle.domain_layout.specs.cell_records.declared.record.Record.TheVariants.{Volume};
ghost use Rattle.domain_layout.specs.disk_label.FirstPages.{first_pages};
ghost use Rattle.domain_layout.specs.metadata_cells.CellPage.{IsEmptyPage};
ghost use Rattle.domain_layout.specs.NewDomain.{IsNewCells, IsNewTablePage};
ghost use Rattle.domain_making.specs.Making.{new_frame};
ghost use Rattle.domain_making.specs.Pages.{AreNew, IsUsedTo};

use crate::anchor::first_volume;
use domain_layout::{
    Bitmap, CellAt, CellHead, CellKind, FilesetTable, FirstPages, Home, MemoryPages, MetaPages,
    OutOfMemory, Page, Record, RecordList, Version, empty_page, write_cell,
};
use std::alloc::Global;

/// The pages of a domain that was just made, except for those of label, anchors and log.
#[derive(Drop)]
pub struct NewPages {
    /// Which pages of the volume are used.
    pub(crate) bitmap: Bitmap,
    /// The first page of cells.
    pub(crate) cells: Page,
    /// The table of filesets.
    pub(crate) table: Page,
}

/// The bitmap of a volume of `pages` pages, with those up to page `last` used.
fn new_bitmap(alloc: Global, pages: u32, last: u32) -> Result<Bitmap, OutOfMemory>
    requires { last < pages }
    ensures { IfOk result (IsUsedTo pages last) }
{
    let mut bitmap = Bitmap::new(alloc, pages)?;
    for page in 0..last + 1 {
        bitmap.set(page);
    }
    Ok(bitmap)
}

/// The record that says the volume on which it stands, how many pages of it are used, and how many
/// its bitmap has.
fn volume_record(alloc: Global, version: Version, pages: u32) -> Result<RecordList, OutOfMemory>
    ensures { IfOk result (λ records. records
        ≡ Volume 1 pages (bitmap_pages version pages) ∷ []) }
{
    let record = Record::Volume {
        vol: first_volume().number(),
        pages,
        bitmap_pages: version.bitmap_pages(pages),
    };
    let mut records = Vec::new(alloc);
    records.push(record)?;
    Ok(RecordList::from_vec(records))
}

/// Puts a page of free cells at a home.
fn put_free_page<M: MetaPages>(alloc: Global, store: &mut M, home: &Home) -> Result<(), OutOfMemory>
    ensures { OnOk result (IsSomeAnd (M.pages store.new home.now) (IsEmptyPage 0)) }
{
    store.reserve(alloc, 1)?;
    store.put(*home, empty_page(alloc, 0)?);
    Ok(())
}

/// Writes the cell that says a volume to a page of free cells.
fn put_volume_cell<M: MetaPages>(
    store: &mut M,
    home: &Home,
    version: Version,
    pages: u32,
    records: &RecordList,
)
    requires free { IsSomeAnd (M.pages store.old home.now) (IsEmptyPage 0) }
    requires says { records.now ≡ Volume 1 pages (bitmap_pages version pages) ∷ [] }
    ensures { IsSomeAnd (M.pages store.new home.now) (IsNewCells (new_frame version pages)) }
{
    let head = CellHead {
        next: None,
        slot: 0,
        seq: 0,
        fileset: None,
        kind: CellKind::Volume,
    };
    let at = CellAt {
        vol: home.vol,
        page: home.page,
        cell: 0,
    };
    write_cell(store, at, &head, records);
}

/// The first page of cells of a volume of `pages` pages: its first cell says the volume, and all
/// others are free.
fn new_cells(alloc: Global, version: Version, pages: u32) -> Result<Page, OutOfMemory>
    requires { pages ≤ most_pages version }
    ensures { IfOk result (IsNewCells (new_frame version pages)) }
{
    let home = Home {
        vol: first_volume(),
        page: FirstPages::of(version, pages).cells,
    };
    let mut store = MemoryPages::new(alloc);
    put_free_page(alloc, &mut store, &home)?;
    let records = volume_record(alloc, version, pages)?;
    put_volume_cell(&mut store, &home, version, pages, &records);
    match store.get(home) {
        Some(page) => page.copy(alloc),
        None => unreachable!(),
    }
}

/// The page of a table without a fileset.
fn new_table(alloc: Global) -> Result<Page, OutOfMemory>
    ensures { IfOk result IsNewTablePage }
{
    let table = FilesetTable::new(alloc)?;
    let mut page = Page::zeros(alloc)?;
    table.write(&mut page);
    Ok(page)
}

impl NewPages {
    /// The pages of a domain that is made in this version on a volume with `pages` used pages.
    pub(crate) fn new(alloc: Global, version: Version, pages: u32) -> Result<NewPages, OutOfMemory>
        requires some { (first_pages version pages).table < pages }
        requires most { pages ≤ most_pages version }
        ensures { IfOk result (AreNew version pages) }
    {
        let last = FirstPages::of(version, pages).table;
        Ok(NewPages {
            bitmap: new_bitmap(alloc, pages, last)?,
            cells: new_cells(alloc, version, pages)?,
            table: new_table(alloc)?,
        })
    }
}
