//! The rows of a fileset's directories.
ghost use Rattle.std.specs.Prelude.{◌≡◌, ◌++◌, ◌<◌, ℕ, IfOk, OnOk, length};
ghost use Rattle.fileset_shapes.specs.directory_pages.RowPage.{IsDirPage, rows_of};
ghost use Rattle.fileset_shapes.specs.fileset_table.Table.{Table};
ghost use Rattle.fileset_shapes.specs.page_ways.Frame.{frame_in};
ghost use Rattle.directory_faults.specs.Rows.{Adds, AreRowsIn, IsRowAt, IsRowOf, IsRowOn, IsRowOnPages, rows_placed};
ghost use Rattle.directory_faults.specs.There.{AreFilesIn};

use crate::there::FileThere;
use fileset_shapes::{
    DomainFrame, Home, Kind, MetaPages, OutOfMemory, Page, Row, RowName, Rows, Tag, count_rows,
    is_row_page,
};
use std::alloc::Global;

/// Where a page of a directory stands: the directory, its number there, from 0, and its home.
#[derive(Clone, Copy, Debug, PartialEq, Eq)]
pub struct PageAt {
    pub dir: Tag,
    pub page: usize,
    pub home: Home,
}

/// A row: the page on which it stands, its place on that, from 0, and what it says.
#[derive(Drop)]
pub struct RowThere {
    pub at: PageAt,
    pub place: u32,
    pub row: Row,
}

/// Appends the rows of a page to others.
fn push_page_rows(
    alloc: Global,
    page: &Page,
    at: &PageAt,
    rows: &mut Vec<RowThere>,
) -> Result<(), OutOfMemory>
    requires { IsDirPage page.now }
    ensures { OnOk result (rows.new.items
        ≡ rows.old.items ++ rows_placed at.now 0 (rows_of page.now)) }
{
    let mut left = Rows::new(page);
    for place in 0..count_rows(page) {
        let Some(row) = left.next() else {
            unreachable!()
        };
        let name = RowName::copy_of(alloc, row.name)?;
        rows.push(RowThere {
            at: *at,
            place,
            row: Row {
                tag: row.tag,
                kind: row.kind,
                name,
            },
        })?;
    }
    Ok(())
}

/// Appends the rows of the page at a home to others, if it is a page of rows on its volume.
fn push_rows_at<M: MetaPages>(
    alloc: Global,
    pages: &M,
    frame: &DomainFrame,
    at: &PageAt,
    rows: &mut Vec<RowThere>,
) -> Result<(), OutOfMemory>
    ensures { OnOk result (Adds (IsRowAt (M.pages pages.now) (frame_in frame.now) at.now)
        rows.old.items rows.new.items) }
{
    if !frame.is_within(&at.home) {
        return Ok(());
    }
    let Some(page) = pages.get(at.home) else {
        return Ok(());
    };
    if is_row_page(page) {
        push_page_rows(alloc, page, at, rows)?;
    }
    Ok(())
}

/// Appends to others the rows of a directory's page with this number.
fn push_rows_on<M: MetaPages>(
    alloc: Global,
    pages: &M,
    frame: &DomainFrame,
    file: &FileThere,
    page: usize,
    rows: &mut Vec<RowThere>,
) -> Result<(), OutOfMemory>
    requires { page < length file.now.seen.homes.items }
    ensures { OnOk result (Adds (IsRowOn (M.pages pages.now) (frame_in frame.now) file.now page)
        rows.old.items rows.new.items) }
{
    match file.seen.homes[page] {
        Some(home) => {
            let at = PageAt {
                dir: file.tag,
                page,
                home,
            };
            push_rows_at(alloc, pages, frame, &at, rows)
        }
        None => Ok(()),
    }
}

/// Appends the rows of all pages of a directory to others.
fn push_dir_rows<M: MetaPages>(
    alloc: Global,
    pages: &M,
    frame: &DomainFrame,
    file: &FileThere,
    rows: &mut Vec<RowThere>,
) -> Result<(), OutOfMemory>
    ensures { OnOk result (Adds (IsRowOnPages (M.pages pages.now) (frame_in frame.now) file.now
        (length file.now.seen.homes.items)) rows.old.items rows.new.items) }
{
    for page in 0..file.seen.homes.len() {
        push_rows_on(alloc, pages, frame, file, page, rows)?;
    }
    Ok(())
}

/// Appends the rows of a file or directory to others. A file has no rows.
fn push_file_rows<M: MetaPages>(
    alloc: Global,
    pages: &M,
    frame: &DomainFrame,
    file: &FileThere,
    rows: &mut Vec<RowThere>,
) -> Result<(), OutOfMemory>
    ensures { OnOk result (Adds (IsRowOf (M.pages pages.now) (frame_in frame.now) file.now)
        rows.old.items rows.new.items) }
{
    match file.seen.is.kind {
        Kind::Directory => push_dir_rows(alloc, pages, frame, file, rows),
        Kind::File => Ok(()),
    }
}

/// The rows of the pages of rows of a fileset's directories, from its files and directories. The
/// rows of one directory stand in the order of their pages and places.
pub fn read_rows<M: MetaPages>(
    alloc: Global,
    pages: &M,
    frame: &DomainFrame,
    files: &[FileThere],
) -> Result<Vec<RowThere>, OutOfMemory>
    ensures { IfOk result (λ rows. (table : Table) (number : ℕ)
        → AreFilesIn (M.pages pages.now) (frame_in frame.now) table number files.now
        → AreRowsIn (M.pages pages.now) (frame_in frame.now) table number rows.items) }
{
    let mut rows = Vec::new(alloc);
    for file in files {
        push_file_rows(alloc, pages, frame, file, &mut rows)?;
    }
    Ok(rows)
}
