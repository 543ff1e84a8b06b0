//! The pages of the index of a directory.
ghost use Rattle.std.specs.Prelude.{◌≡◌, List, IfOk, IfSome, Some};
ghost use Rattle.filesets_reading.specs.metadata_cells.Chain.{PlacedCell};
ghost use Rattle.filesets_reading.specs.file_chains.Files.{HasFile, IsFile};
ghost use Rattle.filesets_reading.specs.fileset_files.Shown.{AreIndexPages, index_in as index_there, index_of};
ghost use Rattle.fileset_shapes.specs.Found.{index_shown};
ghost use Rattle.fileset_shapes.specs.Indexes.{HasIndexVolume, IsWholeIndex};

use filesets_reading::{CellAt, Home, MetaPages, OutOfMemory, Record, VolIx, find_record};
use page_ways::{IndexWay, PageWay};
use std::alloc::Global;

/// The home of the first page of an index, by the record of it.
fn index_in(value: &Record) -> Option<Home>
    requires { HasIndexVolume value.now }
    ensures { result ≡ index_there value.now }
{
    match value {
        Record::DirIndex { vol, page, .. } => Some(Home {
            vol: VolIx::new(*vol)?,
            page: *page,
        }),
        _ => None,
    }
}

/// The home of the first page of the index of the file whose first cell stands there, if it has one.
fn index_at<M: MetaPages>(pages: &M, at: &CellAt) -> Option<Home>
    requires { HasFile (M.pages pages.now) at.now }
    ensures { (cells : List PlacedCell) → IsFile (M.pages pages.now) at.now cells
        → result ≡ index_of cells }
{
    index_in(&find_record(pages, *at, 9)?)
}

/// The homes of the pages of an index from its first page on, in their order.
fn read_homes<M: MetaPages>(
    alloc: Global,
    pages: &M,
    first: &Home,
) -> Result<Vec<Home>, OutOfMemory>
    requires { IsWholeIndex (M.pages pages.now) first.now }
    ensures { IfOk result (λ homes. AreIndexPages (M.pages pages.now) (Some first.now)
        (index_shown (M.pages pages.now) homes.items)) }
{
    let way = IndexWay { first: *first };
    let mut homes = Vec::new(alloc);
    let mut home = *first;
    for _ in 0..u64::MAX {
        let at = home;
        let Some(page) = pages.get(at) else {
            unreachable!()
        };
        homes.push(at)?;
        let Some(next) = way.next(&at, page) else {
            return Ok(homes);
        };
        home = next;
    }
    Err(OutOfMemory)
}

/// The homes of the pages of the index of the file whose first cell stands there, in their order.
pub(crate) fn read_index<M: MetaPages>(
    alloc: Global,
    pages: &M,
    at: &CellAt,
) -> Result<Vec<Home>, OutOfMemory>
    requires file { HasFile (M.pages pages.now) at.now }
    requires whole { (cells : List PlacedCell) → IsFile (M.pages pages.now) at.now cells
        → IfSome (index_of cells) (IsWholeIndex (M.pages pages.now)) }
    ensures { (cells : List PlacedCell) → IsFile (M.pages pages.now) at.now cells
        → IfOk result (λ homes. AreIndexPages (M.pages pages.now) (index_of cells)
        (index_shown (M.pages pages.now) homes.items)) }
{
    match index_at(pages, at) {
        Some(first) => read_homes(alloc, pages, &first),
        None => Ok(Vec::new(alloc)),
    }
}
