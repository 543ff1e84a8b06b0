//! The indexes that files and directories of a fileset name.
ghost use Rattle.std.specs.Prelude.{◌≡◌, ◌↔◌, ℕ, IfOk, IsTrue, List};
ghost use Rattle.index_row_faults.specs.metadata_cells.Chain.{LinksFrom, PlacedCell};
ghost use Rattle.index_row_faults.specs.fileset_table.Table.{Table};
ghost use Rattle.index_row_faults.specs.domain_layout.Reached.{Frame};
ghost use Rattle.index_row_faults.specs.filesets_reading.Chains.{HasLinks};
ghost use Rattle.index_row_faults.specs.There.{AreIndexesIn};
ghost use Rattle.index_row_faults.specs.directory_faults.There.{AreFilesIn};
ghost use Rattle.slot_files.specs.Files.{IsWhole};
ghost use Rattle.slot_files.specs.Indexes.{AreWhole, MayHaveIndex, ReadsIndex, said_of};

use crate::records::first_record;
use index_row_faults::{
    CellAt, FileThere, Home, IndexThere, Kind, MetaPages, OutOfMemory, Record, VolIx, look_at_chain,
};
use std::alloc::Global;

/// Where an index begins, and how many entries its record says.
#[derive(Clone, Copy)]
struct SaidIndex {
    first: Home,
    total: u32,
}

/// The index that the first cell of a file names, if it names one.
fn index_said<M: MetaPages>(pages: &M, at: &CellAt) -> Option<SaidIndex>
    requires { HasLinks (M.pages pages.now) at.now }
    ensures { (cells : List PlacedCell) → LinksFrom (M.pages pages.now) at.now cells
        → result ≡ said_of cells }
{
    match first_record(pages, at, 9)? {
        Record::DirIndex { vol, page, entries } => Some(SaidIndex {
            first: Home {
                vol: VolIx::new(vol)?,
                page,
            },
            total: entries,
        }),
        _ => None,
    }
}

/// Whether a file or directory may have an index: whether it is a directory of more than one page.
fn may_have_index(file: &FileThere) -> bool
    ensures { IsTrue result ↔ MayHaveIndex file.now }
{
    matches!(file.seen.is.kind, Kind::Directory) && file.has_second_page
}

/// The index of a file or directory, if it names one.
fn read_index<M: MetaPages>(
    alloc: Global,
    pages: &M,
    file: &FileThere,
) -> Result<Option<IndexThere>, OutOfMemory>
    requires { IsWhole (M.pages pages.now) file.now.at }
    ensures { IfOk result (ReadsIndex (M.pages pages.now) file.now) }
{
    look_at_chain(alloc, pages, file.at)?;
    let Some(said) = index_said(pages, &file.at) else {
        return Ok(None);
    };
    Ok(Some(IndexThere {
        tag: file.tag,
        first: said.first,
        total: said.total,
        may_be: may_have_index(file),
    }))
}

/// All indexes of the files and directories that were read of the fileset in a slot.
pub fn read_slot_indexes<M: MetaPages>(
    alloc: Global,
    pages: &M,
    files: &[FileThere],
) -> Result<Vec<IndexThere>, OutOfMemory>
    requires { AreWhole (M.pages pages.now) files.now }
    ensures { IfOk result (λ indexes. (frame : Frame) (table : Table) (number : ℕ)
        → AreFilesIn (M.pages pages.now) frame table number files.now
        → AreIndexesIn (M.pages pages.now) table number indexes.items) }
{
    let mut indexes = Vec::new(alloc);
    for file in files {
        if let Some(index) = read_index(alloc, pages, file)? {
            indexes.push(index)?;
        }
    }
    Ok(indexes)
}
