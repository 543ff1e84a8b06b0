//! All pages of a domain that belong to something.
ghost use Rattle.std.specs.Prelude.{IfOk};
ghost use Rattle.tag_faults.specs.page_ways.Frame.{frame_in};
ghost use Rattle.tag_faults.specs.cell_chains.Runs.{AreApart};
ghost use Rattle.page_faults.specs.Files.{AreFilePages, AreGoodCells};
ghost use Rattle.page_faults.specs.Owned.{AreOfTables};

use crate::homes::table_homes;
use std::alloc::Global;
use tag_faults::{
    DomainFrame, FileRun, FilesetTable, Home, MetaPages, OutOfMemory, read_links, read_runs,
    read_tables,
};

/// The pages of tables, tag directories and indexes by their homes, and those of files as the runs
/// that cells in use say.
#[derive(Drop)]
pub(crate) struct PageOwners {
    pub homes: Vec<Home>,
    pub runs: Vec<FileRun>,
}

/// Reads the pages that belong to something. If no rule of cells is broken, these are all pages of
/// files, each once.
pub(crate) fn read_owners<M: MetaPages>(
    alloc: Global,
    pages: &M,
    frame: &DomainFrame,
    table: &FilesetTable,
) -> Result<PageOwners, OutOfMemory>
    ensures tables { IfOk result (λ owners. AreOfTables (M.pages pages.now) (frame_in frame.now)
        table.now owners.homes.items) }
    ensures files { IfOk result (λ owners. AreGoodCells (M.pages pages.now) (frame_in frame.now)
        table.now → AreFilePages (M.pages pages.now) (frame_in frame.now) owners.runs.items) }
    ensures apart { IfOk result (λ owners. AreGoodCells (M.pages pages.now) (frame_in frame.now)
        table.now → AreApart owners.runs.items) }
{
    let tables = read_tables(alloc, pages, frame)?;
    let links = read_links(alloc, pages, frame, &tables)?;
    let homes = table_homes(alloc, pages, frame, table, &tables, &links)?;
    let runs = read_runs(alloc, pages, &links)?;
    Ok(PageOwners { homes, runs })
}
