//! A clone's file that reads through another one.
ghost use Rattle.std.specs.Prelude.{◌≡◌, ℕ, IfOk, List};
ghost use Rattle.fileset_files.specs.metadata_cells.Chain.{PlacedCell};
ghost use Rattle.fileset_files.specs.extent_maps.Runs.{place_of};
ghost use Rattle.fileset_files.specs.file_chains.Files.{places_of};
ghost use Rattle.file_release.specs.Sharing.{IsReader, frozen_of};

use fileset_files::{CellAt, ExtentMap, MetaPages, OutOfMemory, read_file_map};
use std::alloc::Global;

/// A clone's file that reads through another one: its first cell, and how many pages the other had
/// when it was cloned.
#[derive(Clone, Copy, Debug, PartialEq, Eq)]
pub struct Reader {
    pub at: CellAt,
    pub frozen: u32,
}

/// Where the file that begins at a cell has its own pages, as its cells say.
#[derive(Drop)]
pub struct OwnPages {
    pub at: CellAt,
    pub map: ExtentMap,
}

/// How many pages were frozen for a reader: 0 if there is none.
pub(crate) fn frozen_pages(reader: &Option<Reader>) -> u32
    ensures { result ≡ frozen_of reader.now }
{
    match reader {
        Some(reader) => reader.frozen,
        None => 0,
    }
}

/// Where a reader's own pages stand: a map without pages if there is no reader.
pub(crate) fn reader_map<M: MetaPages>(
    alloc: Global,
    pages: &M,
    reader: &Option<Reader>,
) -> Result<ExtentMap, OutOfMemory>
    requires { (own : List PlacedCell) × IsReader (M.pages pages.now) reader.now own }
    ensures { (own : List PlacedCell) → IsReader (M.pages pages.now) reader.now own
        → IfOk result (λ map. (page : ℕ) → place_of map page ≡ places_of own page) }
{
    match reader {
        Some(reader) => read_file_map(alloc, pages, reader.at),
        None => Ok(ExtentMap::new(alloc)),
    }
}
