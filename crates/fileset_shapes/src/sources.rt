//! The file through which a clone's file is read, and the homes of both together.
ghost use Rattle.std.specs.Prelude.{◌≡◌, ◌≤◌, ℕ, IfOk, IfSome, List, length};
ghost use Rattle.filesets_reading.specs.domain_base.Limits.{file_pages};
ghost use Rattle.filesets_reading.specs.metadata_cells.Chain.{PlacedCell};
ghost use Rattle.filesets_reading.specs.file_chains.Files.{HasFile, IsFile};
ghost use Rattle.filesets_reading.specs.fileset_files.Files.{first_record as first_there};
ghost use Rattle.filesets_reading.specs.file_release.Reading.{own_or as own_or_there, read_home as read_there};
ghost use Rattle.filesets_reading.specs.extent_maps.Runs.{place_of};
ghost use Rattle.filesets_reading.specs.domain_layout.Seen.{IsSource, frozen_in as frozen_there, frozen_of, source_in as source_there, source_of};
ghost use Rattle.filesets_reading.specs.Seen.{home_in};
ghost use Rattle.fileset_shapes.specs.Clones.{HasVolume, MayBeSource};

use filesets_reading::{
    CellAt, ExtentMap, Home, MetaPages, OutOfMemory, PagePlace, Record, VolIx, end_of, find_record,
    look_at_chain, read_file_map,
};
use std::alloc::Global;

/// The record of a kind in the first cell of a file.
pub(crate) fn first_record<M: MetaPages>(pages: &M, at: &CellAt, kind: u8) -> Option<Record>
    ensures { (cells : List PlacedCell) → IsFile (M.pages pages.now) at.now cells
        → result ≡ first_there kind cells }
{
    find_record(pages, *at, kind)
}

/// The first cell of the file through which one is read, by a record of a clone's file.
fn source_in(value: &Record) -> Option<CellAt>
    requires { HasVolume value.now }
    ensures { result ≡ source_there value.now }
{
    match value {
        Record::CloneFile {
            source_vol,
            source_cell,
            source_page,
            ..
        } => Some(CellAt {
            vol: VolIx::new(u32::from(*source_vol))?,
            page: *source_page,
            cell: *source_cell,
        }),
        _ => None,
    }
}

/// How many pages the file had when it was cloned, by a record of a clone's file.
fn frozen_in(value: &Record) -> u32
    ensures { result ≡ frozen_there value.now }
{
    match value {
        Record::CloneFile { frozen, .. } => *frozen,
        _ => 0,
    }
}

/// The first cell of the file through which a clone's file is read, if it still is.
pub(crate) fn source_at<M: MetaPages>(pages: &M, at: &CellAt) -> Option<CellAt>
    requires { HasFile (M.pages pages.now) at.now }
    ensures { (cells : List PlacedCell) → IsFile (M.pages pages.now) at.now cells
        → result ≡ source_of cells }
{
    source_in(&first_record(pages, at, 2)?)
}

/// How many pages the source of a clone's file had when the clone was made.
pub(crate) fn frozen_at<M: MetaPages>(pages: &M, at: &CellAt) -> u32
    ensures { (cells : List PlacedCell) → IsFile (M.pages pages.now) at.now cells
        → result ≡ frozen_of cells }
{
    match first_record(pages, at, 2) {
        Some(value) => frozen_in(&value),
        None => 0,
    }
}

/// Where the source has its pages, no matter how many it keeps.
pub(crate) fn read_source<M: MetaPages>(
    alloc: Global,
    pages: &M,
    source: &Option<CellAt>,
) -> Result<ExtentMap, OutOfMemory>
    requires { IfSome source.now (MayBeSource (M.pages pages.now)) }
    ensures { IfOk result (λ map. IsSource (M.pages pages.now) source.now (place_of map)) }
{
    match source {
        Some(at) => {
            look_at_chain(alloc, pages, *at)?;
            read_file_map(alloc, pages, *at)
        }
        None => Ok(ExtentMap::new(alloc)),
    }
}

/// The home of a place, or another home if the page is absent.
fn own_or(own: PagePlace, other: Option<Home>) -> Option<Home>
    ensures { result ≡ own_or_there own other }
{
    match own {
        PagePlace::At(home) => Some(home),
        PagePlace::Hole => None,
        PagePlace::Absent => other,
    }
}

/// The home at which a page is read, by where it stands and where the source has it.
fn read_home(page: u32, frozen: u32, own: &ExtentMap, source: &ExtentMap) -> Option<Home>
    ensures { result ≡ read_there frozen (place_of own.now) (place_of source.now) page }
{
    let behind = if page < frozen {
        source.home_of(page).home()
    } else {
        None
    };
    own_or(own.home_of(page), behind)
}

/// The home at which each page is read.
pub(crate) fn read_homes(
    alloc: Global,
    frozen: u32,
    own: &ExtentMap,
    source: &ExtentMap,
) -> Result<Vec<Option<Home>>, OutOfMemory>
    ensures homes { IfOk result (λ homes. (page : ℕ) → home_in homes.items page
        ≡ read_there frozen (place_of own.now) (place_of source.now) page) }
    ensures few { IfOk result (λ homes. length homes.items ≤ file_pages) }
{
    let end = end_of(own.runs()).max(end_of(source.runs()));
    let mut homes = Vec::new(alloc);
    for page in 0..end {
        homes.push(read_home(page, frozen, own, source))?;
    }
    Ok(homes)
}
