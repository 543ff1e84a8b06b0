//! Rules of files' pages, bitmaps, directories and indexes.
ghost use Rattle.std.specs.Prelude.{IfOk};
ghost use Rattle.slot_files.specs.domain_layout.Faults.{HasNoTablesFault, IsFilesFault};
ghost use Rattle.slot_files.specs.filesets_reading.Good.{IsNamed};
ghost use Rattle.slot_files.specs.page_ways.Frame.{frame_in};
ghost use Rattle.domain_faults.specs.Rows.{AreRowsOf, rows_there};

use crate::directories::directory_faults;
use crate::indexes::faults_of_indexes;
use crate::rows::{FaultRow, Rule, push_rows};
use slot_files::from_filesets_reading::read_tables;
use slot_files::{DomainFrame, MetaPages, OutOfMemory, bitmap_faults, extent_faults};
use std::alloc::Global;

/// The faults of files' pages, bitmaps, directories and indexes, if no rule of tables is broken.
pub(crate) fn files_rows<M: MetaPages>(
    alloc: Global,
    pages: &M,
    frame: &DomainFrame,
) -> Result<Vec<FaultRow>, OutOfMemory>
    requires named { IsNamed frame.now.anchor frame.now.version }
    requires no_fault { HasNoTablesFault (M.pages pages.now) (frame_in frame.now) }
    ensures { IfOk result (λ rows. AreRowsOf (IsFilesFault (M.pages pages.now)
        (frame_in frame.now)) (rows_there rows.items)) }
{
    let tables = read_tables(alloc, pages, &frame.anchor, frame.version)?;
    let extents = extent_faults(alloc, pages, frame, &tables.filesets)?;
    let bitmaps = bitmap_faults(alloc, pages, frame, &tables.filesets)?;
    let directories = directory_faults(alloc, pages, frame, &tables)?;
    let indexes = faults_of_indexes(alloc, pages, frame, &tables)?;
    let mut rows = Vec::new(alloc);
    push_rows(Rule::Extents, &extents, &mut rows)?;
    push_rows(Rule::Bitmaps, &bitmaps, &mut rows)?;
    push_rows(Rule::Directories, &directories, &mut rows)?;
    push_rows(Rule::Indexes, &indexes, &mut rows)?;
    Ok(rows)
}
