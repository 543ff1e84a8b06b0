//! The whole list of faults.
ghost use Rattle.std.specs.Prelude.{◌≡◌, ◌↔◌, ◌∷◌, [], IfOk, IsTrue};
ghost use Rattle.slot_files.specs.domain_base.Version.{number_of};
ghost use Rattle.slot_files.specs.domain_base.declared.version.Version.{Version};
ghost use Rattle.slot_files.specs.domain_layout.Faults.{AreFaults, IsFault};
ghost use Rattle.slot_files.specs.filesets_reading.Good.{frame_at};
ghost use Rattle.slot_files.specs.page_ways.Frame.{frame_in};
ghost use Rattle.slot_files.specs.cell_faults.Read.{IsWholeTable};
ghost use Rattle.domain_faults.specs.Rows.{AreRowsOf, rows_there};

use crate::files::files_rows;
use crate::rows::{FaultRow, Rule};
use crate::tables::tables_rows;
use slot_files::{
    Anchor, DomainFrame, FilesetTable, Home, MetaPages, OutOfMemory, TableRead, Version, read_table,
};
use std::alloc::Global;

/// The row of the page of the fileset table.
fn table_row(alloc: Global, home: Home) -> Result<Vec<FaultRow>, OutOfMemory>
    ensures { IfOk result (λ rows. rows_there rows.items ≡ record {
      code = 4;
      home = home;
    } ∷ []) }
{
    let mut rows = Vec::new(alloc);
    rows.push(FaultRow {
        rule: Rule::Table,
        home,
    })?;
    Ok(rows)
}

/// Whether there is no row.
fn is_none(rows: &[FaultRow]) -> bool
    ensures { IsTrue result ↔ (rows_there rows.now ≡ []) }
{
    rows.is_empty()
}

/// The faults, if the page of the fileset table says this table.
fn rows_behind<M: MetaPages>(
    alloc: Global,
    pages: &M,
    frame: &DomainFrame,
    table: &FilesetTable,
) -> Result<Vec<FaultRow>, OutOfMemory>
    requires version { frame.now.anchor.version ≡ number_of frame.now.version }
    requires whole { IsWholeTable (M.pages pages.now) (frame_in frame.now) table.now }
    ensures { IfOk result (λ rows. AreRowsOf (IsFault (M.pages pages.now) (frame_in frame.now))
        (rows_there rows.items)) }
{
    let rows = tables_rows(alloc, pages, frame, table)?;
    if !is_none(&rows) {
        return Ok(rows);
    }
    files_rows(alloc, pages, frame)
}

/// The faults of a domain's pages, for an anchor that says this version.
fn faults_in<M: MetaPages>(
    alloc: Global,
    pages: &M,
    frame: &DomainFrame,
) -> Result<Vec<FaultRow>, OutOfMemory>
    requires { frame.now.anchor.version ≡ number_of frame.now.version }
    ensures { IfOk result (λ rows. AreFaults (M.pages pages.now) (frame_in frame.now)
        (rows_there rows.items)) }
{
    match read_table(alloc, pages, frame)? {
        TableRead::Unnamed => Ok(Vec::new(alloc)),
        TableRead::Wrong { home } => table_row(alloc, home),
        TableRead::There { table } => rows_behind(alloc, pages, frame, &table),
    }
}

/// The faults of a domain's pages, each once and in the order of their codes, volumes and pages. A
/// fault of the fileset table stands alone, and faults of cells and tags stand without those of
/// later rules.
///
/// The pages are those of the domain once its log is redone, each page of each member. Nothing is
/// told of a page of a bitmap that is not there, and a page of a directory that is not there has no
/// rows. An anchor that says a version other than 3 and 4, or names no fileset table, has no faults
/// here: `recover` returns no such anchor.
pub fn faults<M: MetaPages>(
    alloc: Global,
    pages: &M,
    anchor: &Anchor,
) -> Result<Vec<FaultRow>, OutOfMemory>
    ensures faults { (version : Version) → anchor.now.version ≡ number_of version
        → IfOk result (λ rows. AreFaults (M.pages pages.now) (frame_at anchor.now version)
        (rows_there rows.items)) }
    ensures unknown { ((version : Version) → ¬ anchor.now.version ≡ number_of version)
        → IfOk result (λ rows. rows_there rows.items ≡ []) }
{
    let Some(version) = Version::from_number(anchor.version) else {
        return Ok(Vec::new(alloc));
    };
    let frame = DomainFrame {
        anchor: *anchor,
        version,
    };
    faults_in(alloc, pages, &frame)
}
