//! The page of the fileset table.
ghost use Rattle.std.specs.Prelude.{◌≡◌, ◌↔◌, IfNone, IfOk, IfSome, Some};
ghost use Rattle.page_ways.specs.domain_base.declared.place.Home.{Home};
ghost use Rattle.page_ways.specs.fileset_table.Table.{Table};
ghost use Rattle.page_ways.specs.domain_layout.Faults.{IsTableFault};
ghost use Rattle.page_ways.specs.Frame.{frame_in};
ghost use Rattle.cell_faults.specs.Read.{IsTableRead, SaysThere};

use page_ways::{DomainFrame, FilesetTable, Home, MetaPages, OutOfMemory, TableFault};
use std::alloc::Global;

/// What the anchor that counts leads to.
#[derive(Drop)]
pub enum TableRead {
    /// It names no page of the fileset table.
    Unnamed,
    /// The page at this home breaks the rule: it is one of label, anchors, bitmap or log, it is not
    /// there, or it says no table.
    Wrong { home: Home },
    /// The page may be a table's, and says this table.
    There { table: FilesetTable },
}

impl TableRead {
    ghost use Rattle.cell_faults.specs.Read.{wrong_home_of};

    /// The page that breaks the rule of the fileset table, if it does.
    pub fn wrong_home(&self) -> Option<Home>
        ensures { result ≡ wrong_home_of self.now }
    {
        match self {
            TableRead::Wrong { home } => Some(*home),
            TableRead::Unnamed | TableRead::There { .. } => None,
        }
    }
}

/// The table that the page at a home says. None if and only if no page is there, or it says no
/// table.
fn table_on<M: MetaPages>(
    alloc: Global,
    pages: &M,
    home: &Home,
) -> Result<Option<FilesetTable>, OutOfMemory>
    ensures some { IfOk result (λ read. IfSome read (SaysThere (M.pages pages.now) home.now)) }
    ensures none { IfOk result (λ read. IfNone read
        ((table : Table) → ¬ SaysThere (M.pages pages.now) home.now table)) }
{
    let Some(page) = pages.get(*home) else {
        return Ok(None);
    };
    match FilesetTable::read(alloc, page) {
        Ok(table) => Ok(Some(table)),
        Err(TableFault::Bad) => Ok(None),
        Err(TableFault::OutOfMemory) => Err(OutOfMemory),
    }
}

/// Reads the fileset table to which the anchor that counts leads. Fails only if memory runs out.
pub fn read_table<M: MetaPages>(
    alloc: Global,
    pages: &M,
    frame: &DomainFrame,
) -> Result<TableRead, OutOfMemory>
    ensures { IfOk result (IsTableRead (M.pages pages.now) (frame_in frame.now)) }
{
    let Some(home) = frame.anchor.table else {
        return Ok(TableRead::Unnamed);
    };
    if frame.is_reserved(&home) {
        return Ok(TableRead::Wrong { home });
    }
    Ok(match table_on(alloc, pages, &home)? {
        Some(table) => TableRead::There { table },
        None => TableRead::Wrong { home },
    })
}

/// The page at which the rule of the fileset table is broken: the one that the anchor that counts
/// names, if it is one of label, anchors, bitmap or log, is not there, or says no table. None if
/// the page says a table and may do so, or if the anchor names no page.
pub fn table_fault<M: MetaPages>(
    alloc: Global,
    pages: &M,
    frame: &DomainFrame,
) -> Result<Option<Home>, OutOfMemory>
    ensures { IfOk result (λ fault. (home : Home) → (fault ≡ Some home)
        ↔ IsTableFault (M.pages pages.now) (frame_in frame.now) home) }
{
    let read = read_table(alloc, pages, frame)?;
    Ok(read.wrong_home())
}
