//! One record of a cell put in place of another, or taken away.
ghost use Rattle.std.specs.Prelude.{◌≡◌, ◌++◌, IfOk, IfSome, None, OnErr, OnOk, Some, false};
ghost use Rattle.free_cells.specs.domain_base.declared.place.Home.{Home as HomeOf};
ghost use Rattle.free_cells.specs.page_store.Pages.{same_home};
ghost use Rattle.free_cells.specs.cell_records.Records.{Allowed, kind_of};
ghost use Rattle.free_cells.specs.metadata_cells.Cell.{AreRecords, Cell, spellings};
ghost use Rattle.free_cells.specs.metadata_cells.CellPage.{KeepsHeaders, KeepsWellFormed, home_of as home_there};
ghost use Rattle.free_cells.specs.metadata_cells.Chain.{LeavesOthers, StandsAt, is_at};
ghost use Rattle.file_chains.specs.Changes.{HasRoom, HasRoomForTwo, IsInUse, above, below, with_kind, with_record, with_two};

use free_cells::{CellAt, MetaPages, OutOfMemory, Record, RecordList, read_used, write_cell};
use std::alloc::Global;

/// Appends the records of smaller kinds.
fn push_below(records: &[Record], kind: u8, found: &mut Vec<Record>) -> Result<(), OutOfMemory>
    ensures { OnOk result (found.new.items ≡ found.old.items ++ below kind records.now) }
{
    for value in records {
        if value.kind() < kind {
            found.push(*value)?;
        }
    }
    Ok(())
}

/// Appends the records of greater kinds.
fn push_above(records: &[Record], kind: u8, found: &mut Vec<Record>) -> Result<(), OutOfMemory>
    ensures { OnOk result (found.new.items ≡ found.old.items ++ above kind records.now) }
{
    for value in records {
        if kind < value.kind() {
            found.push(*value)?;
        }
    }
    Ok(())
}

/// The records with this one, or none, in place of those of a kind.
fn replaced(
    alloc: Global,
    records: &[Record],
    kind: u8,
    value: &Option<Record>,
) -> Result<RecordList, OutOfMemory>
    ensures { IfOk result (λ found. found ≡ with_kind kind value.now records.now) }
{
    let mut found = Vec::new(alloc);
    push_below(records, kind, &mut found)?;
    if let Some(value) = value {
        found.push(*value)?;
    }
    push_above(records, kind, &mut found)?;
    Ok(RecordList::from_vec(found))
}

/// The records with this one in place of those of its kind, or among them in its order.
pub fn put_among(
    alloc: Global,
    records: &[Record],
    value: &Record,
) -> Result<RecordList, OutOfMemory>
    ensures { IfOk result (λ found. found ≡ with_kind (kind_of value.now) (Some value.now)
        records.now) }
{
    replaced(alloc, records, value.kind(), &Some(*value))
}

/// Puts a record, or none, in place of those of a kind in the cell in use that stands there. After
/// an error nothing has changed.
fn change_record<M: MetaPages>(
    alloc: Global,
    pages: &mut M,
    at: &CellAt,
    kind: u8,
    value: &Option<Record>,
) -> Result<(), OutOfMemory>
    requires room { HasRoom (M.pages pages.old) at.now kind value.now }
    requires allowed { IfSome value.now Allowed }
    requires of_kind { IfSome value.now (λ r. kind_of r ≡ kind) }
    ensures ok { (cell : Cell) → StandsAt (M.pages pages.old) at.now cell
        → OnOk result (StandsAt (M.pages pages.new) at.now
        (with_record kind value.now cell)) }
    ensures err { OnErr result (M.pages pages.new ≡ M.pages pages.old) }
    ensures others { LeavesOthers (is_at at.now) (M.pages pages.old) (M.pages pages.new) }
    ensures well_formed { KeepsWellFormed (M.pages pages.old) (M.pages pages.new) }
    ensures headers { KeepsHeaders (M.pages pages.old) (M.pages pages.new) }
    ensures elsewhere { (home : HomeOf) → same_home home (home_there at.now) ≡ false
        → M.pages pages.new home ≡ M.pages pages.old home }
    ensures room { M.room pages.new ≡ M.room pages.old }
    ensures before { M.before pages.new ≡ M.before pages.old }
{
    let Some(used) = read_used(alloc, pages, *at)? else {
        return Ok(());
    };
    let records = replaced(alloc, used.records.as_slice(), kind, value)?;
    write_cell(pages, *at, &used.head, &records);
    Ok(())
}

/// Puts a record in place of those of its kind in the cell in use that stands there, or among its
/// records if it has none of that kind. The cell has room for it. Every other cell stays, and so do
/// the index and next page of each page. After an error nothing has changed.
pub fn set_record<M: MetaPages>(
    alloc: Global,
    pages: &mut M,
    at: CellAt,
    value: &Record,
) -> Result<(), OutOfMemory>
    requires room { HasRoom (M.pages pages.old) at (kind_of value.now) (Some value.now) }
    requires allowed { Allowed value.now }
    ensures ok { (cell : Cell) → StandsAt (M.pages pages.old) at cell
        → OnOk result (StandsAt (M.pages pages.new) at
        (with_record (kind_of value.now) (Some value.now) cell)) }
    ensures err { OnErr result (M.pages pages.new ≡ M.pages pages.old) }
    ensures others { LeavesOthers (is_at at) (M.pages pages.old) (M.pages pages.new) }
    ensures well_formed { KeepsWellFormed (M.pages pages.old) (M.pages pages.new) }
    ensures headers { KeepsHeaders (M.pages pages.old) (M.pages pages.new) }
    ensures elsewhere { (home : HomeOf) → same_home home (home_there at) ≡ false
        → M.pages pages.new home ≡ M.pages pages.old home }
    ensures room { M.room pages.new ≡ M.room pages.old }
    ensures before { M.before pages.new ≡ M.before pages.old }
{
    change_record(alloc, pages, &at, value.kind(), &Some(*value))
}

/// The records with two others in place of those of their kinds.
fn replaced_two(
    alloc: Global,
    records: &[Record],
    one: &Record,
    other: &Record,
) -> Result<RecordList, OutOfMemory>
    ensures { IfOk result (λ found. found ≡ with_kind (kind_of other.now) (Some other.now)
        (with_kind (kind_of one.now) (Some one.now) records.now)) }
{
    let first = put_among(alloc, records, one)?;
    put_among(alloc, first.as_slice(), other)
}

/// Puts two records in place of those of their kinds in the cell in use that stands there. After an
/// error nothing has changed.
fn change_two<M: MetaPages>(
    alloc: Global,
    pages: &mut M,
    at: &CellAt,
    one: &Record,
    other: &Record,
) -> Result<(), OutOfMemory>
    requires room { HasRoomForTwo (M.pages pages.old) at.now one.now other.now }
    requires one { Allowed one.now }
    requires other { Allowed other.now }
    ensures ok { (cell : Cell) → StandsAt (M.pages pages.old) at.now cell
        → OnOk result (StandsAt (M.pages pages.new) at.now (with_two one.now other.now cell)) }
    ensures err { OnErr result (M.pages pages.new ≡ M.pages pages.old) }
    ensures others { LeavesOthers (is_at at.now) (M.pages pages.old) (M.pages pages.new) }
    ensures well_formed { KeepsWellFormed (M.pages pages.old) (M.pages pages.new) }
    ensures headers { KeepsHeaders (M.pages pages.old) (M.pages pages.new) }
    ensures elsewhere { (home : HomeOf) → same_home home (home_there at.now) ≡ false
        → M.pages pages.new home ≡ M.pages pages.old home }
    ensures room { M.room pages.new ≡ M.room pages.old }
    ensures before { M.before pages.new ≡ M.before pages.old }
{
    let Some(used) = read_used(alloc, pages, *at)? else {
        return Ok(());
    };
    let records = replaced_two(alloc, used.records.as_slice(), one, other)?;
    write_cell(pages, *at, &used.head, &records);
    Ok(())
}

/// Puts two records in place of those of their kinds in the cell in use that stands there, which
/// has room for them, in one write. Every other cell stays, and so do the index and next page of
/// each page. After an error nothing has changed.
pub fn set_two_records<M: MetaPages>(
    alloc: Global,
    pages: &mut M,
    at: CellAt,
    one: &Record,
    other: &Record,
) -> Result<(), OutOfMemory>
    requires room { HasRoomForTwo (M.pages pages.old) at one.now other.now }
    requires one { Allowed one.now }
    requires other { Allowed other.now }
    ensures ok { (cell : Cell) → StandsAt (M.pages pages.old) at cell
        → OnOk result (StandsAt (M.pages pages.new) at (with_two one.now other.now cell)) }
    ensures err { OnErr result (M.pages pages.new ≡ M.pages pages.old) }
    ensures others { LeavesOthers (is_at at) (M.pages pages.old) (M.pages pages.new) }
    ensures well_formed { KeepsWellFormed (M.pages pages.old) (M.pages pages.new) }
    ensures headers { KeepsHeaders (M.pages pages.old) (M.pages pages.new) }
    ensures elsewhere { (home : HomeOf) → same_home home (home_there at) ≡ false
        → M.pages pages.new home ≡ M.pages pages.old home }
    ensures room { M.room pages.new ≡ M.room pages.old }
    ensures before { M.before pages.new ≡ M.before pages.old }
{
    change_two(alloc, pages, &at, one, other)
}

/// Takes the records of a kind off the cell in use that stands there. Every other cell stays, and
/// so do the index and next page of each page. After an error nothing has changed.
pub fn clear_record<M: MetaPages>(
    alloc: Global,
    pages: &mut M,
    at: CellAt,
    kind: u8,
) -> Result<(), OutOfMemory>
    requires { IsInUse (M.pages pages.old) at }
    ensures ok { (cell : Cell) → StandsAt (M.pages pages.old) at cell
        → OnOk result (StandsAt (M.pages pages.new) at (with_record kind None cell)) }
    ensures err { OnErr result (M.pages pages.new ≡ M.pages pages.old) }
    ensures others { LeavesOthers (is_at at) (M.pages pages.old) (M.pages pages.new) }
    ensures well_formed { KeepsWellFormed (M.pages pages.old) (M.pages pages.new) }
    ensures headers { KeepsHeaders (M.pages pages.old) (M.pages pages.new) }
    ensures elsewhere { (home : HomeOf) → same_home home (home_there at) ≡ false
        → M.pages pages.new home ≡ M.pages pages.old home }
    ensures room { M.room pages.new ≡ M.room pages.old }
    ensures before { M.before pages.new ≡ M.before pages.old }
{
    change_record(alloc, pages, &at, kind, &None)
}
