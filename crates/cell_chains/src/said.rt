//! What the records of a cell say, as numbers.
ghost use Rattle.std.specs.Prelude.{◌≡◌, ◌⊎◌, ◌↔◌, ◌<◌, ◌^◌, ℕ, IfOk, OnOk};
ghost use Rattle.std.specs.List.{flat_map};
ghost use Rattle.extent_records.specs.extent_maps.Runs.{place_of as page_at};
ghost use Rattle.extent_records.specs.extent_maps.declared.run.PagePlace.TheVariants.{Absent};
ghost use Rattle.extent_records.specs.Rows.{holes_at, runs_at};
ghost use Rattle.extent_records.specs.Writing.{places_in};
ghost use Rattle.metadata_cells.specs.Cell.{id_of as id_there, place_of as place_there};
ghost use Rattle.metadata_cells.specs.sorted_sets.SpanMembers.{HasAnyOf};
ghost use Rattle.cell_chains.specs.Says.{Says, SaysAny, SaysAt};

use metadata_cells::{
    CellAt, ExtentField, HoleField, MetaPages, OutOfMemory, Record, Span, read_used,
};
use std::alloc::Global;

/// What is asked of records: the pages that their rows have, or whose limits they say.
#[derive(Clone, Copy, Debug, PartialEq, Eq)]
pub enum Said {
    Pages,
    Limits,
}

/// Appends the pages of rows to other spans.
fn push_extents(rows: &[ExtentField], spans: &mut Vec<Span>) -> Result<(), OutOfMemory>
    ensures { OnOk result ((n : ℕ) → HasAnyOf spans.new.items n ↔ (HasAnyOf spans.old.items n
        ⊎ ¬ page_at (flat_map runs_at rows.now) n ≡ Absent)) }
{
    for row in rows {
        let from = u64::from(row.page);
        spans.push(Span {
            from,
            to: from + u64::from(row.count),
        })?;
    }
    Ok(())
}

/// Appends the pages of rows of holes to other spans.
fn push_holes(rows: &[HoleField], spans: &mut Vec<Span>) -> Result<(), OutOfMemory>
    ensures { OnOk result ((n : ℕ) → HasAnyOf spans.new.items n ↔ (HasAnyOf spans.old.items n
        ⊎ ¬ page_at (flat_map holes_at rows.now) n ≡ Absent)) }
{
    for row in rows {
        let from = u64::from(row.page);
        spans.push(Span {
            from,
            to: from + u64::from(row.count),
        })?;
    }
    Ok(())
}

/// Appends the pages of a record's rows to other spans.
fn push_pages(record: &Record, spans: &mut Vec<Span>) -> Result<(), OutOfMemory>
    ensures { OnOk result ((n : ℕ) → HasAnyOf spans.new.items n ↔ (HasAnyOf spans.old.items n
        ⊎ ¬ places_in «record».now n ≡ Absent)) }
{
    match record {
        Record::Extents { rows } => push_extents(rows, spans),
        Record::ShortExtents { rows } => push_extents(rows, spans),
        Record::DenseExtents { rows } => push_extents(rows, spans),
        Record::ShortDense { rows } => push_extents(rows, spans),
        Record::Holes { rows } => push_holes(rows, spans),
        _ => Ok(()),
    }
}

/// The id of the owner whose limits a record says, and 0 for other records.
fn owner_of(record: &Record) -> u32
    ensures { result ≡ id_there «record».now }
{
    match record {
        Record::UserQuota { id, .. } | Record::GroupQuota { id, .. } => *id,
        _ => 0,
    }
}

/// A number for the kind of a record and for the owner whose limits it says.
fn number_of(record: &Record) -> u64
    ensures value { result ≡ place_there «record».now }
    ensures few { result < 2 ^ 63 }
{
    (u64::from(record.kind()) << 32) + u64::from(owner_of(record))
}

/// Appends what a record says to other spans.
fn push_said(what: Said, record: &Record, spans: &mut Vec<Span>) -> Result<(), OutOfMemory>
    ensures { OnOk result ((n : ℕ) → HasAnyOf spans.new.items n ↔ (HasAnyOf spans.old.items n
        ⊎ Says what «record».now n)) }
{
    match what {
        Said::Pages => push_pages(record, spans),
        Said::Limits => {
            let from = number_of(record);
            spans.push(Span { from, to: from + 1 })?;
            Ok(())
        }
    }
}

/// Appends what records say to other spans.
fn push_all(what: Said, records: &[Record], spans: &mut Vec<Span>) -> Result<(), OutOfMemory>
    ensures { OnOk result ((n : ℕ) → HasAnyOf spans.new.items n ↔ (HasAnyOf spans.old.items n
        ⊎ SaysAny what records.now n)) }
{
    for one in records {
        push_said(what, one, spans)?;
    }
    Ok(())
}

/// What the cell in use at a place says; nothing if none stands there.
pub(crate) fn read_spans<M: MetaPages>(
    alloc: Global,
    pages: &M,
    what: Said,
    at: &CellAt,
) -> Result<Vec<Span>, OutOfMemory>
    ensures { IfOk result (λ spans. (n : ℕ) → HasAnyOf spans.items n
        ↔ SaysAt (M.pages pages.now) what at.now n) }
{
    let mut spans = Vec::new(alloc);
    let Some(used) = read_used(alloc, pages, *at)? else {
        return Ok(spans);
    };
    push_all(what, used.records.as_slice(), &mut spans)?;
    Ok(spans)
}
