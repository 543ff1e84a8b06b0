//! The records of a whole map.
ghost use Rattle.std.specs.Prelude.{◌≡◌, ◌<◌, ◌≤◌, ◌++◌, ◌∷◌, [], IfOk, OnOk, drop, length, take};
ghost use Rattle.std.specs.List.{AllByRecursion};
ghost use Rattle.extent_maps.specs.Runs.{AreRuns};
ghost use Rattle.cell_records.specs.Records.{kind_of};
ghost use Rattle.extent_records.specs.Rows.{AreOneMap, IsMapOf};
ghost use Rattle.extent_records.specs.Writing.{AllSuit, IsMapRecord, chain_kind, hole_kind, most_rows, short_kind};
ghost use Rattle.extent_records.specs.Listing.{AddsAll, AddsOne, AllHomes, HoldsRuns, IsLeastList, ListsMap, hole_part, holes_in, home_part, homes_in};

use crate::rows::row_count;
use crate::writing::{SHORT_ROWS, empty_extents, empty_holes, empty_short, with_runs};
use cell_records::from_domain_base::Version;
use cell_records::limits::MAX_VOLUMES;
use cell_records::{OutOfMemory, Record};
use extent_maps::{ExtentMap, Run, RunPlace};
use std::alloc::Global;

/// Adds a run after the others.
fn push_run(runs: &mut Vec<Run>, run: &Run) -> Result<(), OutOfMemory>
    ensures { OnOk result (runs.new.items ≡ runs.old.items ++ run.now ∷ []) }
{
    let Run { page, count, first } = *run;
    runs.push(Run { page, count, first })?;
    Ok(())
}

/// Adds a run after the others, if its pages have homes.
fn push_homes(runs: &mut Vec<Run>, run: &Run) -> Result<(), OutOfMemory>
    ensures list { OnOk result (runs.new.items ≡ runs.old.items
        ++ home_part run.now.first run.now) }
    ensures homes { AllHomes (home_part run.now.first run.now) }
{
    match &run.first {
        RunPlace::At(home) => {
            prove!(home.vol.number() <= MAX_VOLUMES);
            push_run(runs, run)
        }
        RunPlace::Holes => Ok(()),
    }
}

/// Adds a run after the others, if its pages are holes.
fn push_holes(runs: &mut Vec<Run>, run: &Run) -> Result<(), OutOfMemory>
    ensures list { OnOk result (runs.new.items ≡ runs.old.items
        ++ hole_part run.now.first run.now) }
{
    match run.first {
        RunPlace::At(_) => Ok(()),
        RunPlace::Holes => push_run(runs, run),
    }
}

/// The runs whose pages have homes.
fn homes_of(alloc: Global, runs: &[Run]) -> Result<Vec<Run>, OutOfMemory>
    requires { AreRuns runs.now }
    ensures list { IfOk result (λ homes. homes.items ≡ homes_in runs.now) }
    ensures homes { IfOk result (λ homes. AllHomes homes.items) }
    ensures runs { IfOk result (λ homes. AreRuns homes.items) }
{
    let mut homes = Vec::new(alloc);
    for run in runs {
        push_homes(&mut homes, run)?;
    }
    Ok(homes)
}

/// The runs of holes.
fn holes_of(alloc: Global, runs: &[Run]) -> Result<Vec<Run>, OutOfMemory>
    requires { AreRuns runs.now }
    ensures list { IfOk result (λ holes. holes.items ≡ holes_in runs.now) }
    ensures suits { IfOk result (λ holes. AllSuit hole_kind holes.items) }
    ensures runs { IfOk result (λ holes. AreRuns holes.items) }
{
    let mut holes = Vec::new(alloc);
    for run in runs {
        push_holes(&mut holes, run)?;
    }
    Ok(holes)
}

/// A record of a value's kind that holds these runs. There are no more of them than it has rows.
pub(crate) fn holding(value: &Record, runs: &[Run]) -> Record
    requires is_map { IsMapRecord value.now }
    requires runs { AreRuns runs.now }
    requires suits { AllSuit (kind_of value.now) runs.now }
    requires few { length runs.now ≤ most_rows (kind_of value.now) }
    ensures { HoldsRuns (kind_of value.now) runs.now result }
{
    match with_runs(value, runs) {
        Some(record) => record,
        None => unreachable!(),
    }
}

/// Adds a record of a value's kind that holds these runs after the others.
fn push_record(records: &mut Vec<Record>, value: &Record, runs: &[Run]) -> Result<(), OutOfMemory>
    requires is_map { IsMapRecord value.now }
    requires runs { AreRuns runs.now }
    requires suits { AllSuit (kind_of value.now) runs.now }
    requires few { length runs.now ≤ most_rows (kind_of value.now) }
    ensures { OnOk result (AddsOne (kind_of value.now) runs.now records.old.items
        records.new.items) }
{
    records.push(holding(value, runs))?;
    Ok(())
}

/// Adds records of a value's kind that hold these runs after the others. Each but the last holds as
/// many as it has rows.
fn push_records(records: &mut Vec<Record>, value: &Record, runs: &[Run]) -> Result<(), OutOfMemory>
    requires is_map { IsMapRecord value.now }
    requires runs { AreRuns runs.now }
    requires suits { AllSuit (kind_of value.now) runs.now }
    ensures { OnOk result (AddsAll (kind_of value.now) runs.now records.old.items
        records.new.items) }
{
    let rows = row_count(value);
    let mut at = 0;
    while at < runs.len() {
        let end = runs.len().min(at + rows);
        push_record(records, value, &runs[at..end])?;
        at = end;
    }
    Ok(())
}

/// Adds the record of a primary cell, with the first of the runs, after the others.
fn push_short(records: &mut Vec<Record>, version: Version, homes: &[Run]) -> Result<(), OutOfMemory>
    requires runs { AreRuns homes.now }
    requires homes { AllHomes homes.now }
    ensures { OnOk result (AddsOne (short_kind version)
        (take (most_rows (short_kind version)) homes.now) records.old.items records.new.items) }
{
    let first = homes.len().min(SHORT_ROWS);
    push_record(records, &empty_short(version), &homes[..first])
}

/// Adds the records of extents of chain cells after the others, with all runs but those of the
/// primary cell.
fn push_chain(records: &mut Vec<Record>, version: Version, homes: &[Run]) -> Result<(), OutOfMemory>
    requires runs { AreRuns homes.now }
    requires homes { AllHomes homes.now }
    ensures { OnOk result (AddsAll (chain_kind version)
        (drop (most_rows (short_kind version)) homes.now) records.old.items records.new.items) }
{
    let first = homes.len().min(SHORT_ROWS);
    push_records(records, &empty_extents(version), &homes[first..])
}

/// Adds the records of holes after the others.
fn push_kept(records: &mut Vec<Record>, holes: &[Run]) -> Result<(), OutOfMemory>
    requires runs { AreRuns holes.now }
    requires suits { AllSuit hole_kind holes.now }
    ensures { OnOk result (AddsAll hole_kind holes.now records.old.items records.new.items) }
{
    push_records(records, &empty_holes(), holes)
}

/// The records of a map, as that version writes them: that of the file's primary cell, which may
/// say no page, those of extents of chain cells, and those of holes. The map cannot be said in
/// fewer records: of the last two sorts each but the last is full, and no row is shorter than it
/// can be.
pub fn map_records(
    alloc: Global,
    map: &ExtentMap,
    version: Version,
) -> Result<Vec<Record>, OutOfMemory>
    ensures one_map { IfOk result (λ records. AreOneMap records.items) }
    ensures map { IfOk result (λ records. IsMapOf records.items map.now) }
    ensures each { IfOk result (λ records. AllByRecursion IsMapRecord records.items) }
    ensures least { IfOk result (λ records. IsLeastList version map.now records.items) }
    ensures full { IfOk result (λ records. ListsMap version map.now records.items) }
{
    let homes = homes_of(alloc, map.runs())?;
    let holes = holes_of(alloc, map.runs())?;
    let mut records = Vec::new(alloc);
    push_short(&mut records, version, &homes)?;
    push_chain(&mut records, version, &homes)?;
    push_kept(&mut records, &holes)?;
    Ok(records)
}
