//! Runs that say that pages stand where none is allowed to.
ghost use Rattle.std.specs.Prelude.{◌≡◌, ◌⊎◌, ◌↔◌, IfOk, IsTrue, OnOk};
ghost use Rattle.tag_faults.specs.domain_base.declared.place.Home.{Home};
ghost use Rattle.tag_faults.specs.metadata_cells.CellPage.{home_of as home_there};
ghost use Rattle.tag_faults.specs.log_ring.Homes.{IsMember};
ghost use Rattle.tag_faults.specs.page_ways.Frame.{frame_in};
ghost use Rattle.tag_faults.specs.sorted_sets.Members.{IsIn as IsHomeIn};
ghost use Rattle.tag_faults.specs.sorted_sets.SpanMembers.{HasNumber};
ghost use Rattle.tag_faults.specs.cell_chains.Runs.{AreApart, HasPageIn};
ghost use Rattle.page_faults.specs.Wrong.{HasRun, IsAnothersOn, IsMet, IsOutside, IsWrongRun};

use crate::spans::taken_spans;
use std::alloc::Global;
use tag_faults::{
    DomainFrame, FileRun, Home, HomeSet, OutOfMemory, SpanSet, VolIx, find_shared, has_shared,
};

/// Whether a page of a run does not belong to a member.
fn is_outside(frame: &DomainFrame, run: &FileRun) -> bool
    ensures { IsTrue result ↔ IsOutside (frame_in frame.now) run.now }
{
    if run.row.count == 0 {
        return false;
    }
    let Some(vol) = VolIx::new(run.row.vol) else {
        return true;
    };
    if !frame.is_member(vol) {
        return true;
    }
    u64::from(frame.member(vol).pages) < u64::from(run.row.first) + u64::from(run.row.count)
}

/// The home of the page of the cell of a run.
fn home_of(run: &FileRun) -> Home
    ensures { result ≡ home_there run.now.at }
{
    Home {
        vol: run.at.vol,
        page: run.at.page,
    }
}

/// Puts the page of the cell of a run into a set, if a page of the run does not belong to a member.
fn insert_outside(
    frame: &DomainFrame,
    run: &FileRun,
    found: &mut HomeSet,
) -> Result<(), OutOfMemory>
    ensures { OnOk result ((home : Home) → IsHomeIn found.new home ↔ (IsHomeIn found.old home
        ⊎ ((home_there run.now.at ≡ home) × IsOutside (frame_in frame.now) run.now))) }
{
    if is_outside(frame, run) {
        found.insert(&home_of(run))?;
    }
    Ok(())
}

/// The pages of the cells of those runs that have a page that does not belong to a member.
fn outside_runs(
    alloc: Global,
    frame: &DomainFrame,
    runs: &[FileRun],
) -> Result<HomeSet, OutOfMemory>
    ensures { IfOk result (λ found. (home : Home) → IsHomeIn found home
        ↔ HasRun runs.now (IsOutside (frame_in frame.now)) home) }
{
    let mut found = HomeSet::new(alloc);
    for run in runs {
        insert_outside(frame, run, &mut found)?;
    }
    Ok(found)
}

/// Puts the page of the cell of a run on a volume into a set, if a page of the run is among these
/// pages.
fn insert_met(
    vol: VolIx,
    shared: &SpanSet,
    run: &FileRun,
    found: &mut HomeSet,
) -> Result<(), OutOfMemory>
    ensures { OnOk result ((home : Home) → IsHomeIn found.new home ↔ (IsHomeIn found.old home
        ⊎ ((home_there run.now.at ≡ home) × IsMet vol (HasNumber shared.now) run.now))) }
{
    if run.row.vol == vol.number() && has_shared(shared, run) {
        found.insert(&home_of(run))?;
    }
    Ok(())
}

/// Puts into a set the pages of the cells of those runs on a volume that have one of these pages.
fn insert_all_met(
    vol: VolIx,
    shared: &SpanSet,
    runs: &[FileRun],
    found: &mut HomeSet,
) -> Result<(), OutOfMemory>
    ensures { OnOk result ((home : Home) → IsHomeIn found.new home ↔ (IsHomeIn found.old home
        ⊎ HasRun runs.now (IsMet vol (HasNumber shared.now)) home)) }
{
    for run in runs {
        insert_met(vol, shared, run, found)?;
    }
    Ok(())
}

/// Puts into a set the pages of the cells of those runs on a member that have a page that is
/// another's, too.
fn look_at_member(
    alloc: Global,
    frame: &DomainFrame,
    homes: &[Home],
    runs: &[FileRun],
    vol: VolIx,
    found: &mut HomeSet,
) -> Result<(), OutOfMemory>
    requires { IsMember frame.now.anchor vol }
    ensures { OnOk result (AreApart runs.now → (home : Home) → IsHomeIn found.new home
        ↔ (IsHomeIn found.old home
        ⊎ HasRun runs.now (IsAnothersOn vol (frame_in frame.now) homes.now runs.now) home)) }
{
    let spans = taken_spans(alloc, frame, homes, vol)?;
    let shared = find_shared(alloc, spans, runs, vol)?;
    insert_all_met(vol, &shared, runs, found)?;
    Ok(())
}

/// Puts into a set the pages of the cells of those runs on a volume that have a page that is
/// another's, too, if the volume is a member.
fn look_at_volume(
    alloc: Global,
    frame: &DomainFrame,
    homes: &[Home],
    runs: &[FileRun],
    number: u32,
    found: &mut HomeSet,
) -> Result<(), OutOfMemory>
    ensures { OnOk result (AreApart runs.now → (home : Home) → IsHomeIn found.new home
        ↔ (IsHomeIn found.old home
        ⊎ HasRun runs.now (IsAnothersOn number (frame_in frame.now) homes.now runs.now) home)) }
{
    let Some(vol) = VolIx::new(number) else {
        return Ok(());
    };
    if !frame.is_member(vol) {
        return Ok(());
    }
    look_at_member(alloc, frame, homes, runs, vol, found)
}

/// The pages of the cells of those runs that have a page that does not belong to a member, or is
/// another's, too: a page of label, anchors, bitmap or log, one among the homes, or a file's by
/// another of the runs. No two of the runs may have one page of one cell.
pub(crate) fn wrong_runs(
    alloc: Global,
    frame: &DomainFrame,
    homes: &[Home],
    runs: &[FileRun],
) -> Result<HomeSet, OutOfMemory>
    ensures { IfOk result (λ found. AreApart runs.now → (home : Home) → IsHomeIn found home
        ↔ HasRun runs.now (IsWrongRun (frame_in frame.now) homes.now runs.now) home) }
{
    let mut found = outside_runs(alloc, frame, runs)?;
    for number in 1..9_u32 {
        look_at_volume(alloc, frame, homes, runs, number, &mut found)?;
    }
    Ok(found)
}
