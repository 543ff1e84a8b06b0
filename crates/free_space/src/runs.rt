//! Runs of free pages that are as long as they can be.
ghost use Rattle.std.specs.Prelude.{◌≡◌, ◌++◌, ◌+◌, ◌<◌, ◌≤◌, ◌^◌, false, true, Some, IfOk, OnOk};
ghost use Rattle.std.specs.FinSet.{contains};
ghost use Rattle.free_space.specs.Runs.{AddsRuns, IsRunIn, IsRunOn, run_before};

use crate::Bitmap;
use crate::volume::Volume;
use sorted_sets::{Home, OutOfMemory, VolIx};

/// Free pages of a volume, one after the other: the home of the first, and how many there are.
#[derive(Clone, Copy, Debug, PartialEq, Eq)]
pub struct FreeRun {
    pub first: Home,
    pub count: u32,
}

/// Appends the `count` pages before a page to runs, if there are some.
fn push_run(runs: &mut Vec<FreeRun>, vol: VolIx, end: u32, count: u32) -> Result<(), OutOfMemory>
    requires { count ≤ end }
    ensures { OnOk result (runs.new.items ≡ runs.old.items ++ run_before vol end count) }
{
    if count == 0 {
        return Ok(());
    }
    let page = end - count;
    runs.push(FreeRun {
        first: Home { vol, page },
        count,
    })?;
    Ok(())
}

/// Looks at a page after `count` free ones, and returns how many free ones are before the next
/// page. If the page is used, the pages before it are appended to runs.
fn pass_page(
    runs: &mut Vec<FreeRun>,
    vol: VolIx,
    map: &Bitmap,
    page: u32,
    count: u32,
) -> Result<u32, OutOfMemory>
    requires there { page < map.now.pages }
    requires few { count ≤ page }
    requires most { page + 1 < 2 ^ 32 }
    ensures used { contains map.now.used page ≡ true → IfOk result (λ next. (next ≡ 0)
        × (runs.new.items ≡ runs.old.items ++ run_before vol page count)) }
    ensures free { contains map.now.used page ≡ false → IfOk result (λ next. (next ≡ count + 1)
        × (runs.new.items ≡ runs.old.items)) }
{
    if map.is_used(page) {
        push_run(runs, vol, page, count)?;
        Ok(0)
    } else {
        Ok(count + 1)
    }
}

/// Appends the runs of free pages of a volume with this bitmap to others.
fn push_runs(runs: &mut Vec<FreeRun>, vol: VolIx, map: &Bitmap) -> Result<(), OutOfMemory>
    ensures { OnOk result (AddsRuns (IsRunIn vol map.now) runs.old.items runs.new.items) }
{
    let pages = map.pages();
    let mut count = 0;
    for page in 0..pages {
        count = pass_page(runs, vol, map, page, count)?;
    }
    push_run(runs, vol, pages, count)
}

/// Appends the runs of free pages of a volume to others, if it is open.
fn push_open_runs(runs: &mut Vec<FreeRun>, vol: VolIx, volume: &Volume) -> Result<(), OutOfMemory>
    ensures { OnOk result (AddsRuns (IsRunOn vol (Some volume.now)) runs.old.items runs.new.items) }
{
    if volume.is_open() {
        push_runs(runs, vol, volume.map())
    } else {
        Ok(())
    }
}

/// Appends the runs of free pages of a volume to others, if it is there and open.
pub(crate) fn push_runs_on(
    runs: &mut Vec<FreeRun>,
    vol: VolIx,
    volume: &Option<Volume>,
) -> Result<(), OutOfMemory>
    ensures { OnOk result (AddsRuns (IsRunOn vol volume.now) runs.old.items runs.new.items) }
{
    match volume {
        Some(volume) => push_open_runs(runs, vol, volume),
        None => Ok(()),
    }
}
