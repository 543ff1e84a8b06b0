//! Which pages of a record go in one step.
ghost use Rattle.std.specs.Prelude.{◌≡◌, ◌∷◌, ◌+◌, ◌-◌, ◌<◌, ◌≤◌, [], ℕ, IfNone, IfSome, None, Some, drop, length, take};
ghost use Rattle.fileset_files.specs.extent_maps.declared.run.PagePlace.TheVariants.{Absent};
ghost use Rattle.fileset_files.specs.extent_maps.Runs.{AreRuns, BeginBefore, BeginFrom, IsRun, place_of};
ghost use Rattle.file_release.specs.Steps.{AreUnread, IsReadIn, IsTail};

use crate::runs::{end_in_front, first_page, home_in};
use crate::stale::end_of_map;
use fileset_files::{ExtentMap, Home, Run, RunPlace};

/// The number from which on a record's pages go, and the home of that page if the reader reads it
/// through the file, so that it is handed over. Then it is the record's last page.
#[derive(Clone, Copy)]
pub struct Tail {
    pub from: u32,
    pub home: Option<Home>,
}

/// How many runs begin before a page.
fn count_before(runs: &[Run], page: u32) -> usize
    requires { AreRuns runs.now }
    ensures within { result ≤ length runs.now }
    ensures front { BeginBefore page (take result runs.now) }
    ensures back { BeginFrom page (drop result runs.now) }
{
    runs.partition_point(|run| run.page < page)
}

/// The number from which on runs have each page before another one. They do not have the page
/// before that number, if it is one from `from` on.
fn begin_of_gapless(runs: &[Run], from: u32, to: u32) -> u32
    requires { AreRuns runs.now }
    ensures within { result ≤ to }
    ensures there { (page : ℕ) → result ≤ page → page < to → ¬ place_of runs.now page ≡ Absent }
    ensures absent { from < result → place_of runs.now (result - 1) ≡ Absent }
{
    let mut begin = to;
    for i in (0..count_before(runs, to)).rev() {
        let run = &runs[i];
        if begin <= from || run.page + run.count < begin {
            return begin;
        }
        begin = run.page;
    }
    begin
}

/// A page that the reader reads through the file, and its home.
#[derive(Clone, Copy)]
pub struct ReadPage {
    pub page: u32,
    pub home: Home,
}

/// The last page of a run, from one on and before the end of the frozen pages, that has a home and
/// is none of the reader's own.
fn last_read(run: &Run, own: &ExtentMap, from: u32, frozen: u32) -> Option<ReadPage>
    requires { IsRun run.now }
    ensures some { IfSome result (IsReadIn from frozen (place_of own.now)
        (place_of (run.now ∷ []))) }
    ensures behind { IfSome result (λ read. AreUnread (read.page + 1) frozen (place_of own.now)
        (place_of (run.now ∷ []))) }
    ensures none { IfNone result (AreUnread from frozen (place_of own.now)
        (place_of (run.now ∷ []))) }
{
    let RunPlace::At(first) = run.first else {
        return None;
    };
    let begin = first_page(run, from);
    let end = begin_of_gapless(own.runs(), begin, end_in_front(run, frozen));
    if begin < end {
        return Some(ReadPage {
            page: end - 1,
            home: home_in(run, &first, end - 1),
        });
    }
    None
}

/// The tail of a record if the last page that the reader reads through the file is this one.
fn tail_at(page: u32, home: Home, end: u32) -> Tail
    requires { page < end }
    ensures last { page + 1 ≡ end → (result.from ≡ page) × (result.home ≡ Some home) }
    ensures before { page + 1 < end → (result.from ≡ page + 1) × (result.home ≡ None) }
{
    if page + 1 == end {
        Tail {
            from: page,
            home: Some(home),
        }
    } else {
        Tail {
            from: page + 1,
            home: None,
        }
    }
}

/// The pages of a record from one on that go in one step: its last page alone if the reader reads
/// it through the file, else as many of the last ones as the reader does not read. Goes over the
/// runs of the two maps, and not over their pages.
pub(crate) fn tail_of(map: &ExtentMap, own: &ExtentMap, from: u32, frozen: u32) -> Tail
    ensures { IsTail from frozen (place_of own.now) (place_of map.now) result }
{
    let end = end_of_map(map);
    let runs = map.runs();
    for i in (0..runs.len()).rev() {
        if let Some(read) = last_read(&runs[i], own, from, frozen) {
            return tail_at(read.page, read.home, end);
        }
    }
    Tail { from, home: None }
}
