//! Which lists of extents show where a file's pages stand.
ghost use Rattle.std.specs.Prelude.{◌+◌, ◌≡◌, ◌≤◌, ◌<◌, ◌↔◌, ℕ, All, AllPairs, Any, IfOk, IsSomeAnd, IsTrue, false, length};
ghost use Rattle.std.specs.List.{AllAdjacentBelow};
ghost use Rattle.std.specs.FinMap as map;
ghost use Rattle.legal_histories.specs.fileset_model.Pages.{Pages};
ghost use Rattle.legal_histories.specs.Volumes.{AreApart, IsInRun, ShowsExtents, touches as touch};
ghost use Rattle.plain_program.specs.Members.{Rises, members_of};

use crate::members::line_of;
use legal_histories::{ExtentItem, OutOfMemory, PageMap, VolumeItem};
use std::alloc::Global;

/// Whether the runs show where a file with these pages stands on these members: each page of the
/// file is in one of them, each page of theirs is the file's, they are in order and as long as they
/// can be, lie within their members, and no two have a page of a volume in common.
pub fn is_extent_list(
    alloc: Global,
    pages: &PageMap,
    runs: &[ExtentItem],
    members: &[VolumeItem],
) -> Result<bool, OutOfMemory>
    requires { Rises members.now }
    ensures { IfOk result (λ shown.
        IsTrue shown ↔ ShowsExtents (members_of members.now) pages.now runs.now) }
{
    let numbers = pages.numbers(alloc)?;
    Ok(are_shown(pages, &numbers, runs, members))
}

/// Whether the runs show where a file with these pages stands on these members. The numbers of the
/// pages are given.
fn are_shown(pages: &PageMap, numbers: &[u64], runs: &[ExtentItem], members: &[VolumeItem]) -> bool
    requires numbers { numbers.now ≡ map.keys pages.now }
    requires rises { Rises members.now }
    ensures { IsTrue result ↔ ShowsExtents (members_of members.now) pages.now runs.now }
{
    if !are_in_runs(numbers, runs) {
        return false;
    }
    if !have_pages(runs, pages) {
        return false;
    }
    if !are_in_order(runs) {
        return false;
    }
    if !are_on_members(runs, members) {
        return false;
    }
    are_apart(runs)
}

/// Whether page `q` is in a run.
fn is_in_run(q: u64, run: &ExtentItem) -> bool
    ensures { IsTrue result ↔ IsInRun q run.now }
{
    let page = u64::from(run.page);
    page <= q && q - page < u64::from(run.count)
}

/// Whether page `q` is in a run of the list.
fn is_in_runs(q: u64, runs: &[ExtentItem]) -> bool
    ensures { IsTrue result ↔ Any (IsInRun q) runs.now }
{
    for run in runs {
        if is_in_run(q, run) {
            return true;
        }
    }
    false
}

/// Whether each of these pages is in a run.
fn are_in_runs(numbers: &[u64], runs: &[ExtentItem]) -> bool
    ensures { IsTrue result ↔ All (λ q. Any (IsInRun q) runs.now) numbers.now }
{
    for q in numbers {
        if !is_in_runs(*q, runs) {
            return false;
        }
    }
    true
}

/// Whether each page of a run is a page of the file.
fn has_pages(run: &ExtentItem, pages: &PageMap) -> bool
    ensures { IsTrue result
        ↔ ((q : ℕ) → IsInRun q run.now → IsTrue (map.contains_key pages.now q)) }
{
    let first = u64::from(run.page);
    for q in first..first + u64::from(run.count) {
        if !pages.contains(q) {
            return false;
        }
    }
    true
}

/// Whether each run has a page, and each page of theirs is a page of the file.
fn have_pages(runs: &[ExtentItem], pages: &PageMap) -> bool
    ensures { IsTrue result ↔ All (λ run. (0 < run.count)
        × ((q : ℕ) → IsInRun q run → IsTrue (map.contains_key pages.now q))) runs.now }
{
    for run in runs {
        if run.count == 0 || !has_pages(run, pages) {
            return false;
        }
    }
    true
}

/// Whether the next run begins where this one ends, in the file and on the volume.
fn touches(run: &ExtentItem, next: &ExtentItem) -> bool
    ensures { result ≡ touch run.now next.now }
{
    let count = u64::from(run.count);
    let follows = u64::from(run.page) + count == u64::from(next.page);
    let stands_behind = u64::from(run.first) + count == u64::from(next.first);
    follows && run.vol == next.vol && stands_behind
}

/// Whether the next run begins after this one in the file, and could not be part of it.
fn comes_after(run: &ExtentItem, next: &ExtentItem) -> bool
    ensures { IsTrue result ↔ ((run.now.page + run.now.count ≤ next.now.page)
        × (touch run.now next.now ≡ false)) }
{
    let ends = u64::from(run.page) + u64::from(run.count);
    ends <= u64::from(next.page) && !touches(run, next)
}

/// Whether each run comes after the one before it.
fn are_in_order(runs: &[ExtentItem]) -> bool
    ensures { IsTrue result ↔ AllAdjacentBelow
        (λ run next. (run.page + run.count ≤ next.page) × (touch run next ≡ false))
        runs.now (length runs.now) }
{
    for i in 1..runs.len() {
        if !comes_after(&runs[i - 1], &runs[i]) {
            return false;
        }
    }
    true
}

/// Whether a run lies within the pages of a member.
fn is_on_member(run: &ExtentItem, members: &[VolumeItem]) -> bool
    requires { Rises members.now }
    ensures { IsTrue result ↔ IsSomeAnd (map.get (members_of members.now) run.now.vol)
        (λ member. run.now.first + run.now.count ≤ member.pages) }
{
    match line_of(members, run.vol) {
        Some(line) => u64::from(run.first) + u64::from(run.count) <= u64::from(line.pages),
        None => false,
    }
}

/// Whether each run lies within the pages of a member.
fn are_on_members(runs: &[ExtentItem], members: &[VolumeItem]) -> bool
    requires { Rises members.now }
    ensures { IsTrue result ↔ All
        (λ run. IsSomeAnd (map.get (members_of members.now) run.vol)
        (λ member. run.first + run.count ≤ member.pages))
        runs.now }
{
    for run in runs {
        if !is_on_member(run, members) {
            return false;
        }
    }
    true
}

/// Whether two runs have no page of a volume in common.
fn is_apart(run: &ExtentItem, other: &ExtentItem) -> bool
    ensures { IsTrue result ↔ AreApart run.now other.now }
{
    let ends = u64::from(run.first) + u64::from(run.count);
    let other_ends = u64::from(other.first) + u64::from(other.count);
    run.vol != other.vol || ends <= u64::from(other.first) || other_ends <= u64::from(run.first)
}

/// Whether a run is apart from each of these.
fn is_apart_from(run: &ExtentItem, others: &[ExtentItem]) -> bool
    ensures { IsTrue result ↔ All (AreApart run.now) others.now }
{
    for other in others {
        if !is_apart(run, other) {
            return false;
        }
    }
    true
}

/// Whether any two runs are apart.
fn are_apart(runs: &[ExtentItem]) -> bool
    ensures { IsTrue result ↔ AllPairs AreApart runs.now }
{
    for i in 0..runs.len() {
        if !is_apart_from(&runs[i], &runs[i + 1..]) {
            return false;
        }
    }
    true
}
