//! The map from a file's pages to their places.
ghost use Rattle.std.specs.Prelude.{◌≡◌, ◌+◌, ◌<◌, ◌≤◌, ◌++◌, ◌∷◌, [], IfOk, IfSome, IfNone, IsOk, IsSome, OnErr, OnOk, IsTrue, ◌↔◌, false, if◌then◌else◌, take, drop, length, nat_lt, slice_index_or, true, vec_capacity, vec_len};
ghost use Rattle.extent_maps.specs.declared.run.PagePlace.TheVariants.{Absent, At, Hole};
ghost use Rattle.extent_maps.specs.declared.run.Run.{Run as RunOf};
ghost use Rattle.extent_maps.specs.Runs.{AreRuns, BeginBefore, BeginBehind, BeginFrom, BeginUpTo, ChangesPlace, EndUpTo, Has, IsFree, IsPartedAt, IsRun, PutsRun, SamePlaces, covers, end_of, first_goes_on as goes_on_there, front_piece, goes_on_last, home_at, place_of, placed, rest_from};

use crate::run::{PagePlace, Run, RunPlace};
use domain_base::limits::FILE_PAGES;
use domain_base::{Home, OutOfMemory};
use std::alloc::Global;
use std::marker::Model;

/// The pages of a file that have homes or are kept as holes, by their numbers, in runs that are as
/// long as possible.
#[derive(Drop)]
pub struct ExtentMap {
    runs: Vec<Run>,
}

impl Model for ExtentMap {
    ghost use Rattle.std.specs.Prelude.{List};
    ghost use Rattle.extent_maps.specs.declared.run.Run.{Run as RunOf};
    ghost use Rattle.extent_maps.specs.Runs.{AreRuns};

    ghost Value = { List RunOf };

    ghost view = { λ m. m.runs.items };

    ghost invariant = { λ m. AreRuns m.runs.items };
}

/// How many runs begin at or before the page.
fn count_up_to(runs: &[Run], page: u32) -> usize
    requires { AreRuns runs.now }
    ensures within { result ≤ length runs.now }
    ensures front { BeginUpTo page (take result runs.now) }
    ensures back { BeginBehind page (drop result runs.now) }
{
    runs.partition_point(|run| run.page <= page)
}

/// How many runs begin before the page.
fn count_before(runs: &[Run], page: u32) -> usize
    requires { AreRuns runs.now }
    ensures within { result ≤ length runs.now }
    ensures front { BeginBefore page (take result runs.now) }
    ensures back { BeginFrom page (drop result runs.now) }
{
    runs.partition_point(|run| run.page < page)
}

/// The index of the run that has the page, if there is one.
fn find(runs: &[Run], page: u32) -> Option<usize>
    requires { AreRuns runs.now }
    ensures some { IfSome result (λ k. (k < length runs.now)
        × ((d : RunOf) → Has page (slice_index_or runs.now k d))) }
    ensures none { IfNone result (place_of runs.now page ≡ Absent) }
{
    let before = count_up_to(runs, page).checked_sub(1)?;
    if page < runs[before].end() {
        Some(before)
    } else {
        None
    }
}

/// Inserts an item at the place, before those from there on. After an error nothing has changed.
fn insert<T: Drop>(items: &mut Vec<T>, at: usize, item: T) -> Result<(), OutOfMemory>
    requires within { at ≤ vec_len items.old }
    ensures ok { OnOk result (items.new.items ≡ take at items.old.items ++ item
        ∷ drop at items.old.items) }
    ensures err { OnErr result (items.new.items ≡ items.old.items) }
    ensures lower { vec_len items.old ≤ vec_len items.new }
    ensures len { vec_len items.new ≤ vec_len items.old + 1 }
    ensures capacity { vec_capacity items.old ≤ vec_capacity items.new }
    ensures room { vec_len items.old < vec_capacity items.old → IsOk result }
{
    items.insert(at, item)?;
    Ok(())
}

/// Inserts a run at the place, before those from there on. After an error nothing has changed.
fn insert_run(runs: &mut Vec<Run>, at: usize, run: &Run) -> Result<(), OutOfMemory>
    requires within { at ≤ vec_len runs.old }
    ensures ok { OnOk result (runs.new.items ≡ take at runs.old.items ++ run.now
        ∷ drop at runs.old.items) }
    ensures err { OnErr result (runs.new.items ≡ runs.old.items) }
    ensures lower { vec_len runs.old ≤ vec_len runs.new }
    ensures len { vec_len runs.new ≤ vec_len runs.old + 1 }
    ensures capacity { vec_capacity runs.old ≤ vec_capacity runs.new }
    ensures room { vec_len runs.old < vec_capacity runs.old → IsOk result }
{
    let Run { page, count, first } = *run;
    insert(runs, at, Run { page, count, first })
}

/// Whether the first of the runs continues where this one ends.
fn first_goes_on(run: &Run, runs: &[Run]) -> bool
    requires { IsRun run.now }
    ensures { result ≡ goes_on_there run.now runs.now }
{
    match runs.first() {
        Some(next) => run.goes_on(next),
        None => false,
    }
}

/// Whether the first of the runs from the place on continues where this one ends.
fn goes_on_at(run: &Run, runs: &[Run], at: usize) -> bool
    requires run { IsRun run.now }
    requires within { at ≤ length runs.now }
    ensures { result ≡ goes_on_there run.now (drop at runs.now) }
{
    first_goes_on(run, &runs[at..])
}

/// The run joined with the one at the place, if that one continues it. Then that one is taken off
/// the list.
fn join_next(runs: &mut Vec<Run>, at: usize, run: Run) -> Run
    requires within { at ≤ vec_len runs.old }
    requires runs { AreRuns runs.old.items }
    requires run { IsRun run }
    requires behind { BeginFrom (end_of run) (drop at runs.old.items) }
    ensures within { at ≤ vec_len runs.new }
    ensures front { take at runs.new.items ≡ take at runs.old.items }
    ensures joined { AreRuns (result ∷ drop at runs.new.items) }
    ensures places { SamePlaces (run ∷ drop at runs.old.items) (result ∷ drop at runs.new.items) }
    ensures page { result.page ≡ run.page }
    ensures len { vec_len runs.new ≤ vec_len runs.old }
    ensures capacity { vec_capacity runs.new ≡ vec_capacity runs.old }
{
    if goes_on_at(&run, runs, at) {
        let next = runs.remove(at);
        return run.with(&next);
    }
    run
}

/// Whether a run continues where the one before the place ends.
fn goes_on_before(runs: &[Run], at: usize, run: &Run) -> bool
    requires runs { AreRuns (take at runs.now) }
    requires within { at ≤ length runs.now }
    ensures { result ≡ goes_on_last (take at runs.now) run.now }
{
    match at.checked_sub(1) {
        Some(before) => runs[before].goes_on(run),
        None => false,
    }
}

/// Joins the run at the place with another one that continues it.
fn extend(runs: &mut Vec<Run>, at: usize, next: &Run)
    requires within { at < vec_len runs.old }
    requires front { AreRuns (take (at + 1) runs.old.items) }
    requires back { AreRuns (next.now ∷ drop (at + 1) runs.old.items) }
    requires goes_on { goes_on_last (take (at + 1) runs.old.items) next.now ≡ true }
    ensures runs { AreRuns runs.new.items }
    ensures places { SamePlaces (take (at + 1) runs.old.items ++ next.now
        ∷ drop (at + 1) runs.old.items) runs.new.items }
    ensures len { vec_len runs.new ≡ vec_len runs.old }
{
    let run = runs[at].with(next);
    runs[at] = run;
}

/// Inserts a run at the place, or joins it to the run before the place if it continues that one.
fn join_before(runs: &mut Vec<Run>, at: usize, run: &Run) -> Result<(), OutOfMemory>
    requires within { at ≤ vec_len runs.old }
    requires front { AreRuns (take at runs.old.items) }
    requires before { EndUpTo run.now.page (take at runs.old.items) }
    requires back { AreRuns (run.now ∷ drop at runs.old.items) }
    ensures runs { OnOk result (AreRuns runs.new.items) }
    ensures places { OnOk result (SamePlaces
        (take at runs.old.items ++ run.now ∷ drop at runs.old.items) runs.new.items) }
    ensures len { vec_len runs.new ≤ vec_len runs.old + 1 }
    ensures room { vec_len runs.old < vec_capacity runs.old → IsOk result }
{
    if goes_on_before(runs, at, run) {
        extend(runs, at - 1, run);
        return Ok(());
    }
    insert_run(runs, at, run)
}

/// Puts a run before those from the place on.
fn place_run(runs: &mut Vec<Run>, at: usize, run: Run) -> Result<(), OutOfMemory>
    requires within { at ≤ vec_len runs.old }
    requires runs { AreRuns runs.old.items }
    requires run { IsRun run }
    requires before { EndUpTo run.page (take at runs.old.items) }
    requires behind { BeginFrom (end_of run) (drop at runs.old.items) }
    ensures runs { OnOk result (AreRuns runs.new.items) }
    ensures places { OnOk result (PutsRun run runs.old.items runs.new.items) }
    ensures room { vec_len runs.old < vec_capacity runs.old → IsOk result }
{
    let run = join_next(runs, at, run);
    join_before(runs, at, &run)
}

/// Puts a page at a home, or keeps it as a hole.
fn put_page(runs: &mut Vec<Run>, page: u32, first: RunPlace) -> Result<(), OutOfMemory>
    requires runs { AreRuns runs.old.items }
    requires absent { place_of runs.old.items page ≡ Absent }
    requires small { page < FILE_PAGES }
    ensures runs { OnOk result (AreRuns runs.new.items) }
    ensures places { OnOk result (ChangesPlace page (placed first) runs.old.items runs.new.items) }
    ensures room { vec_len runs.old < vec_capacity runs.old → IsOk result }
{
    let at = count_up_to(runs, page);
    place_run(runs, at, Run::one(page, first))
}

/// Whether the run before the place ends at the page or before it.
fn ends_before(runs: &[Run], at: usize, page: u32) -> bool
    requires runs { AreRuns runs.now }
    requires within { at ≤ length runs.now }
    ensures { IsTrue result ↔ EndUpTo page (take at runs.now) }
{
    match at.checked_sub(1) {
        Some(before) => runs[before].end() <= page,
        None => true,
    }
}

/// Puts the pages of a run at its places. Returns false if and only if one of them is already there
/// or kept, and then nothing has changed.
fn put_run(runs: &mut Vec<Run>, run: &Run) -> Result<bool, OutOfMemory>
    requires runs { AreRuns runs.old.items }
    requires run { IsRun run.now }
    ensures runs { OnOk result (AreRuns runs.new.items) }
    ensures free { IfOk result (λ put. IsTrue put ↔ IsFree run.now runs.old.items) }
    ensures places { IfOk result (λ put. IsTrue put
        → PutsRun run.now runs.old.items runs.new.items) }
    ensures taken { IfOk result (λ put. put ≡ false → runs.new.items ≡ runs.old.items) }
    ensures room { vec_len runs.old < vec_capacity runs.old → IsOk result }
{
    let at = count_before(runs, run.end());
    if ends_before(runs, at, run.page) {
        let Run { page, count, first } = *run;
        place_run(runs, at, Run { page, count, first })?;
        return Ok(true);
    }
    Ok(false)
}

/// Inserts, right after a run, its pages from the one on that is `offset` pages after its first.
fn put_rest(runs: &mut Vec<Run>, at: usize, offset: u32) -> Result<(), OutOfMemory>
    requires within { at < vec_len runs.old }
    requires run { (d : RunOf) → IsRun (slice_index_or runs.old.items at d) }
    requires page { (d : RunOf) → offset < (slice_index_or runs.old.items at d).count }
    ensures ok { (d : RunOf) → OnOk result (runs.new.items ≡ take (at + 1) runs.old.items
        ++ rest_from offset (slice_index_or runs.old.items at d) ∷ drop (at + 1) runs.old.items) }
    ensures err { OnErr result (runs.new.items ≡ runs.old.items) }
    ensures len { vec_len runs.old ≤ vec_len runs.new }
    ensures longer { vec_len runs.new ≤ vec_len runs.old + 1 }
    ensures capacity { vec_capacity runs.old ≤ vec_capacity runs.new }
    ensures room { vec_len runs.old < vec_capacity runs.old → IsOk result }
{
    let rest = runs[at].behind(offset);
    insert_run(runs, at + 1, &rest)
}

/// Leaves only the first `count` pages of a run.
fn keep_front(runs: &mut Vec<Run>, at: usize, count: u32)
    requires within { at < vec_len runs.old }
    ensures items { (d : RunOf) → runs.new.items ≡ take at runs.old.items
        ++ front_piece count (slice_index_or runs.old.items at d) ++ drop (at + 1) runs.old.items }
    ensures len { vec_len runs.new ≤ vec_len runs.old }
    ensures capacity { vec_capacity runs.new ≡ vec_capacity runs.old }
{
    if 0 < count {
        let front = runs[at].front(count);
        runs[at] = front;
    } else {
        runs.remove(at);
    }
}

/// Takes off the page that stands `offset` pages after the first of a run. After an error nothing
/// has changed.
fn cut_run(runs: &mut Vec<Run>, at: usize, offset: u32) -> Result<(), OutOfMemory>
    requires runs { AreRuns runs.old.items }
    requires within { at < vec_len runs.old }
    requires page { (d : RunOf) → offset < (slice_index_or runs.old.items at d).count }
    ensures runs { OnOk result (AreRuns runs.new.items) }
    ensures places { (d : RunOf) → OnOk result (ChangesPlace
        ((slice_index_or runs.old.items at d).page + offset) Absent runs.old.items runs.new.items) }
    ensures len { vec_len runs.new ≤ vec_len runs.old + 1 }
    ensures capacity { vec_capacity runs.old ≤ vec_capacity runs.new }
    ensures room { vec_len runs.old < vec_capacity runs.old → IsOk result }
    ensures err { OnErr result (runs.new.items ≡ runs.old.items) }
{
    if runs[at].count - 1 == offset {
        keep_front(runs, at, offset);
        return Ok(());
    }
    put_rest(runs, at, offset + 1)?;
    keep_front(runs, at, offset);
    Ok(())
}

/// Takes a page off, and returns the home that it had, if any. After an error nothing has changed.
fn cut_page(runs: &mut Vec<Run>, page: u32) -> Result<Option<Home>, OutOfMemory>
    requires { AreRuns runs.old.items }
    ensures runs { OnOk result (AreRuns runs.new.items) }
    ensures places { OnOk result (ChangesPlace page Absent runs.old.items runs.new.items) }
    ensures home { IfOk result (λ home. home ≡ home_at (place_of runs.old.items page)) }
    ensures len { vec_len runs.new ≤ vec_len runs.old + 1 }
    ensures capacity { vec_capacity runs.old ≤ vec_capacity runs.new }
    ensures room { vec_len runs.old < vec_capacity runs.old → IsOk result }
    ensures err { OnErr result (runs.new.items ≡ runs.old.items) }
{
    let Some(at) = find(runs, page) else {
        return Ok(None);
    };
    let run = runs[at];
    let offset = page - run.page;
    let place = run.place(offset);
    cut_run(runs, at, offset)?;
    Ok(place.home())
}

/// Takes the pages from one on off the last run before the place, and puts them at the front of the
/// tail. After an error nothing has changed.
fn move_rest(
    runs: &mut Vec<Run>,
    at: usize,
    from: u32,
    tail: &mut Vec<Run>,
) -> Result<(), OutOfMemory>
    requires runs { AreRuns runs.old.items }
    requires within { at ≤ vec_len runs.old }
    requires front { BeginBefore from (take at runs.old.items) }
    requires back { BeginFrom from tail.old.items }
    requires tail { tail.old.items ≡ drop at runs.old.items }
    ensures parts { OnOk result (IsPartedAt from runs.old.items
        (take at runs.new.items) tail.new.items) }
    ensures err { OnErr result (runs.new.items ≡ runs.old.items) }
{
    let Some(before) = at.checked_sub(1) else {
        return Ok(());
    };
    let run = runs[before];
    if from < run.end() {
        let offset = from - run.page;
        insert_run(tail, 0, &run.behind(offset))?;
        runs[before] = run.front(offset);
    }
    Ok(())
}

impl ExtentMap {
    /// A map without pages.
    pub fn new(alloc: Global) -> ExtentMap
        ensures { result ≡ [] }
    {
        ExtentMap {
            runs: Vec::new(alloc),
        }
    }

    /// Where a page is. Looks at only as many runs as halving takes.
    pub fn home_of(&self, page: u32) -> PagePlace
        ensures { result ≡ place_of self.now page }
    {
        let Some(at) = find(&self.runs, page) else {
            return PagePlace::Absent;
        };
        let run = self.runs[at];
        run.place(page - run.page)
    }

    /// Puts a page at a home. After an error nothing has changed.
    pub fn put(&mut self, page: u32, home: Home) -> Result<(), OutOfMemory>
        requires absent { place_of self.old page ≡ Absent }
        requires small { page < FILE_PAGES }
        ensures ok { OnOk result (ChangesPlace page (At home) self.old self.new) }
        ensures err { OnErr result (self.new ≡ self.old) }
    {
        self.runs.reserve(1)?;
        put_page(&mut self.runs, page, RunPlace::At(home))
    }

    /// Keeps a page as a hole. After an error nothing has changed.
    pub fn keep_hole(&mut self, page: u32) -> Result<(), OutOfMemory>
        requires absent { place_of self.old page ≡ Absent }
        requires small { page < FILE_PAGES }
        ensures ok { OnOk result (ChangesPlace page Hole self.old self.new) }
        ensures err { OnErr result (self.new ≡ self.old) }
    {
        self.runs.reserve(1)?;
        put_page(&mut self.runs, page, RunPlace::Holes)
    }

    /// Puts the pages of a run at its places. Returns false if and only if one of them is already
    /// there or kept, and then nothing has changed. After an error nothing has changed.
    pub fn put_run(&mut self, run: &Run) -> Result<bool, OutOfMemory>
        requires { IsRun run.now }
        ensures free { IfOk result (λ put. IsTrue put ↔ IsFree run.now self.old) }
        ensures places { IfOk result (λ put. IsTrue put → PutsRun run.now self.old self.new) }
        ensures taken { IfOk result (λ put. put ≡ false → self.new ≡ self.old) }
        ensures err { OnErr result (self.new ≡ self.old) }
    {
        self.runs.reserve(1)?;
        put_run(&mut self.runs, run)
    }

    /// Takes a page off, and returns the home that it had, if any. A page in the middle of a run
    /// leaves two runs. After an error nothing has changed.
    pub fn cut(&mut self, page: u32) -> Result<Option<Home>, OutOfMemory>
        ensures ok { OnOk result (ChangesPlace page Absent self.old self.new) }
        ensures home { IfOk result (λ home. home ≡ home_at (place_of self.old page)) }
        ensures err { OnErr result (self.new ≡ self.old) }
    {
        cut_page(&mut self.runs, page)
    }

    /// Moves a page that has a home to another one, and returns the old one. After an error nothing
    /// has changed.
    pub fn switch(&mut self, page: u32, home: Home) -> Result<Home, OutOfMemory>
        requires there { IsSome (home_at (place_of self.old page)) }
        ensures ok { OnOk result (ChangesPlace page (At home) self.old self.new) }
        ensures old { IfOk result (λ old. place_of self.old page ≡ At old) }
        ensures err { OnErr result (self.new ≡ self.old) }
    {
        self.runs.reserve(2)?;
        let Some(old) = cut_page(&mut self.runs, page)? else {
            return Err(OutOfMemory);
        };
        put_page(&mut self.runs, page, RunPlace::At(home))?;
        Ok(old)
    }

    /// Takes off all pages from one on, as a map of their own. After an error nothing has changed.
    pub fn split_tail(&mut self, alloc: Global, from: u32) -> Result<ExtentMap, OutOfMemory>
        ensures ok { IfOk result (λ tail. IsPartedAt from self.old self.new tail) }
        ensures err { OnErr result (self.new ≡ self.old) }
    {
        let at = count_before(&self.runs, from);
        let mut tail = Vec::from_slice(alloc, &self.runs[at..])?;
        move_rest(&mut self.runs, at, from, &mut tail)?;
        self.runs.truncate(at);
        Ok(ExtentMap { runs: tail })
    }

    /// Its runs in the order of their pages, each as long as it can be.
    pub fn runs(&self) -> &[Run]
        ensures runs { result.now ≡ self.now }
        ensures longest { AreRuns self.now }
    {
        self.runs.as_slice()
    }
}
