//! Pages of one run of a map.
ghost use Rattle.std.specs.Prelude.{◌≡◌, ◌∷◌, ◌<◌, ◌≤◌, [], ℕ};
ghost use Rattle.fileset_files.specs.extent_maps.declared.run.PagePlace.TheVariants.{At};
ghost use Rattle.fileset_files.specs.extent_maps.declared.run.RunPlace.TheVariants as place;
ghost use Rattle.fileset_files.specs.extent_maps.Runs.{IsRun, end_of, place_of};

use fileset_files::{Home, Run};

/// The first page that a run can have from one on.
pub(crate) fn first_page(run: &Run, from: u32) -> u32
    ensures run { run.now.page ≤ result }
    ensures begins { from ≤ result }
    ensures least { (page : ℕ) → run.now.page ≤ page → from ≤ page → result ≤ page }
{
    run.page.max(from)
}

/// The number after the last page that a run can have before another page.
pub(crate) fn end_in_front(run: &Run, to: u32) -> u32
    requires { IsRun run.now }
    ensures run { result ≤ end_of run.now }
    ensures to { result ≤ to }
    ensures most { (page : ℕ) → page < end_of run.now → page < to → page < result }
{
    (run.page + run.count).min(to)
}

/// The home of the page of a run whose first page stands at that one.
pub(crate) fn home_in(run: &Run, first: &Home, page: u32) -> Home
    requires run { IsRun run.now }
    requires first { run.now.first ≡ place.At first.now }
    requires begins { run.now.page ≤ page }
    requires ends { page < end_of run.now }
    ensures { place_of (run.now ∷ []) page ≡ At result }
{
    Home {
        vol: first.vol,
        page: first.page + (page - run.page),
    }
}
