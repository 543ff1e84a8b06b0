//! Pages of a file that are given back to the free space.
ghost use Rattle.std.specs.Prelude.{◌≡◌, ◌∷◌, ◌≤◌, [], ℕ, List};
ghost use Rattle.fileset_files.specs.domain_base.declared.place.Home.{Home as HomeOf};
ghost use Rattle.fileset_files.specs.metadata_cells.Chain.{PlacedCell};
ghost use Rattle.fileset_files.specs.extent_maps.declared.run.PagePlace.TheVariants.{At};
ghost use Rattle.fileset_files.specs.extent_maps.declared.run.RunPlace.TheVariants as place;
ghost use Rattle.fileset_files.specs.extent_maps.Runs.{IsRun, place_of};
ghost use Rattle.fileset_files.specs.free_space.Spaces.{IsHeld};
ghost use Rattle.fileset_files.specs.file_chains.Files.{HasFile, IsFile};
ghost use Rattle.file_release.specs.Releases.{GivesBack, use_of as use_there};
ghost use Rattle.file_release.specs.Steps.{IsHomeFrom};

use crate::runs::{first_page, home_in};
use fileset_files::{
    CellAt, ExtentMap, FreeSpace, Home, MetaPages, PageUse, Record, Run, RunPlace, find_record,
};

/// What the pages of the file whose chain begins at that cell are used for. Those of a directory,
/// and of a file whose data is logged, are metadata.
pub(crate) fn use_of<M: MetaPages>(pages: &M, start: &CellAt) -> PageUse
    requires { HasFile (M.pages pages.now) start.now }
    ensures { (chain : List PlacedCell) → IsFile (M.pages pages.now) start.now chain
        → result ≡ use_there chain }
{
    match find_record(pages, *start, 1) {
        Some(Record::Attributes { kind, flags, .. }) if kind == 2 || flags == 1 => {
            PageUse::Metadata
        }
        _ => PageUse::Data,
    }
}

/// Gives back the pages of a run from one on. The first of the run stands at that home.
fn give_back_homes(
    space: &mut FreeSpace,
    run: &Run,
    first: &Home,
    from: u32,
    kind: PageUse,
    group: u64,
)
    requires run { IsRun run.now }
    requires first { run.now.first ≡ place.At first.now }
    requires volumes { (page : ℕ) (home : HomeOf) → place_of (run.now ∷ []) page ≡ At home
        → 1 ≤ home.vol }
    requires held { (page : ℕ) (home : HomeOf) → place_of (run.now ∷ []) page ≡ At home
        → IsHeld space.old home.vol home.page }
    requires once { (p q : ℕ) (home : HomeOf) → place_of (run.now ∷ []) p ≡ At home
        → place_of (run.now ∷ []) q ≡ At home → p ≡ q }
    ensures { GivesBack (IsHomeFrom from (place_of (run.now ∷ []))) kind group space.old
        space.new }
{
    let begin = first_page(run, from);
    for page in begin..run.page + run.count {
        space.give_back(home_in(run, first, page), kind, group);
    }
}

/// Gives back the pages of a run from one on, if it has homes.
fn give_back_run(space: &mut FreeSpace, run: &Run, from: u32, kind: PageUse, group: u64)
    requires run { IsRun run.now }
    requires volumes { (page : ℕ) (home : HomeOf) → place_of (run.now ∷ []) page ≡ At home
        → 1 ≤ home.vol }
    requires held { (page : ℕ) (home : HomeOf) → place_of (run.now ∷ []) page ≡ At home
        → IsHeld space.old home.vol home.page }
    requires once { (p q : ℕ) (home : HomeOf) → place_of (run.now ∷ []) p ≡ At home
        → place_of (run.now ∷ []) q ≡ At home → p ≡ q }
    ensures { GivesBack (IsHomeFrom from (place_of (run.now ∷ []))) kind group space.old
        space.new }
{
    match run.first {
        RunPlace::At(first) => give_back_homes(space, run, &first, from, kind, group),
        RunPlace::Holes => {}
    }
}

/// Gives back all pages of a map from one on that have homes, run by run.
pub(crate) fn give_back_from(
    space: &mut FreeSpace,
    map: &ExtentMap,
    from: u32,
    kind: PageUse,
    group: u64,
)
    requires volumes { (page : ℕ) (home : HomeOf) → place_of map.now page ≡ At home
        → 1 ≤ home.vol }
    requires held { (page : ℕ) (home : HomeOf) → place_of map.now page ≡ At home
        → IsHeld space.old home.vol home.page }
    requires once { (p q : ℕ) (home : HomeOf) → place_of map.now p ≡ At home
        → place_of map.now q ≡ At home → p ≡ q }
    ensures { GivesBack (IsHomeFrom from (place_of map.now)) kind group space.old space.new }
{
    let runs = map.runs();
    for i in 0..runs.len() {
        give_back_run(space, &runs[i], from, kind, group);
    }
}
