//! A page that a caller gives back between calls and steps.
ghost use Rattle.std.specs.Prelude.{◌≡◌, ◌≤◌, ◌⊎◌, ◌↔◌, ℕ, List, Contains, false};
ghost use Rattle.release_list.specs.domain_base.declared.place.Home.{Home};
ghost use Rattle.release_list.specs.page_store.Pages.{Pages};
ghost use Rattle.release_list.specs.tag_dirs.declared.dir.TagPlace.{TagPlace};
ghost use Rattle.release_list.specs.tag_dirs.Directory.{has_home};
ghost use Rattle.release_list.specs.free_space.declared.waiting.PageUse.{PageUse};
ghost use Rattle.release_list.specs.free_space.declared.waiting.Waiting.{Waiting};
ghost use Rattle.release_list.specs.free_space.Spaces.{IsHeld};
ghost use Rattle.release_list.specs.fileset_files.Files.{Chains};
ghost use Rattle.release_list.specs.fileset_files.Together.{AreTogether};
ghost use Rattle.release_list.specs.Steps.{IsWell, Now};
ghost use Rattle.release_steps.specs.Lists.{with_waiting_page, with_waiting_pages};
ghost use Rattle.release_steps.specs.Tags.{AreAmong};
ghost use Rattle.release_steps.specs.Waits.{StandsApart, Waits, waiting_at};

/// All files of the domain, free cells, free space and pages belong together if a held page is
/// given back that is none of cells, of a file or of the list; and the list is one of the files.
pub fn all_stays_well_where_a_page_is_given_back()
    ensures { (first : Now) (home : Home) (kind : PageUse) (group : ℕ) → IsWell first
        → StandsApart first home → IsWell (with_waiting_page home kind group first) }
{}

/// This also holds if several such pages are given back, and are no longer there or have other
/// bytes, as the pages of an index that is dropped. No other page changes.
pub fn all_stays_well_where_pages_are_given_back()
    ensures { (first : Now) (homes : List Home) (kind : PageUse) (group : ℕ) (pages : Pages)
        → IsWell first → ((home : Home) → Contains homes home → StandsApart first home)
        → ((home : Home) → ¬ Contains homes home → pages home ≡ first.pages home)
        → IsWell (with_waiting_pages homes kind group pages first) }
{}

/// The files that the tags of a fileset name also belong together if one page is given back that is
/// none of its tag directory.
pub fn tags_stay_together_where_a_page_is_given_back()
    ensures { (first : Now) (home : Home) (kind : PageUse) (group : ℕ) → IsWell first
        → StandsApart first home → (fileset : ℕ) (places : List TagPlace) (chains : Chains)
        → AreTogether fileset places first.space first.cells first.pages chains
        → AreAmong first places chains → has_home places home ≡ false
        → AreTogether fileset places (with_waiting_page home kind group first).space first.cells
        first.pages chains × AreAmong (with_waiting_page home kind group first) places chains }
{}

/// Exactly those pages are then held that were held before, except for that one.
pub fn no_other_page_is_given_back()
    ensures { (first : Now) (home : Home) (kind : PageUse) (group : ℕ) → 1 ≤ home.vol
        → IsHeld first.space home.vol home.page → (other : Home) → 1 ≤ other.vol
        → IsHeld (with_waiting_page home kind group first).space other.vol other.page
        ↔ (IsHeld first.space other.vol other.page × ¬ other ≡ home) }
{}

/// Exactly those pages then wait that waited before, and that one, with that use and for that
/// group.
pub fn a_page_that_is_given_back_waits()
    ensures { (first : Now) (home : Home) (kind : PageUse) (group : ℕ) → 1 ≤ home.vol
        → IsHeld first.space home.vol home.page → (vol : ℕ) (page : Waiting) → 1 ≤ vol
        → Waits (with_waiting_page home kind group first).space vol page
        ↔ (Waits first.space vol page
        ⊎ ((vol ≡ home.vol) × (page ≡ waiting_at home kind group))) }
{}
