//! What steps leave as it was in the free space, and what waits there after them.
ghost use Rattle.std.specs.Prelude.{◌≤◌, ◌⊎◌, ℕ, Contains};
ghost use Rattle.release_list.specs.domain_base.declared.place.Home.{Home};
ghost use Rattle.release_list.specs.domain_base.declared.version.Version.{Version};
ghost use Rattle.release_list.specs.free_space.declared.waiting.PageUse.{PageUse};
ghost use Rattle.release_list.specs.free_space.declared.waiting.PageUse.TheVariants.{Metadata};
ghost use Rattle.release_list.specs.free_space.declared.waiting.Waiting.{Waiting};
ghost use Rattle.release_list.specs.Steps.{IsWell, Now, Steps};
ghost use Rattle.release_steps.specs.Waits.{IsLetGo, Waits, WaitsSince, waiting_at};

/// A page that waits still waits, with the same use and for the same group.
pub fn pages_wait_on()
    ensures { (group : ℕ) (version : Version) (first : Now) (count : ℕ) (last : Now)
        → Steps group version first count last → (vol : ℕ) (page : Waiting)
        → Waits first.space vol page → Waits last.space vol page }
{}

/// A page that a file had and no file has any more waits for the steps' group: as metadata if it
/// was a page of a directory, or of a file whose data is logged, else as data.
pub fn pages_let_go_wait()
    ensures { (group : ℕ) (version : Version) (first : Now) (count : ℕ) (last : Now)
        → IsWell first → Steps group version first count last → (home : Home) (kind : PageUse)
        → IsLetGo first last home kind
        → Waits last.space home.vol (waiting_at home kind group) }
{}

/// A page of a tag directory that was on the list and no longer is waits for the steps' group, as
/// metadata.
pub fn pages_taken_off_wait()
    ensures { (group : ℕ) (version : Version) (first : Now) (count : ℕ) (last : Now)
        → IsWell first → Steps group version first count last → (home : Home)
        → Contains first.list.tag_pages home → ¬ Contains last.list.tag_pages home
        → Waits last.space home.vol (waiting_at home Metadata group) }
{}

/// No other page waits: each waiting page waited before, with the same use and for the same group,
/// or was let go since, and waits with its use for the steps' group.
pub fn only_pages_let_go_wait()
    ensures { (group : ℕ) (version : Version) (first : Now) (count : ℕ) (last : Now)
        → IsWell first → Steps group version first count last → (vol : ℕ) (page : Waiting)
        → 1 ≤ vol → Waits last.space vol page
        → Waits first.space vol page ⊎ WaitsSince group first last vol page }
{}
