//! Pages of metadata by their homes.
ghost use Rattle.std.specs.Prelude.{◌≡◌, ◌⊎◌, ◌+◌, ◌-◌, ◌<◌, ◌≤◌, ℕ, List, Option, is_some, if◌then◌else◌, IsSome, IsSomeAnd, OnOk, length};
ghost use Rattle.std.specs.Option.{option_copied};
ghost use Rattle.sorted_sets.specs.domain_base.Limits.{page_bytes};
ghost use Rattle.sorted_sets.specs.domain_base.Page.{overwritten};
ghost use Rattle.sorted_sets.specs.domain_base.declared.place.Home.{Home};
ghost use Rattle.page_store.specs.Pages.{Pages, AreWhole, with_page, without_page};

use sorted_sets::{Home, OutOfMemory, Page};
use std::alloc::Global;

/// A finite map from home to page, with room for more pages. Changing a page in place, or
/// forgetting it, takes no memory.
pub trait MetaPages {
    /// The page at each home.
    ghost pages: { Self → Pages };

    /// How many more homes there is room for.
    ghost room: { Self → ℕ };

    /// The page that stood at each home before a change that can be taken back. No call changes it.
    ghost before: { Self → Pages };

    /// The page at a home, if one is there.
    fn get(&self, home: Home) -> Option<&Page>
        ensures { option_copied result ≡ pages self.now home };

    /// Takes room for `more` homes more. After an error nothing has changed.
    fn reserve(&mut self, alloc: Global, more: usize) -> Result<(), OutOfMemory>
        ensures same { pages self.new ≡ pages self.old }
        ensures enough { OnOk result (more ≤ room self.new) }
        ensures kept { room self.old ≤ room self.new }
        ensures before { before self.new ≡ before self.old };

    /// How many more homes there is room for.
    fn spare(&self) -> usize
        ensures { result ≡ room self.now };

    /// Puts a page at a home, in place of any that is there. A new home uses up the room for one.
    fn put(&mut self, home: Home, page: Page)
        requires { (0 < room self.old) ⊎ IsSome (pages self.old home) }
        ensures value { pages self.new ≡ with_page home page (pages self.old) }
        ensures left { room self.new ≡
            (if is_some (pages self.old home) then room self.old else room self.old - 1) }
        ensures before { before self.new ≡ before self.old };

    /// Writes these bytes into the page that stands at a home, from byte `at` on, and leaves all
    /// others.
    fn set(&mut self, home: Home, at: usize, bytes: &[u8])
        requires there { IsSome (pages self.old home) }
        requires fits { at + length bytes.now ≤ page_bytes }
        ensures value { IsSomeAnd (pages self.old home) (λ page. pages self.new
            ≡ with_page home (overwritten page at bytes.now) (pages self.old)) }
        ensures left { room self.new ≡ room self.old }
        ensures before { before self.new ≡ before self.old };

    /// Forgets the page that stands at a home.
    fn forget(&mut self, home: Home)
        ensures value { pages self.new ≡ without_page home (pages self.old) }
        ensures left { room self.old ≤ room self.new }
        ensures before { before self.new ≡ before self.old };

    /// A page has 8,192 bytes.
    ghost whole: { (store : Self) → AreWhole (pages store) };
}
