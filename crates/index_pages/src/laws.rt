//! Laws of indexes.
ghost use Rattle.std.specs.Prelude.{◌≡◌, ℕ, List, Option, Contains, insert};
ghost use Rattle.file_release.specs.domain_base.declared.place.Home.{Home};
ghost use Rattle.file_release.specs.fileset_files.Shown.{AreIndexPages};
ghost use Rattle.file_release.specs.page_store.Pages.{Pages};
ghost use Rattle.file_release.specs.free_space.VolumeSpace.{with_page};
ghost use Rattle.file_release.specs.free_space.Spaces.{CanTake, Spaces, change_volume};
ghost use Rattle.index_pages.specs.Changes.{AreHeld};
ghost use Rattle.index_pages.specs.Homes.{AreIndexHomes, shown_at};

/// A set that shows a directory shows the pages of its index, if they stand at these homes.
pub fn index_is_shown()
    ensures { (pages : Pages) (first : Option Home) (homes : List Home)
        → AreIndexHomes pages first homes → AreIndexPages pages first (shown_at pages homes) }
{}

/// An index stays if none of its pages changes.
pub fn index_stays()
    ensures { (old new : Pages) (first : Option Home) (homes : List Home)
        → AreIndexHomes old first homes
        → ((home : Home) → Contains homes home → new home ≡ old home)
        → AreIndexHomes new first homes × (shown_at new homes ≡ shown_at old homes) }
{}

/// If the pages of an index are used, all its pages still are after it gets one more page, which
/// was free.
pub fn index_is_held()
    ensures { (space : Spaces) (homes : List Home) (number : ℕ) (home : Home) → AreHeld space homes
        → CanTake space home.vol home.page
        → AreHeld (change_volume (with_page home.page) space home.vol) (insert homes number home) }
{}
