//! The pages of an index, one after another.
ghost use Rattle.std.specs.Prelude.{◌≡◌, ◌-◌, ◌^◌, ℕ, List, length, min, slice_get};
ghost use Rattle.file_release.specs.domain_base.declared.place.Home.{Home as HomeOf};
ghost use Rattle.index_pages.specs.Homes.{AreIndexHomes, HasIndexHomes, HasIndexPageAt, next_at};

use crate::link::read_next;
use file_release::{Home, MetaPages};

/// The home of the page after the one that stands there.
pub(crate) fn next_home<M: MetaPages>(pages: &M, home: &Home) -> Option<Home>
    requires { HasIndexPageAt (M.pages pages.now) home.now }
    ensures { result ≡ next_at (M.pages pages.now) home.now }
{
    read_next(pages.get(*home)?)
}

/// The home of a page of an index that begins at this home, counted from 0. Returns None if and
/// only if the index has no such page.
pub fn index_home<M: MetaPages>(pages: &M, first: Option<Home>, number: u32) -> Option<Home>
    requires { HasIndexHomes (M.pages pages.now) first }
    ensures { (homes : List HomeOf) → AreIndexHomes (M.pages pages.now) first homes
        → result ≡ slice_get homes number }
{
    let mut home = first;
    for _ in 0..number {
        let Some(here) = home else {
            return None;
        };
        home = next_home(pages, &here);
    }
    home
}

/// How many pages an index that begins at this home has, up to 2^32 - 1.
pub fn count_index<M: MetaPages>(pages: &M, first: Option<Home>) -> u32
    requires { HasIndexHomes (M.pages pages.now) first }
    ensures { (homes : List HomeOf) → AreIndexHomes (M.pages pages.now) first homes
        → result ≡ min (length homes) (2 ^ 32 - 1) }
{
    let mut home = first;
    for count in 0..u32::MAX {
        let Some(here) = home else {
            return count;
        };
        home = next_home(pages, &here);
    }
    u32::MAX
}
