//! Changes of the pages of an index.
ghost use Rattle.std.specs.Prelude.{◌≡◌, ◌+◌, ◌^◌, ◌<◌, ◌≤◌, ℕ, Contains, IfErr, IfOk, IfSome, List, OnErr, Some, length};
ghost use Rattle.file_release.specs.domain_base.declared.place.Home.{Home as HomeOf};
ghost use Rattle.file_release.specs.free_space.VolumeSpace.{with_page, with_waiting};
ghost use Rattle.file_release.specs.free_space.Spaces.{CanTake, IsHeld, change_volume};
ghost use Rattle.file_release.specs.free_space.declared.waiting.PageUse.TheVariants.{Metadata};
ghost use Rattle.index_pages.specs.Changes.{AreHeld, DropsIndex, DropsIndexPage, FindsNoPage, InsertsIndexPage, PutsIndexPage, first_with, home_in_front};
ghost use Rattle.index_pages.specs.Homes.{AreIndexHomes, HasIndexHomes, HasIndexPageAt};
ghost use Rattle.index_pages.specs.Links.{LeadsOn, LinksIn, next_behind};

use crate::link::{link_page, next_bytes};
use crate::walk::{count_index, index_home, next_home};
use file_release::{FreeSpace, Home, MetaPages, Page, PageUse, StoreFault, VolIx};
use std::alloc::Global;

/// A page that joined an index: where it stands, and where the index then begins.
#[derive(Clone, Copy, Debug, PartialEq, Eq)]
pub struct NewIndexPage {
    pub home: Home,
    pub first: Home,
}

/// Puts these bytes in place of an index's page, counted from 0. Where the next page stands is as
/// it was, whatever the bytes say of it. Takes no memory.
pub fn put_index_page<M: MetaPages>(pages: &mut M, first: Home, number: u32, bytes: Page)
    requires { (homes : List HomeOf) × AreIndexHomes (M.pages pages.old) (Some first) homes
        × (number < length homes) }
    ensures put { (homes : List HomeOf) → AreIndexHomes (M.pages pages.old) (Some first) homes
        → PutsIndexPage (Some first) number bytes (M.pages pages.old) (M.pages pages.new) homes }
    ensures room { M.room pages.new ≡ M.room pages.old }
    ensures before { M.before pages.new ≡ M.before pages.old }
{
    if let Some(home) = index_home(pages, Some(first), number) {
        let next = next_home(pages, &home);
        pages.put(home, link_page(bytes, &next));
    }
}

/// The home of the page before a place of an index. Returns None at its beginning.
fn home_before<M: MetaPages>(pages: &M, first: &Option<Home>, number: u32) -> Option<Home>
    requires { HasIndexHomes (M.pages pages.now) first.now }
    ensures { (homes : List HomeOf) → AreIndexHomes (M.pages pages.now) first.now homes
        → result ≡ home_in_front number homes }
{
    if number == 0 {
        return None;
    }
    index_home(pages, *first, number - 1)
}

/// The home of the page after another one, or of the first.
fn home_behind<M: MetaPages>(pages: &M, first: &Option<Home>, before: &Option<Home>) -> Option<Home>
    requires { IfSome before.now (HasIndexPageAt (M.pages pages.now)) }
    ensures { result ≡ next_behind (M.pages pages.now) first.now before.now }
{
    match before {
        Some(home) => next_home(pages, home),
        None => *first,
    }
}

/// Makes the page that stands there name another one as the next.
fn lead_on<M: MetaPages>(pages: &mut M, before: &Option<Home>, next: &Home)
    requires { IfSome before.now (HasIndexPageAt (M.pages pages.old)) }
    ensures leads { LeadsOn before.now next.now (M.pages pages.old) (M.pages pages.new) }
    ensures room { M.room pages.new ≡ M.room pages.old }
    ensures before { M.before pages.new ≡ M.before pages.old }
{
    if let Some(home) = before {
        pages.set(*home, 8, &next_bytes(&Some(*next)));
    }
}

/// Links a page in after another one of an index, or before all.
fn link_in<M: MetaPages>(
    pages: &mut M,
    first: &Option<Home>,
    before: &Option<Home>,
    bytes: Page,
    onto: &Home,
)
    requires room { 0 < M.room pages.old }
    requires behind { IfSome before.now (HasIndexPageAt (M.pages pages.old)) }
    requires apart { ¬ before.now ≡ Some onto.now }
    ensures links { LinksIn first.now before.now onto.now bytes (M.pages pages.old)
        (M.pages pages.new) }
    ensures room { M.room pages.old ≤ M.room pages.new + 1 }
    ensures before { M.before pages.new ≡ M.before pages.old }
{
    let next = home_behind(pages, first, before);
    pages.put(*onto, link_page(bytes, &next));
    lead_on(pages, before, onto);
}

/// Where an index begins once its page of a number is a new one.
pub fn new_first(first: &Option<Home>, number: u32, onto: &Home) -> Home
    ensures { result ≡ first_with onto.now number first.now }
{
    match first {
        Some(home) if number > 0 => *home,
        _ => *onto,
    }
}

/// Puts a page with these bytes at a home that no page of an index has, before the page of the
/// index with that number, counted from 0, or after the last one. Returns where the index then
/// begins. Where the next page stands is the index's own, whatever the bytes say of it. Takes no
/// memory.
pub fn link_index_page<M: MetaPages>(
    pages: &mut M,
    first: Option<Home>,
    number: u32,
    bytes: Page,
    home: Home,
) -> Home
    requires index { (homes : List HomeOf) × AreIndexHomes (M.pages pages.old) first homes
        × (number ≤ length homes) × ¬ Contains homes home }
    requires room { 0 < M.room pages.old }
    ensures inserted { (homes : List HomeOf) → AreIndexHomes (M.pages pages.old) first homes
        → InsertsIndexPage result home number bytes (M.pages pages.old) (M.pages pages.new) homes }
    ensures begins { result ≡ first_with home number first }
    ensures room { M.room pages.old ≤ M.room pages.new + 1 }
    ensures before { M.before pages.new ≡ M.before pages.old }
{
    let before = home_before(pages, &first, number);
    link_in(pages, &first, &before, bytes, &home);
    new_first(&first, number, &home)
}

/// Puts a page with these bytes on a free page, of the preferred volume if that has one, before the
/// page of an index with that number, counted from 0, or after the last one. Where the next page
/// stands is the index's own, whatever the bytes say of it. NoPage is returned only if no page is
/// free, and is a miss. After an error the pages are as they were.
pub fn insert_index_page<M: MetaPages>(
    alloc: Global,
    pages: &mut M,
    space: &mut FreeSpace,
    first: Option<Home>,
    number: u32,
    bytes: Page,
    prefer: VolIx,
) -> Result<NewIndexPage, StoreFault>
    requires index { (homes : List HomeOf) × AreIndexHomes (M.pages pages.old) first homes
        × (number ≤ length homes) × AreHeld space.old homes }
    ensures inserted { (homes : List HomeOf) → AreIndexHomes (M.pages pages.old) first homes
        → IfOk result (λ made. InsertsIndexPage made.first made.home number bytes
        (M.pages pages.old) (M.pages pages.new) homes) }
    ensures begins { IfOk result (λ made. made.first ≡ first_with made.home number first) }
    ensures free { IfOk result (λ made. CanTake space.old made.home.vol made.home.page) }
    ensures taken { IfOk result (λ made. space.new
        ≡ change_volume (with_page made.home.page) space.old made.home.vol) }
    ensures preferred { IfOk result (λ made. (p : ℕ) → CanTake space.old prefer p
        → made.home.vol ≡ prefer) }
    ensures err { IfErr result (FindsNoPage space.old space.new) }
    ensures pages { OnErr result (M.pages pages.new ≡ M.pages pages.old) }
    ensures room { M.room pages.old ≤ M.room pages.new + 1 }
    ensures before { M.before pages.new ≡ M.before pages.old }
{
    pages.reserve(alloc, 1)?;
    let Some(home) = space.allocate(prefer) else {
        return Err(StoreFault::NoPage);
    };
    let again = home;
    let begins = link_index_page(pages, first, number, bytes, again);
    Ok(NewIndexPage {
        home,
        first: begins,
    })
}

/// Takes the first page off an index, and returns where it then begins, or None if it has no page
/// any more. The page waits until the log has passed this group. Takes no memory.
pub fn drop_index_page<M: MetaPages>(
    pages: &mut M,
    space: &mut FreeSpace,
    first: Home,
    group: u64,
) -> Option<Home>
    requires index { HasIndexHomes (M.pages pages.old) (Some first) }
    requires held { IsHeld space.old first.vol first.page }
    ensures dropped { (homes : List HomeOf) → AreIndexHomes (M.pages pages.old) (Some first) homes
        → DropsIndexPage first result (M.pages pages.old) (M.pages pages.new) homes }
    ensures waits { space.new ≡ change_volume (with_waiting (record {
      page = first.page;
      kind = Metadata;
      group = group;
    })) space.old first.vol }
    ensures room { M.room pages.old ≤ M.room pages.new }
    ensures before { M.before pages.new ≡ M.before pages.old }
{
    let next = next_home(pages, &first);
    space.give_back(first, PageUse::Metadata, group);
    pages.forget(first);
    next
}

/// Takes all pages off an index of fewer than 2^32. Each waits until the log has passed this group.
/// Takes no memory.
pub fn drop_index<M: MetaPages>(pages: &mut M, space: &mut FreeSpace, first: Home, group: u64)
    requires index { (homes : List HomeOf) × AreIndexHomes (M.pages pages.old) (Some first) homes
        × (length homes < 2 ^ 32) × AreHeld space.old homes }
    ensures dropped { (homes : List HomeOf) → AreIndexHomes (M.pages pages.old) (Some first) homes
        → DropsIndex group space.old space.new (M.pages pages.old) (M.pages pages.new) homes }
    ensures room { M.room pages.old ≤ M.room pages.new }
    ensures before { M.before pages.new ≡ M.before pages.old }
{
    let again = first;
    let count = count_index(pages, Some(again));
    let mut home = Some(first);
    for _ in 0..count {
        let Some(here) = home else {
            return;
        };
        home = drop_index_page(pages, space, here, group);
    }
}
