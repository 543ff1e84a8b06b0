//! Pages of indexes that cannot be pages of one, are not well formed, or are another's, too.
ghost use Rattle.std.specs.Prelude.{◌≡◌, ◌⊎◌, ◌↔◌, IfOk, IsTrue, OnOk, Some, Contains};
ghost use Rattle.tag_faults.specs.domain_base.declared.place.Home.{Home};
ghost use Rattle.tag_faults.specs.domain_layout.DirectoryRules.{IsGoodIndexPage, IsWrongIndexPage};
ghost use Rattle.tag_faults.specs.page_ways.Frame.{frame_in};
ghost use Rattle.tag_faults.specs.sorted_sets.Members.{IsIn};
ghost use Rattle.page_faults.specs.Indexes.{AreIndexes};
ghost use Rattle.page_faults.specs.Shared.{HasPage, IsFaultBehind, IsWrongAt};

use crate::indexes::{IndexAt, read_indexes};
use std::alloc::Global;
use tag_faults::{
    DomainFrame, Home, HomeSet, IndexWay, MetaPages, OutOfMemory, Page, read_links, read_pages,
    read_tables, u32_at,
};

/// Whether a page is a well-formed page of an index, and leads to no page, or to one on a volume
/// that may exist.
pub fn is_good_page(page: &Page) -> bool
    ensures { IsTrue result ↔ IsGoodIndexPage page.now }
{
    let bytes = page.bytes();
    u32_at(bytes, 0) == 0x5852_4944 && u32_at(bytes, 4) <= 1022 && u32_at(bytes, 8) <= 8
}

/// Whether the page at a home is not well formed, or is one of some earlier index.
fn is_wrong_at<M: MetaPages>(pages: &M, home: &Home, earlier: &HomeSet) -> bool
    ensures { IsTrue result ↔ IsWrongAt (M.pages pages.now) (IsIn earlier.now) home.now }
{
    if earlier.has(home) {
        return true;
    }
    match pages.get(*home) {
        Some(page) => !is_good_page(page),
        None => false,
    }
}

/// Puts a home into a set, if the page there is not well formed, or is one of some earlier index.
fn insert_wrong<M: MetaPages>(
    pages: &M,
    home: &Home,
    earlier: &HomeSet,
    found: &mut HomeSet,
) -> Result<(), OutOfMemory>
    ensures { OnOk result ((other : Home) → IsIn found.new other ↔ (IsIn found.old other
        ⊎ ((home.now ≡ other) × IsWrongAt (M.pages pages.now) (IsIn earlier.now) home.now))) }
{
    if is_wrong_at(pages, home, earlier) {
        found.insert(home)?;
    }
    Ok(())
}

/// Puts into a set those of the homes at which a page is not well formed, or is one of some earlier
/// index.
fn insert_all_wrong<M: MetaPages>(
    pages: &M,
    homes: &[Home],
    earlier: &HomeSet,
    found: &mut HomeSet,
) -> Result<(), OutOfMemory>
    ensures { OnOk result ((home : Home) → IsIn found.new home ↔ (IsIn found.old home
        ⊎ (Contains homes.now home × IsWrongAt (M.pages pages.now) (IsIn earlier.now) home))) }
{
    for home in homes {
        insert_wrong(pages, home, earlier, found)?;
    }
    Ok(())
}

/// Puts a home into a set, if there is one.
fn insert_one(one: &Option<Home>, found: &mut HomeSet) -> Result<(), OutOfMemory>
    ensures { OnOk result ((home : Home) → IsIn found.new home ↔ (IsIn found.old home
        ⊎ (one.now ≡ Some home))) }
{
    if let Some(home) = one {
        found.insert(home)?;
    }
    Ok(())
}

/// Looks at an index, after all earlier ones.
fn look_at<M: MetaPages>(
    alloc: Global,
    pages: &M,
    frame: &DomainFrame,
    index: &IndexAt,
    earlier: &mut HomeSet,
    found: &mut HomeSet,
) -> Result<(), OutOfMemory>
    ensures found { OnOk result ((home : Home) → IsIn found.new home ↔ (IsIn found.old home
        ⊎ IsFaultBehind (M.pages pages.now) (frame_in frame.now) (IsIn earlier.old) home
        index.now)) }
    ensures earlier { OnOk result ((home : Home) → IsIn earlier.new home ↔ (IsIn earlier.old home
        ⊎ HasPage (M.pages pages.now) (frame_in frame.now) home index.now)) }
{
    let way = IndexWay { first: index.first };
    let read = read_pages(alloc, pages, frame, &way)?;
    insert_one(&read.unread, found)?;
    insert_all_wrong(pages, &read.homes, earlier, found)?;
    earlier.insert_all(&read.homes)?;
    Ok(())
}

/// The pages of some indexes that cannot be pages of one, are not well formed, or are another's,
/// too.
fn wrong_pages<M: MetaPages>(
    alloc: Global,
    pages: &M,
    frame: &DomainFrame,
    indexes: &[IndexAt],
) -> Result<HomeSet, OutOfMemory>
    ensures { IfOk result (λ found. AreIndexes (M.pages pages.now) (frame_in frame.now) indexes.now
        → (home : Home) → IsIn found home
        ↔ IsWrongIndexPage (M.pages pages.now) (frame_in frame.now) home) }
{
    let mut earlier = HomeSet::new(alloc);
    let mut found = HomeSet::new(alloc);
    for index in indexes {
        look_at(alloc, pages, frame, index, &mut earlier, &mut found)?;
    }
    Ok(found)
}

/// The pages that are reached from the first page of an index and cannot be pages of one, are not
/// well formed, or are another index's, too, each once and in order. This is asked of every index,
/// whatever names it.
pub fn index_page_faults<M: MetaPages>(
    alloc: Global,
    pages: &M,
    frame: &DomainFrame,
) -> Result<HomeSet, OutOfMemory>
    ensures { IfOk result (λ found. (home : Home) → IsIn found home
        ↔ IsWrongIndexPage (M.pages pages.now) (frame_in frame.now) home) }
{
    let tables = read_tables(alloc, pages, frame)?;
    let links = read_links(alloc, pages, frame, &tables)?;
    let indexes = read_indexes(alloc, pages, frame, &links)?;
    wrong_pages(alloc, pages, frame, &indexes)
}
