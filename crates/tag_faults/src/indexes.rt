//! Pages of a tag directory that are not well formed, or have an index that they may not have.
ghost use Rattle.std.specs.Prelude.{◌≡◌, ◌⊎◌, ◌↔◌, ◌+◌, ℕ, IsTrue, OnOk, Some};
ghost use Rattle.cell_faults.specs.domain_base.declared.place.Home.{Home};
ghost use Rattle.cell_faults.specs.tag_dirs.TagPage.{index_of as index_there};
ghost use Rattle.cell_faults.specs.sorted_sets.Members.{IsIn as IsHomeIn};
ghost use Rattle.cell_faults.specs.sorted_sets.SpanMembers.{HasNumber};
ghost use Rattle.tag_faults.specs.Directories.{HasIndexThere, IsWrongAmong, IsWrongPage, IsWrongThere};

use crate::entries::is_tag_page;
use cell_faults::{Home, HomeSet, MetaPages, OutOfMemory, Page, Span, SpanSet, u32_at};
use std::alloc::Global;

/// The index of a page.
fn index_of(page: &Page) -> u32
    ensures { result ≡ index_there page.now }
{
    u32_at(page.bytes(), 4)
}

/// The span of a single number.
fn span_of(number: u32) -> Span
    ensures from { result.from ≡ number }
    ensures to { result.to ≡ number + 1 }
{
    let from = u64::from(number);
    Span { from, to: from + 1 }
}

/// Whether an index was seen.
fn was_seen(seen: &SpanSet, index: u32) -> bool
    ensures { IsTrue result ↔ HasNumber seen.now index }
{
    seen.has_one(&span_of(index))
}

/// Sees the index of a page.
fn see_index(page: &Page, seen: &mut SpanSet) -> Result<(), OutOfMemory>
    ensures { OnOk result ((n : ℕ) → HasNumber seen.new n ↔ (HasNumber seen.old n
        ⊎ (index_there page.now ≡ n))) }
{
    seen.insert(&span_of(index_of(page)))?;
    Ok(())
}

/// Whether a page is the first one and has an index other than 0.
fn begins_late(page: &Page, place: usize) -> bool
    ensures { IsTrue result ↔ ((place ≡ 0) × ¬ index_there page.now ≡ 0) }
{
    place == 0 && index_of(page) != 0
}

/// Whether a page is not well formed, is the first one with an index other than 0, or has an index
/// that was seen.
fn is_wrong_page(page: &Page, place: usize, seen: &SpanSet) -> bool
    ensures { IsTrue result ↔ IsWrongPage page.now place (HasNumber seen.now) }
{
    !is_tag_page(page) || begins_late(page, place) || was_seen(seen, index_of(page))
}

/// Puts a home into a set, if the page there is wrong.
fn insert_wrong(
    page: &Page,
    place: usize,
    home: &Home,
    seen: &SpanSet,
    found: &mut HomeSet,
) -> Result<(), OutOfMemory>
    ensures { OnOk result ((other : Home) → IsHomeIn found.new other ↔ (IsHomeIn found.old other
        ⊎ ((home.now ≡ other) × IsWrongPage page.now place (HasNumber seen.now)))) }
{
    if is_wrong_page(page, place, seen) {
        found.insert(home)?;
    }
    Ok(())
}

/// Looks at the page at a place of a directory, after all before it.
fn look_at<M: MetaPages>(
    pages: &M,
    place: usize,
    home: &Home,
    seen: &mut SpanSet,
    found: &mut HomeSet,
) -> Result<(), OutOfMemory>
    ensures found { OnOk result ((other : Home) → IsHomeIn found.new other
        ↔ (IsHomeIn found.old other ⊎ ((home.now ≡ other)
        × IsWrongThere (M.pages pages.now) place home.now (HasNumber seen.old)))) }
    ensures seen { OnOk result ((n : ℕ) → HasNumber seen.new n ↔ (HasNumber seen.old n
        ⊎ HasIndexThere (M.pages pages.now) home.now n)) }
{
    let Some(page) = pages.get(*home) else {
        return Ok(());
    };
    insert_wrong(page, place, home, seen, found)?;
    see_index(page, seen)?;
    Ok(())
}

/// Puts into a set those of the homes of a directory at which a page is wrong.
pub(crate) fn insert_wrong_pages<M: MetaPages>(
    alloc: Global,
    pages: &M,
    homes: &[Home],
    found: &mut HomeSet,
) -> Result<(), OutOfMemory>
    ensures { OnOk result ((home : Home) → IsHomeIn found.new home ↔ (IsHomeIn found.old home
        ⊎ IsWrongAmong (M.pages pages.now) homes.now home)) }
{
    let mut seen = SpanSet::new(alloc);
    for (place, home) in homes.iter().enumerate() {
        look_at(pages, place, home, &mut seen, found)?;
    }
    Ok(())
}
