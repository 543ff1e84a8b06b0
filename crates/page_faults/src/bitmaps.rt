//! Pages of bitmaps that do not say which pages are owned.
ghost use Rattle.std.specs.Prelude.{◌≡◌, ◌⊎◌, ◌↔◌, ◌+◌, ◌^◌, ◌<◌, IfOk, IsTrue, OnOk};
ghost use Rattle.tag_faults.specs.domain_base.declared.place.Home.{Home};
ghost use Rattle.tag_faults.specs.page_ways.Frame.{frame_in};
ghost use Rattle.tag_faults.specs.sorted_sets.Members.{IsIn as IsHomeIn};
ghost use Rattle.tag_faults.specs.sorted_sets.SpanMembers.{HasNumber};
ghost use Rattle.tag_faults.specs.cell_chains.Runs.{on};
ghost use Rattle.page_faults.specs.Wrong.{HasWrongBitmap, HasWrongBits, IsWrongBitmap, IsWrongBitmapOf};

use crate::spans::taken_spans;
use std::alloc::Global;
use tag_faults::{
    DomainFrame, FileRun, Home, HomeSet, MetaPages, OutOfMemory, SpanSet, VolIx, find_owned,
    is_wrong_page,
};

/// The home of a page of the bitmap of a volume.
fn bitmap_home(vol: VolIx, number: u32) -> Home
    requires { number + 2 < 2 ^ 32 }
    ensures { result ≡ on vol (2 + number) }
{
    Home {
        vol,
        page: 2 + number,
    }
}

/// Puts a home into a set, if something is wrong.
fn insert_if(wrong: bool, home: &Home, found: &mut HomeSet) -> Result<(), OutOfMemory>
    ensures { OnOk result ((other : Home) → IsHomeIn found.new other
        ↔ (IsHomeIn found.old other ⊎ ((other ≡ home.now) × IsTrue wrong))) }
{
    if wrong {
        found.insert(home)?;
    }
    Ok(())
}

/// Puts the home of a page of a member's bitmap into a set, if a bit of it is wrong.
fn insert_wrong<M: MetaPages>(
    pages: &M,
    frame: &DomainFrame,
    owned: &SpanSet,
    vol: VolIx,
    number: u32,
    found: &mut HomeSet,
) -> Result<(), OutOfMemory>
    requires { number + 2 < 2 ^ 32 }
    ensures { OnOk result ((home : Home) → IsHomeIn found.new home ↔ (IsHomeIn found.old home
        ⊎ HasWrongBits (M.pages pages.now) (frame_in frame.now) (HasNumber owned.now) vol home
        number)) }
{
    let home = bitmap_home(vol, number);
    let Some(page) = pages.get(home) else {
        return Ok(());
    };
    let first = 65536 * u64::from(number);
    let wrong = is_wrong_page(page, owned, frame.member(vol).pages, first);
    insert_if(wrong, &home, found)?;
    Ok(())
}

/// Puts into a set the homes of those pages of a member's bitmap that have a wrong bit.
fn insert_all_wrong<M: MetaPages>(
    pages: &M,
    frame: &DomainFrame,
    owned: &SpanSet,
    vol: VolIx,
    found: &mut HomeSet,
) -> Result<(), OutOfMemory>
    ensures { OnOk result ((home : Home) → IsHomeIn found.new home ↔ (IsHomeIn found.old home
        ⊎ HasWrongBitmap (M.pages pages.now) (frame_in frame.now) (HasNumber owned.now) vol
        home)) }
{
    for number in 0..frame.first_cells(vol) - 2 {
        insert_wrong(pages, frame, owned, vol, number, found)?;
    }
    Ok(())
}

/// Puts into a set the homes of those pages of the bitmap of a volume that have a wrong bit, if the
/// volume is a member, by the pages that are owned.
fn look_at_volume<M: MetaPages>(
    alloc: Global,
    pages: &M,
    frame: &DomainFrame,
    homes: &[Home],
    runs: &[FileRun],
    number: u32,
    found: &mut HomeSet,
) -> Result<(), OutOfMemory>
    ensures { OnOk result ((home : Home) → IsHomeIn found.new home ↔ (IsHomeIn found.old home
        ⊎ IsWrongBitmapOf (M.pages pages.now) (frame_in frame.now) homes.now runs.now home
        number)) }
{
    let Some(vol) = VolIx::new(number) else {
        return Ok(());
    };
    if !frame.is_member(vol) {
        return Ok(());
    }
    let spans = taken_spans(alloc, frame, homes, vol)?;
    let owned = find_owned(alloc, spans, runs, vol)?;
    insert_all_wrong(pages, frame, &owned, vol, found)?;
    Ok(())
}

/// The homes of those pages of members' bitmaps that have a bit that is 1 where the page has no
/// owner, or 0 where it has one or lies outside the member. Owned are the pages of label, anchors,
/// bitmap and log, those at the homes, and those that the runs say to be files'.
pub(crate) fn wrong_bitmaps<M: MetaPages>(
    alloc: Global,
    pages: &M,
    frame: &DomainFrame,
    homes: &[Home],
    runs: &[FileRun],
) -> Result<HomeSet, OutOfMemory>
    ensures { IfOk result (λ found. (home : Home) → IsHomeIn found home
        ↔ IsWrongBitmap (M.pages pages.now) (frame_in frame.now) homes.now runs.now home) }
{
    let mut found = HomeSet::new(alloc);
    for number in 1..9_u32 {
        look_at_volume(alloc, pages, frame, homes, runs, number, &mut found)?;
    }
    Ok(found)
}
