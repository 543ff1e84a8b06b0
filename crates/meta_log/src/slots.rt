//! Images in slots that were made beforehand, so that none takes memory.
ghost use Rattle.std.specs.Prelude.{
  ◌≡◌,
  ◌+◌,
  ◌-◌,
  ◌^◌,
  ◌<◌,
  ◌≤◌,
  IfNone,
  IfOk,
  IfSome,
  IsSome,
  drop,
  false,
  length,
  take,
  vec_len,
};
ghost use Rattle.std.specs.List.{All, list_any};
ghost use Rattle.log_ring.specs.page_store.Pages.{Pages, same_home};
ghost use Rattle.log_ring.specs.Images.{
  AreDistinct,
  AreDistinctHomes,
  IsPlaceOf,
  homes_of,
  joined,
  with_image,
};
ghost use Rattle.meta_log.specs.Log.{images_at};

use log_ring::{Home, MetaPages, OutOfMemory, Page, PageImage, VolIx, has_home_of, place_of};
use std::alloc::Global;

/// A placeholder image for a slot that has none yet.
fn no_image(alloc: Global) -> Result<PageImage, OutOfMemory> {
    let Some(vol) = VolIx::new(1) else {
        unreachable!()
    };
    let page = Page::zeros(alloc)?;
    Ok(PageImage {
        home: Home { vol, page: 0 },
        page,
    })
}

/// `count` slots.
pub fn new_slots(alloc: Global, count: usize) -> Result<Vec<PageImage>, OutOfMemory>
    ensures { IfOk result (λ slots. vec_len slots ≡ count) }
{
    let mut slots = Vec::with_capacity(alloc, count)?;
    for made in 0..count {
        slots.push_reserved(no_image(alloc)?);
    }
    Ok(slots)
}

/// Makes the image of a slot this page of a home.
fn fill(slot: &mut PageImage, home: &Home, page: &Page)
    ensures { slot.new ≡ record { home = home.now; page = page.now } }
{
    slot.home = *home;
    slot.page.set(0, page.bytes());
}

/// The slot with the image of a home, of those from `first` to `end`.
fn slot_of(slots: &[PageImage], first: usize, end: usize, home: &Home) -> Option<usize>
    requires order { first ≤ end }
    requires within { end ≤ length slots.now }
    ensures place { IfSome result (λ at. (first ≤ at)
        × IsPlaceOf (drop first (take end slots.now)) home.now (at - first)) }
    ensures none { IfNone result
        (list_any (same_home home.now) (homes_of (drop first (take end slots.now))) ≡ false) }
{
    match place_of(&slots[first..end], home) {
        Some(place) => Some(first + place),
        None => None,
    }
}

/// Puts a page of a home among the images of the slots from `first` to `end`: in place of the image
/// of that home, or after them. Returns where they end then.
fn put(slots: &mut [PageImage], first: usize, end: usize, home: &Home, page: &Page) -> usize
    requires order { first ≤ end }
    requires room { end < length slots.old }
    requires distinct { AreDistinctHomes (drop first (take end slots.old)) }
    ensures front { take first slots.new ≡ take first slots.old }
    ensures put { drop first (take result slots.new)
        ≡ with_image home.now page.now (drop first (take end slots.old)) }
    ensures end { end ≤ result }
    ensures most { result ≤ end + 1 }
{
    match slot_of(slots, first, end, home) {
        Some(at) => {
            let slot = &mut slots[at];
            fill(slot, home, page);
            end
        }
        None => {
            let slot = &mut slots[end];
            fill(slot, home, page);
            end + 1
        }
    }
}

/// Joins a change to the images of the slots from `first` to `end`. Returns where they then end.
pub fn join(slots: &mut [PageImage], first: usize, end: usize, change: &[PageImage]) -> usize
    requires order { first ≤ end }
    requires within { end ≤ length slots.old }
    requires room { first + length (joined change.now (drop first (take end slots.old)))
        < length slots.old }
    requires distinct { AreDistinctHomes (drop first (take end slots.old)) }
    ensures front { take first slots.new ≡ take first slots.old }
    ensures joined { drop first (take result slots.new)
        ≡ joined change.now (drop first (take end slots.old)) }
    ensures end { end ≤ result }
    ensures within { result ≤ length slots.old }
{
    let mut last = end;
    for image in change {
        last = put(slots, first, last, &image.home, &image.page);
    }
    last
}

/// Joins the pages that stand at homes in a store to the images of the slots from `first` to `end`.
/// Returns where they then end.
pub fn join_from<M: MetaPages>(
    slots: &mut [PageImage],
    first: usize,
    end: usize,
    pages: &M,
    homes: &[Home],
) -> usize
    requires order { first ≤ end }
    requires within { end ≤ length slots.old }
    requires kept { All (λ home. IsSome (M.pages pages.now home)) homes.now }
    requires room { let images = images_at (M.pages pages.now) homes.now in
        first + length (joined images (drop first (take end slots.old))) < length slots.old }
    requires distinct { AreDistinctHomes (drop first (take end slots.old)) }
    ensures front { take first slots.new ≡ take first slots.old }
    ensures joined { let images = images_at (M.pages pages.now) homes.now in
        drop first (take result slots.new) ≡ joined images (drop first (take end slots.old)) }
    ensures end { end ≤ result }
    ensures within { result ≤ length slots.old }
{
    let mut last = end;
    for home in homes {
        let Some(page) = pages.get(*home) else {
            unreachable!()
        };
        last = put(slots, first, last, home, page);
    }
    last
}

/// How many images there are once a change is joined to those that are pending.
pub fn count_joined(pending: &[PageImage], change: &[PageImage]) -> usize
    requires pending { AreDistinctHomes pending.now }
    requires change { AreDistinctHomes change.now }
    requires few { length pending.now + length change.now < 2 ^ 64 }
    ensures { result ≡ length (joined change.now pending.now) }
{
    let mut count = pending.len();
    for image in change {
        if !has_home_of(pending, image) {
            count += 1;
        }
    }
    count
}

/// Whether one of these images has a home.
fn has_home(images: &[PageImage], home: &Home) -> bool
    ensures { result ≡ list_any (same_home home.now) (homes_of images.now) }
{
    match place_of(images, home) {
        Some(_) => true,
        None => false,
    }
}

/// How many images there are once images of these homes are joined to those that are pending.
pub fn count_at(pending: &[PageImage], homes: &[Home]) -> usize
    requires pending { AreDistinctHomes pending.now }
    requires homes { AreDistinct homes.now }
    requires few { length pending.now + length homes.now < 2 ^ 64 }
    ensures { (pages : Pages)
        → result ≡ length (joined (images_at pages homes.now) pending.now) }
{
    let mut count = pending.len();
    for home in homes {
        if !has_home(pending, home) {
            count += 1;
        }
    }
    count
}
