//! The images of a log are brought home, and its start is moved past them.
ghost use Rattle.std.specs.Prelude.{
  ◌≡◌,
  ◌+◌,
  ◌<◌,
  ◌≤◌,
  ◌==◌,
  OnOk,
  Option,
  Some,
  drop,
  length,
};
ghost use Rattle.std.specs.List.{list_any};
ghost use Rattle.disk_label.specs.volume_disk.Disk.{Tells};
ghost use Rattle.disk_label.specs.volume_disk.Image.{NoPlace, page_at};
ghost use Rattle.disk_label.specs.volume_disk.Run.{
  IsAtMost,
  IsLaterBy,
  NamesWriteFault,
  OnlyWrites,
};
ghost use Rattle.disk_label.specs.Anchor.{IsAnchor, IsNext, IsWhole};
ghost use Rattle.page_store.specs.Pages.{same_home};
ghost use Rattle.log_ring.specs.Images.{homes_of};
ghost use Rattle.log_ring.specs.declared.image.PageImage.{PageImage};
ghost use Rattle.log_ring.specs.Homes.{AreOutside, HaveHomes, IsHomeOf};
ghost use Rattle.log_ring.specs.LogLaws.{AreHome};
ghost use Rattle.log_ring.specs.Ring.{IsRing};
ghost use Rattle.log_ring.specs.Settling.{
  BringsHome,
  HasBroughtHome,
  AreSyncedBelow,
  IsAtHomes,
  IsOnPage,
};

use crate::{PageImage, place_of};
use disk_label::limits::{BLOCKS_PER_PAGE, MAX_VOLUMES};
use disk_label::{Anchor, Rack, VolIx, sync_volume, write_anchor, write_blocks};

/// Writes an image to its home.
fn write_image<R: Rack>(rack: &mut R, image: &PageImage) -> Result<(), VolIx>
    requires { IsHomeOf (R.disk rack.old).sizes image.now.home }
    ensures writes { OnlyWrites (R.disk rack.old) (R.disk rack.new) (IsOnPage image.now.home) }
    ensures written { let home = image.now.home in let new = R.disk rack.new in
        OnOk result (Tells (R.disk rack.old)
        → page_at new.now.contents home.vol home.page ≡ image.now.page) }
    ensures few { IsAtMost 1 (R.disk rack.old) (R.disk rack.new) }
    ensures fault { NamesWriteFault (R.disk rack.old) (R.disk rack.new) result }
{
    let block = BLOCKS_PER_PAGE * image.home.page;
    write_blocks(rack, image.home.vol, block, image.page.bytes())
}

/// Whether one of these images has the home of another.
pub fn has_home_of(images: &[PageImage], other: &PageImage) -> bool
    ensures { result ≡ list_any (same_home other.now.home) (homes_of images.now) }
{
    match place_of(images, &other.home) {
        Some(_) => true,
        None => false,
    }
}

/// Writes the image at an index to its home, unless a later one has the same home.
fn write_last<R: Rack>(rack: &mut R, images: &[PageImage], at: usize) -> Result<(), VolIx>
    requires homes { HaveHomes (R.disk rack.old).sizes images.now }
    requires there { at < length images.now }
    ensures writes { OnlyWrites (R.disk rack.old) (R.disk rack.new) (IsAtHomes images.now) }
    ensures home { let old = R.disk rack.old in let new = R.disk rack.new in
        OnOk result (Tells old → AreHome (drop (at + 1) images.now) old.now.contents
        → AreHome (drop at images.now) new.now.contents) }
    ensures few { IsAtMost 1 (R.disk rack.old) (R.disk rack.new) }
    ensures fault { NamesWriteFault (R.disk rack.old) (R.disk rack.new) result }
{
    let image = &images[at];
    if has_home_of(&images[at + 1..], image) {
        Ok(())
    } else {
        write_image(rack, image)
    }
}

/// Writes the last image of each home to it, and syncs nothing.
fn write_images<R: Rack>(rack: &mut R, images: &[PageImage]) -> Result<(), VolIx>
    requires { HaveHomes (R.disk rack.old).sizes images.now }
    ensures writes { OnlyWrites (R.disk rack.old) (R.disk rack.new) (IsAtHomes images.now) }
    ensures home { OnOk result (Tells (R.disk rack.old)
        → AreHome images.now (R.disk rack.new).now.contents) }
    ensures few { IsAtMost (length images.now) (R.disk rack.old) (R.disk rack.new) }
    ensures fault { NamesWriteFault (R.disk rack.old) (R.disk rack.new) result }
{
    for written in 0..images.len() {
        write_last(rack, images, images.len() - 1 - written)?;
    }
    Ok(())
}

/// Whether an image has its home on a volume.
fn has_home_on(images: &[PageImage], vol: VolIx) -> bool
    ensures { result ≡ list_any (λ (image : PageImage). image.home.vol == vol) images.now }
{
    images.iter().any(|image| image.home.vol == vol)
}

/// Syncs a volume if an image has its home there.
fn sync_home<R: Rack>(rack: &mut R, images: &[PageImage], vol: VolIx) -> Result<(), VolIx>
    requires { HaveHomes (R.disk rack.old).sizes images.now }
    ensures writes { OnlyWrites (R.disk rack.old) (R.disk rack.new) NoPlace }
    ensures synced { let old = R.disk rack.old in let new = R.disk rack.new in
        OnOk result (Tells old → AreSyncedBelow vol images.now old.now
        → AreSyncedBelow (vol + 1) images.now new.now) }
    ensures few { IsAtMost 1 (R.disk rack.old) (R.disk rack.new) }
    ensures fault { NamesWriteFault (R.disk rack.old) (R.disk rack.new) result }
{
    if has_home_on(images, vol) {
        sync_volume(rack, vol)
    } else {
        Ok(())
    }
}

/// Syncs each volume that has a home of an image, once.
fn sync_homes<R: Rack>(rack: &mut R, images: &[PageImage]) -> Result<(), VolIx>
    requires { HaveHomes (R.disk rack.old).sizes images.now }
    ensures writes { OnlyWrites (R.disk rack.old) (R.disk rack.new) NoPlace }
    ensures synced { OnOk result (Tells (R.disk rack.old)
        → AreSyncedBelow 9 images.now (R.disk rack.new).now) }
    ensures few { IsAtMost 8 (R.disk rack.old) (R.disk rack.new) }
    ensures fault { NamesWriteFault (R.disk rack.old) (R.disk rack.new) result }
{
    for number in 1..MAX_VOLUMES + 1 {
        let Some(vol) = VolIx::new(number) else {
            unreachable!()
        };
        sync_home(rack, images, vol)?;
    }
    Ok(())
}

/// Brings the images of a log home, and writes the anchor with which it starts after them. Each
/// home is written once, with the last image of it, and each volume that was written is synced
/// once, before the anchor. These volumes and that of the log then have nothing pending.
pub fn bring_home<R: Rack>(rack: &mut R, images: &[PageImage], next: &Anchor) -> Result<(), VolIx>
    requires homes { HaveHomes (R.disk rack.old).sizes images.now }
    requires outside { AreOutside next.now images.now }
    requires ring { IsRing (R.disk rack.old).sizes next.now }
    requires whole { IsWhole next.now }
    requires next { let old = R.disk rack.old in Tells old → (before : Option Anchor)
        × IsAnchor old.sizes old.now.contents before × IsNext before next.now }
    ensures brings { BringsHome (R.disk rack.old) (R.disk rack.new) images.now next.now }
    ensures done { OnOk result
        (HasBroughtHome (R.disk rack.old) (R.disk rack.new) images.now next.now) }
    ensures later { OnOk result (IsLaterBy 6 (R.disk rack.old) (R.disk rack.new)) }
    ensures few { IsAtMost (length images.now + 14) (R.disk rack.old) (R.disk rack.new) }
    ensures fault { NamesWriteFault (R.disk rack.old) (R.disk rack.new) result }
{
    write_images(rack, images)?;
    sync_homes(rack, images)?;
    write_anchor(rack, next)
}
