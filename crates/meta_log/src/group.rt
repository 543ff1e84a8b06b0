//! A group written into the ring.
ghost use Rattle.std.specs.Prelude.{◌≡◌, ◌*◌, ◌+◌, ◌%◌, ◌^◌, ◌<◌, ◌≤◌, OnOk, length};
ghost use Rattle.log_ring.specs.domain_base.Limits.{log_pages, page_bytes};
ghost use Rattle.log_ring.specs.domain_base.Gate.{opened};
ghost use Rattle.log_ring.specs.volume_disk.Disk.{Tells};
ghost use Rattle.log_ring.specs.volume_disk.Image.{IsIn};
ghost use Rattle.log_ring.specs.volume_disk.Run.{
  IsAtMost,
  IsLaterBy,
  NamesWriteFault,
  OnlyWrites,
  Settles,
};
ghost use Rattle.log_ring.specs.Groups.{AreImagesAt};
ghost use Rattle.log_ring.specs.Ring.{IsGateOpen, IsOnPlaces, IsRing, place_at, ring_byte};
ghost use Rattle.log_ring.specs.Header.{IsSayable, header_for};
ghost use Rattle.meta_log.specs.Force.{
  HasWrittenGroup,
  IsGateAt,
  IsGroupBody,
  IsHeaderBody,
  IsReadyToOpen,
  IsSyncedOn,
  IsWrittenBody,
  WritesGroup,
};
ghost use Rattle.meta_log.specs.Log.{group_of};

use log_ring::gate::closed_block;
use log_ring::limits::{BLOCK_BYTES, BLOCKS_PER_PAGE};
use log_ring::{
    Anchor, Page, PageImage, Rack, VolIx, open_gate, ring_page, sync_volume, write_blocks,
    write_header_of,
};

/// The first block of a place of the ring.
fn ring_block(anchor: &Anchor, place: u32) -> u32
    requires { anchor.now.log_page + 128 ≤ 1048576 }
    ensures block { 512 * result ≡ ring_byte anchor.now place }
    ensures range { result + 16 ≤ 16 * (anchor.now.log_page + 128) }
{
    BLOCKS_PER_PAGE * ring_page(anchor, place)
}

/// Writes what follows the gate of a header.
fn write_header_body<R: Rack>(
    rack: &mut R,
    vol: VolIx,
    anchor: &Anchor,
    place: u32,
    header: &Page,
) -> Result<(), VolIx>
    requires ring { IsRing (R.disk rack.old).sizes anchor.now }
    requires vol { vol ≡ anchor.now.log_vol }
    ensures writes { let places = IsHeaderBody anchor.now place in
        OnlyWrites (R.disk rack.old) (R.disk rack.new) places }
    ensures written { let new = R.disk rack.new in OnOk result (Tells (R.disk rack.old)
        → IsWrittenBody new.now.contents anchor.now place header.now) }
    ensures later { OnOk result (IsLaterBy 1 (R.disk rack.old) (R.disk rack.new)) }
    ensures few { IsAtMost 1 (R.disk rack.old) (R.disk rack.new) }
    ensures fault { NamesWriteFault (R.disk rack.old) (R.disk rack.new) result }
{
    write_blocks(
        rack,
        vol,
        ring_block(anchor, place) + 1,
        &header.bytes()[BLOCK_BYTES..],
    )
}

/// Writes the page of an image to a place.
fn write_image<R: Rack>(
    rack: &mut R,
    vol: VolIx,
    anchor: &Anchor,
    place: u32,
    image: &PageImage,
) -> Result<(), VolIx>
    requires ring { IsRing (R.disk rack.old).sizes anchor.now }
    requires vol { vol ≡ anchor.now.log_vol }
    ensures writes { let places = IsIn anchor.now.log_vol (ring_byte anchor.now place) page_bytes in
        OnlyWrites (R.disk rack.old) (R.disk rack.new) places }
    ensures written { let new = R.disk rack.new in OnOk result (Tells (R.disk rack.old)
        → place_at new.now.contents anchor.now place ≡ image.now.page) }
    ensures few { IsAtMost 1 (R.disk rack.old) (R.disk rack.new) }
    ensures fault { NamesWriteFault (R.disk rack.old) (R.disk rack.new) result }
{
    write_blocks(rack, vol, ring_block(anchor, place), image.page.bytes())
}

/// Writes images to the places from one on.
fn write_images<R: Rack>(
    rack: &mut R,
    vol: VolIx,
    anchor: &Anchor,
    place: u32,
    images: &[PageImage],
) -> Result<(), VolIx>
    requires ring { IsRing (R.disk rack.old).sizes anchor.now }
    requires vol { vol ≡ anchor.now.log_vol }
    requires place { place < 1024 }
    requires few { length images.now ≤ 128 }
    ensures writes { let places = IsOnPlaces anchor.now place (length images.now) in
        OnlyWrites (R.disk rack.old) (R.disk rack.new) places }
    ensures written { let new = R.disk rack.new in OnOk result (Tells (R.disk rack.old)
        → AreImagesAt new.now.contents anchor.now place images.now) }
    ensures few { IsAtMost (length images.now) (R.disk rack.old) (R.disk rack.new) }
    ensures fault { NamesWriteFault (R.disk rack.old) (R.disk rack.new) result }
{
    for (i, image) in images.iter().enumerate() {
        write_image(rack, vol, anchor, place + i as u32, image)?;
    }
    Ok(())
}

/// Writes the gate at a place closed.
fn close_gate<R: Rack>(rack: &mut R, vol: VolIx, anchor: &Anchor, place: u32) -> Result<(), VolIx>
    requires ring { IsRing (R.disk rack.old).sizes anchor.now }
    requires vol { vol ≡ anchor.now.log_vol }
    ensures writes { OnlyWrites (R.disk rack.old) (R.disk rack.new) (IsGateAt anchor.now place) }
    ensures closed { let new = R.disk rack.new in OnOk result (Tells (R.disk rack.old)
        → ¬ IsGateOpen new.now.contents anchor.now place) }
    ensures later { OnOk result (IsLaterBy 1 (R.disk rack.old) (R.disk rack.new)) }
    ensures few { IsAtMost 1 (R.disk rack.old) (R.disk rack.new) }
    ensures fault { NamesWriteFault (R.disk rack.old) (R.disk rack.new) result }
{
    write_blocks(rack, vol, ring_block(anchor, place), &closed_block())
}

/// Writes a group after its gate, and the next gate closed, and syncs.
fn write_body<R: Rack>(
    rack: &mut R,
    vol: VolIx,
    anchor: &Anchor,
    place: u32,
    header: &Page,
    images: &[PageImage],
) -> Result<(), VolIx>
    requires ring { IsRing (R.disk rack.old).sizes anchor.now }
    requires vol { vol ≡ anchor.now.log_vol }
    requires place { place < 512 }
    requires few { length images.now + 2 ≤ 128 }
    ensures writes { let places = IsGroupBody anchor.now place (length images.now) in
        OnlyWrites (R.disk rack.old) (R.disk rack.new) places }
    ensures ready { let new = R.disk rack.new in OnOk result (Tells (R.disk rack.old)
        → IsReadyToOpen new.now anchor.now place header.now images.now) }
    ensures later { OnOk result (IsLaterBy 3 (R.disk rack.old) (R.disk rack.new)) }
    ensures few { IsAtMost (length images.now + 3) (R.disk rack.old) (R.disk rack.new) }
    ensures fault { NamesWriteFault (R.disk rack.old) (R.disk rack.new) result }
{
    write_header_body(rack, vol, anchor, place, header)?;
    write_images(rack, vol, anchor, place + 1, images)?;
    close_gate(rack, vol, anchor, place + 1 + images.len() as u32)?;
    sync_volume(rack, vol)
}

/// Opens the gate at a place, and syncs.
fn open_group<R: Rack>(rack: &mut R, vol: VolIx, anchor: &Anchor, place: u32) -> Result<(), VolIx>
    requires ring { IsRing (R.disk rack.old).sizes anchor.now }
    requires vol { vol ≡ anchor.now.log_vol }
    ensures writes { OnlyWrites (R.disk rack.old) (R.disk rack.new) (IsGateAt anchor.now place) }
    ensures settled { let old = R.disk rack.old in let new = R.disk rack.new in
        OnOk result (Tells old
        → Settles anchor.now.log_vol (ring_byte anchor.now place) opened old.now new.now) }
    ensures later { OnOk result (IsLaterBy 2 (R.disk rack.old) (R.disk rack.new)) }
    ensures few { IsAtMost 2 (R.disk rack.old) (R.disk rack.new) }
    ensures fault { NamesWriteFault (R.disk rack.old) (R.disk rack.new) result }
{
    open_gate(rack, vol, ring_block(anchor, place))
}

/// Writes a group of that number and these images at a place of the ring: first all but its gate,
/// with the next gate closed, and its gate once that is synced. Its own gate must have been closed
/// and synced before (`MayFollow`). The header is made in a page that is given for it. At Ok
/// nothing is pending on the log's volume. The error is the volume, if its write or sync failed.
pub fn write_group<R: Rack>(
    rack: &mut R,
    anchor: &Anchor,
    place: u32,
    number: u64,
    header: &mut Page,
    images: &[PageImage],
) -> Result<(), VolIx>
    requires ring { IsRing (R.disk rack.old).sizes anchor.now }
    requires place { place < 512 }
    requires sayable { IsSayable (header_for number images.now) }
    ensures writes { let group = group_of number images.now in
        WritesGroup (R.disk rack.old) (R.disk rack.new) anchor.now place group }
    ensures done { let group = group_of number images.now in OnOk result
        (HasWrittenGroup (R.disk rack.old) (R.disk rack.new) anchor.now place group) }
    ensures synced { let new = R.disk rack.new in OnOk result (Tells (R.disk rack.old)
        → IsSyncedOn anchor.now.log_vol new.now) }
    ensures later { OnOk result (IsLaterBy 5 (R.disk rack.old) (R.disk rack.new)) }
    ensures few { IsAtMost (length images.now + 5) (R.disk rack.old) (R.disk rack.new) }
    ensures fault { NamesWriteFault (R.disk rack.old) (R.disk rack.new) result }
{
    let Some(vol) = VolIx::new(anchor.log_vol) else {
        unreachable!()
    };
    write_header_of(number, images, header);
    write_body(rack, vol, anchor, place, header, images)?;
    open_group(rack, vol, anchor, place)
}
