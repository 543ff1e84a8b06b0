//! What a rack holds of a log, now or after a stop.

use crate::counting::CountRack;
use log_recovery::limits::{BLOCKS_PER_PAGE, PAGE_BYTES};
use log_recovery::{Home, PageImage, Rack, VolIx, image_of, read_blocks, recover};
use std::alloc::Global;

/// What recovery finds: how many groups, and the bytes that pages 10 to 12 of volume 2 are full of
/// once they are redone, 255 for one that is not full of a byte.
#[derive(Clone, Copy, PartialEq, Eq)]
pub struct Seen {
    pub groups: u64,
    pub bytes: [u8; 3],
}

/// What is seen where nothing can be recovered.
pub const NOTHING: Seen = Seen {
    groups: u64::MAX,
    bytes: [255; 3],
};

/// The byte that bytes are full of, 255 where they are not.
pub fn full_of(page: &[u8]) -> u8 {
    match page.first() {
        Some(byte) => {
            if page.iter().all(|other| *other == *byte) {
                *byte
            } else {
                255
            }
        }
        None => 255,
    }
}

/// The byte that a page is full of, 255 where it is not full of a byte or cannot be read.
pub fn byte_on<R: Rack>(rack: &mut R, vol: VolIx, page: u32) -> u8 {
    let mut bytes = [0; PAGE_BYTES];
    if vol.number() > rack.volumes() || page >= rack.pages(vol) || page > 1_000 {
        return 255;
    }
    match read_blocks(rack, vol, BLOCKS_PER_PAGE * page, &mut bytes) {
        Ok(()) => full_of(&bytes),
        Err(_) => 255,
    }
}

fn byte_redone<R: Rack>(rack: &mut R, images: &[PageImage], page: u32) -> u8 {
    let Some(vol) = VolIx::new(2) else {
        return 255;
    };
    match image_of(images, Home { vol, page }) {
        Some(found) => full_of(found.bytes()),
        None => byte_on(rack, vol, page),
    }
}

/// How many writes and syncs of a volume failed; 0 where there is no such volume.
pub fn faults_of<R: Rack>(rack: &R, vol: u32) -> u64 {
    match VolIx::new(vol) {
        Some(vol) => rack.write_faults(vol),
        None => 0,
    }
}

/// What is seen on a rack.
pub fn look_at<R: Rack>(rack: &mut R, alloc: Global) -> Seen {
    match recover(alloc, rack) {
        Ok(redone) => {
            let images = redone.images.as_slice();
            Seen {
                groups: redone.next_group.saturating_sub(redone.anchor.group),
                bytes: [
                    byte_redone(rack, images, 10),
                    byte_redone(rack, images, 11),
                    byte_redone(rack, images, 12),
                ],
            }
        }
        Err(_) => NOTHING,
    }
}

/// What is seen after a stop right after a call.
fn left(rack: &CountRack, alloc: Global, call: u64, pick: u64) -> Seen {
    match rack.image(alloc, call, pick) {
        Some(mut image) => look_at(&mut image, alloc),
        None => NOTHING,
    }
}

/// Whether stops right after a call, by picks from the first one and up to the second, leave one of
/// two.
fn leaves_after(
    picks: (u64, u64),
    rack: &CountRack,
    alloc: Global,
    call: u64,
    allowed: &(Seen, Seen),
) -> bool {
    for pick in picks.0..picks.1 {
        let found = left(rack, alloc, call, pick);
        if found != allowed.0 && found != allowed.1 {
            return false;
        }
    }
    true
}

/// Whether stops right after the first of these calls, and after each write and sync from there on,
/// leave one of two, by picks from the first one and up to the second.
pub fn leaves(
    picks: (u64, u64),
    rack: &CountRack,
    alloc: Global,
    calls: (u64, u64),
    allowed: (Seen, Seen),
) -> bool {
    for call in calls.0..calls.1 {
        let is_new = call == calls.0 || rack.is_change(call);
        if is_new && !leaves_after(picks, rack, alloc, call, &allowed) {
            return false;
        }
    }
    true
}
