//! The result of recovering a log.
ghost use Rattle.std.specs.Prelude.{◌≡◌, ◌^◌, ◌<◌, ◌≤◌, ◌↔◌, IsTrue};

use log_ring::{Anchor, NUMBERS, PageImage};
use std::marker::Model;

/// Images of pages in their order, which contracts see as their list.
#[derive(Drop)]
pub struct ImageList {
    images: Vec<PageImage>,
}

impl Model for ImageList {
    ghost use Rattle.std.specs.Prelude.{List};
    ghost use Rattle.log_ring.specs.declared.image.PageImage.{PageImage};

    ghost Value = { List PageImage };

    ghost view = { λ l. l.images.items };
}

impl ImageList {
    /// These images.
    pub fn new(images: Vec<PageImage>) -> ImageList
        ensures { result ≡ images.items }
    {
        ImageList { images }
    }

    /// Its images.
    pub fn as_slice(&self) -> &[PageImage]
        ensures { result.now ≡ self.now }
    {
        self.images.as_slice()
    }

    /// Its images, given back.
    pub fn into_vec(self) -> Vec<PageImage>
        ensures { result.items ≡ self }
    {
        self.images
    }
}

/// The result of recovering a log.
#[derive(Drop)]
pub struct Redone {
    /// The anchor that counts.
    pub anchor: Anchor,
    /// The images of the groups of the log, in their order.
    pub images: ImageList,
    /// The number that the next group has.
    pub next_group: u64,
    /// The place of the log, from 0 to 127, at which the next group begins.
    pub next_place: u32,
}

impl Redone {
    ghost use Rattle.log_recovery.specs.Settled.{HasNumbersLeft, settled_anchor};

    /// Whether the log may be settled: the next anchor's number is below 2^63, and so is that of
    /// the group at its start. An anchor or a group of an image may have the last such number.
    pub fn has_numbers_left(&self) -> bool
        ensures { IsTrue result ↔ HasNumbersLeft self.now }
    {
        self.anchor.number < NUMBERS - 1 && self.next_group < NUMBERS
    }

    /// The next anchor, with which the log starts after the groups that were redone: the one that
    /// stands once the log is settled.
    pub fn settled_anchor(&self) -> Anchor
        requires number { self.now.anchor.number < 2 ^ 63 }
        requires slot { self.now.anchor.slot ≤ 1 }
        ensures { result ≡ settled_anchor self.now }
    {
        Anchor {
            number: self.anchor.number + 1,
            start: self.next_place,
            group: self.next_group,
            slot: 1 - self.anchor.slot,
            ..self.anchor
        }
    }
}
