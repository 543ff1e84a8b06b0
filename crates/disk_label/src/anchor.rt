//! Anchors and their bodies.
ghost use Rattle.std.specs.Prelude.{
  ◌≡◌,
  ◌+◌,
  ◌-◌,
  ◌*◌,
  ◌^◌,
  ◌<◌,
  ◌≤◌,
  ◌↔◌,
  ◌++◌,
  ℕ,
  IsTrue,
  IsSome,
  IfSome,
  length,
  slice_index,
};

use crate::fields::{high, long, low, word};
use byteorder::{ByteOrder, LittleEndian};
use volume_disk::limits::BLOCK_BYTES;
use volume_disk::{Home, VolIx};

/// The fields of a body that are in use, as numbers of four bytes.
pub(crate) const BODY_WORDS: usize = 28;

/// The bytes of a body: seven blocks.
pub(crate) const BODY_BYTES: usize = 7 * BLOCK_BYTES;

/// A volume as an anchor has it: its pages of 8,192 bytes, and its state, which is 0 for none, 1
/// for an open member and 2 for a closed one.
#[derive(Clone, Copy, Debug, PartialEq, Eq)]
pub struct Member {
    pub pages: u32,
    pub state: u32,
}

/// Where a domain's log and table are, and which volumes are its members.
#[derive(Clone, Copy, Debug, PartialEq, Eq)]
pub struct Anchor {
    /// The number of the anchor: 1 for the first, and one more for each later one.
    pub number: u64,
    /// The version of the layout: 3 or 4, unless the anchor is out of range.
    pub version: u32,
    /// The volume of the log, and of the anchor.
    pub log_vol: u32,
    /// The first page of the log.
    pub log_page: u32,
    /// The pages of the log.
    pub log_pages: u32,
    /// The place in the log of the first group to be redone.
    pub start: u32,
    /// The number of that group.
    pub group: u64,
    /// The home of the fileset table, or None if the field names no volume from 1 to 8.
    pub table: Option<Home>,
    /// The volumes by their number, from 1.
    pub members: [Member; 8],
    /// The slot of the volume in which the anchor stands or is to stand: 0 or 1.
    pub slot: u8,
}

impl Anchor {
    ghost use Rattle.disk_label.specs.Body.{anchor_from, HasLogMember};
    ghost use Rattle.disk_label.specs.Words.{words_of, body_bytes};

    /// The anchor that the first block of a body in this slot stands for.
    pub(crate) fn decode(block: &[u8; BLOCK_BYTES], slot: u8) -> Anchor
        ensures { result ≡ anchor_from block.now slot }
    {
        Anchor {
            number: long(block, 0),
            version: word(block, 2),
            log_vol: word(block, 3),
            log_page: word(block, 4),
            log_pages: word(block, 5),
            start: word(block, 6),
            group: long(block, 8),
            table: home_of(word(block, 10), word(block, 11)),
            members: [
                member_of(block, 0),
                member_of(block, 1),
                member_of(block, 2),
                member_of(block, 3),
                member_of(block, 4),
                member_of(block, 5),
                member_of(block, 6),
                member_of(block, 7),
            ],
            slot,
        }
    }

    /// The body that stands for it. What is not named is zero.
    pub(crate) fn encode(&self) -> [u8; BODY_BYTES]
        requires { IsSome self.now.table }
        ensures reads_back { anchor_from result self.now.slot ≡ self.now }
        ensures body { result ≡ body_bytes self.now }
    {
        written(&self.words())
    }

    /// Its fields in their order, as numbers of four bytes.
    fn words(&self) -> [u32; BODY_WORDS]
        ensures value { result ≡ words_of self.now }
        ensures members { length self.now.members ≡ 8 }
        ensures table { IfSome self.now.table (λ home. (1 ≤ home.vol) × (home.vol ≤ 8)) }
    {
        let (table_vol, table_page) = match self.table {
            Some(home) => (home.vol.number(), home.page),
            None => (0, 0),
        };
        let [a, b, c, d, e, f, g, h] = self.members;
        [
            low(self.number),
            high(self.number),
            self.version,
            self.log_vol,
            self.log_page,
            self.log_pages,
            self.start,
            0,
            low(self.group),
            high(self.group),
            table_vol,
            table_page,
            a.pages,
            a.state,
            b.pages,
            b.state,
            c.pages,
            c.state,
            d.pages,
            d.state,
            e.pages,
            e.state,
            f.pages,
            f.state,
            g.pages,
            g.state,
            h.pages,
            h.state,
        ]
    }

    /// Whether its log stands on a member, open or closed. The log must be on one of the eight
    /// volumes.
    pub fn has_log_member(&self) -> bool
        requires { (1 ≤ self.now.log_vol) × (self.now.log_vol ≤ 8) }
        ensures { IsTrue result ↔ HasLogMember self.now }
    {
        let state = self.members[self.log_vol as usize - 1].state;
        1 <= state && state <= 2
    }
}

ghost use Rattle.std.specs.List.{flat_map};
ghost use Rattle.byteorder.specs.Endian.{little_bytes};
ghost use Rattle.volume_disk.specs.domain_base.Page.{zero_bytes};
ghost use Rattle.disk_label.specs.Body.{home_from, member_from};

/// The body that begins with these numbers of four bytes, and is zero after them.
fn written(words: &[u32; BODY_WORDS]) -> [u8; BODY_BYTES]
    ensures value { let zeros = zero_bytes (BODY_BYTES - 4 * BODY_WORDS) in
        result ≡ flat_map (little_bytes 4) words.now ++ zeros }
    ensures fits { (i : ℕ) → slice_index words.now i < 2 ^ 32 }
    ensures count { length words.now ≡ BODY_WORDS }
{
    let mut body = [0; BODY_BYTES];
    LittleEndian::write_u32_into(words, &mut body[..4 * BODY_WORDS]);
    body
}

/// The member at this index.
fn member_of(body: &[u8], i: usize) -> Member
    requires { 8 * i + 56 ≤ length body.now }
    ensures { result ≡ member_from body.now i }
{
    Member {
        pages: word(body, 12 + 2 * i),
        state: word(body, 13 + 2 * i),
    }
}

/// A home, or None if the number is no volume's.
fn home_of(vol: u32, page: u32) -> Option<Home>
    ensures { result ≡ home_from vol page }
{
    match VolIx::new(vol) {
        Some(vol) => Some(Home { vol, page }),
        None => None,
    }
}
