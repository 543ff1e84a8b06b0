//! Numbers in their ranges, and the places of a domain that they name.
ghost use Rattle.std.specs.Prelude.{◌≡◌, ℕ, ◌+◌, ◌<◌, ◌≤◌, ◌↔◌, IsSome, IfSome};
ghost use Rattle.domain_base.specs.Limits.{max_volumes, fileset_slots};

use crate::limits::{FILESET_SLOTS, MAX_VOLUMES};
use std::marker::Model;

/// A volume's number, from 1 to 8: its place in the rack.
#[derive(Clone, Copy, Debug, PartialEq, Eq, PartialOrd, Ord)]
pub struct VolIx {
    number: u32,
}

impl Model for VolIx {
    ghost Value = { ℕ };

    ghost view = { λ v. v.number };

    ghost invariant = { λ v. (1 ≤ v.number) × (v.number ≤ max_volumes) };

    ghost inverse = { λ n. record { number = n } };
}

impl VolIx {
    /// The volume with that number. Returns None if and only if no volume has it.
    pub fn new(n: u32) -> Option<Self>
        ensures range { IsSome result ↔ ((1 ≤ n) × (n ≤ MAX_VOLUMES)) }
        ensures value { IfSome result (λ v. v ≡ n) }
    {
        if 1 <= n && n <= MAX_VOLUMES {
            Some(VolIx { number: n })
        } else {
            None
        }
    }

    /// Its number.
    pub fn number(&self) -> u32
        ensures value { result ≡ self.now }
        ensures range { (1 ≤ result) × (result ≤ MAX_VOLUMES) }
    {
        self.number
    }

    /// Its place in a table with an entry for each volume, counted from 0.
    pub fn index(&self) -> usize
        ensures value { result + 1 ≡ self.now }
        ensures range { result < MAX_VOLUMES }
    {
        self.number as usize - 1
    }
}

/// A fileset's number, from 0 to 31: its slot in the fileset table.
#[derive(Clone, Copy, Debug, PartialEq, Eq, PartialOrd, Ord)]
pub struct FilesetNo {
    number: u32,
}

impl Model for FilesetNo {
    ghost Value = { ℕ };

    ghost view = { λ f. f.number };

    ghost invariant = { λ f. f.number < fileset_slots };

    ghost inverse = { λ n. record { number = n } };
}

impl FilesetNo {
    /// The fileset with that number. Returns None if and only if the table has no such slot.
    pub fn new(n: u32) -> Option<Self>
        ensures range { IsSome result ↔ (n < FILESET_SLOTS) }
        ensures value { IfSome result (λ f. f ≡ n) }
    {
        if n < FILESET_SLOTS {
            Some(FilesetNo { number: n })
        } else {
            None
        }
    }

    /// Its number.
    pub fn number(&self) -> u32
        ensures value { result ≡ self.now }
        ensures range { result < FILESET_SLOTS }
    {
        self.number
    }
}

/// Where a page stands: a volume, and a page of it counted from 0.
#[derive(Clone, Copy, Debug, PartialEq, Eq, PartialOrd, Ord)]
pub struct Home {
    pub vol: VolIx,
    pub page: u32,
}

/// The name of a file or a directory within its fileset: a slot of the tag directory, and how often
/// the slot has been taken, which tells the file from earlier ones there.
#[derive(Clone, Copy, Debug, PartialEq, Eq, PartialOrd, Ord)]
pub struct Tag {
    pub slot: u32,
    pub seq: u16,
}

/// Where an mcell stands: a page of the bitfile metadata table, and a cell of it, from 0 to 27.
#[derive(Clone, Copy, Debug, PartialEq, Eq, PartialOrd, Ord)]
pub struct CellAt {
    pub vol: VolIx,
    pub page: u32,
    pub cell: u8,
}

/// Whether a tag names a file or a directory.
#[derive(Clone, Copy, Debug, PartialEq, Eq, PartialOrd, Ord)]
pub enum Kind {
    File,
    Directory,
}
