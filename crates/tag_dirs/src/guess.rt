//! Where a directory looks first for an entry that may be taken.
ghost use Rattle.std.specs.Prelude.{◌≡◌, ◌==◌, ◌≤◌, if◌then◌else◌};
ghost use Rattle.tag_dirs.specs.TagPage.{IsTagPage};

use crate::page::{ENTRIES, can_take, read_entry};
use metadata_cells::{Page, Tag};

/// A guess about a page: how many of its entries may be taken, and an entry before which none may
/// be. It says where to look first, and no answer depends on it.
#[derive(Clone, Copy, Debug)]
pub(crate) struct Guess {
    free: usize,
    first: usize,
}

/// The first entry of the page with this index that is ever used: slot 0 is not.
pub(crate) fn first_entry(index: u32) -> usize
    ensures { result ≡ (if index == 0 then 1 else 0) }
{
    usize::from(index == 0)
}

/// How many entries of a page, from one on, may be taken.
fn count_takeable(page: &Page, first: usize) -> usize
    requires { IsTagPage page.now }
{
    let mut count = 0;
    for entry in first..ENTRIES {
        if can_take(&read_entry(page, entry)) {
            count += 1;
        }
    }
    count
}

impl Guess {
    /// The guess for a page with this index whose entries were never used.
    pub(crate) fn of_new(index: u32) -> Self {
        let first = first_entry(index);
        Guess {
            free: ENTRIES - first,
            first,
        }
    }

    /// The guess for a page as it stands.
    pub(crate) fn of_page(page: &Page, index: u32) -> Self
        requires { IsTagPage page.now }
    {
        let first = first_entry(index);
        Guess {
            free: count_takeable(page, first),
            first,
        }
    }

    /// The entry at which to begin looking, if the page may have one to take.
    pub(crate) fn start(&self) -> Option<usize> {
        if self.free == 0 {
            None
        } else {
            Some(self.first)
        }
    }

    /// Notes which tag a look from that entry on has found.
    pub(crate) fn note_found(&mut self, found: &Option<Tag>) {
        match found {
            Some(tag) => self.first = tag.slot as usize % ENTRIES,
            None => self.free = 0,
        }
    }

    /// Notes that an entry has changed, and whether it could be taken before and can be now.
    pub(crate) fn note_change(&mut self, entry: usize, before: bool, now: bool) {
        match (before, now) {
            (true, false) => self.lower(entry),
            (false, true) => self.raise(entry),
            _ => {}
        }
    }

    /// Notes that one entry less may be taken.
    fn lower(&mut self, entry: usize) {
        self.free = self.free.saturating_sub(1);
        if self.first == entry {
            self.first = entry.saturating_add(1);
        }
    }

    /// Notes that one more entry may be taken.
    fn raise(&mut self, entry: usize) {
        self.free = self.free.saturating_add(1);
        self.first = self.first.min(entry);
    }
}
