//! The list of what is to be let go.
ghost use Rattle.std.specs.Prelude.{◌≡◌, ◌+◌, ◌<◌, ◌≤◌, ◌∷◌, ◌++◌, ◌-◌, [], ℕ, Contains, IfNone, IfOk, IfSome, IsOk, OnErr, OnOk, false, get_or, length, slice_get, true, vec_capacity, vec_len};
ghost use Rattle.release_list.specs.declared.list.Entry.{Entry as EntryOf};
ghost use Rattle.release_list.specs.Listing.{Adds, Orders, Puts, clone_but as but_there, without_clone};

use file_release::{CellAt, Home, OutOfMemory};
use std::alloc::Global;
use std::marker::Model;

/// A file that is to let go of something: its first cell, and the first cell of the clone's file
/// that reads through it, if there is one. The file's first cell says what goes: the pages after
/// those that it keeps, or all. Or the quota cells of a fileset that was removed, by the first of
/// them: they all go.
#[derive(Clone, Copy, Debug, PartialEq, Eq)]
pub struct Entry {
    pub at: CellAt,
    pub clone: Option<CellAt>,
}

/// Files that are to let go of all their pages or of those after the ones that they keep, and pages
/// of tag directories that were removed. There is room for some more entries, which then take no
/// memory.
#[derive(Drop)]
pub(crate) struct Queue {
    pub(crate) entries: Vec<Entry>,
    pub(crate) tag_pages: Vec<Home>,
}

impl Model for Queue {
    ghost use Rattle.std.specs.Prelude.{◌-◌, vec_capacity, vec_len};
    ghost use Rattle.release_list.specs.Listing.{Roomy};

    ghost Value = { Roomy };

    ghost view = { λ d. record {
      list = record { entries = d.entries.items; tag_pages = d.tag_pages.items };
      room = vec_capacity d.entries - vec_len d.entries;
    } };
}

/// The place of the first entry of that file, if there is one.
fn find_entry(entries: &[Entry], at: &CellAt) -> Option<usize>
    ensures some { IfSome result (λ i. (i < length entries.now)
        × ((d : EntryOf) → (get_or entries.now i d).at ≡ at.now)) }
    ensures first { IfSome result (λ i. (k : ℕ) (d : EntryOf) → k < i
        → ¬ (get_or entries.now k d).at ≡ at.now) }
    ensures none { IfNone result ((entry : EntryOf) → Contains entries.now entry
        → ¬ entry.at ≡ at.now) }
{
    for i in 0..entries.len() {
        if entries[i].at == *at {
            return Some(i);
        }
    }
    None
}

/// A clone unless it is this one.
fn clone_but(clone: &Option<CellAt>, at: &CellAt) -> Option<CellAt>
    ensures { result ≡ but_there at.now clone.now }
{
    match clone {
        Some(clone) => { if *clone == *at { None } else { Some(*clone) } }
        None => None,
    }
}

/// Makes sure that no entry gives that file as its clone's.
pub(crate) fn forget(entries: &mut Vec<Entry>, at: &CellAt)
    ensures items { entries.new.items ≡ without_clone at.now entries.old.items }
    ensures len { vec_len entries.new ≡ vec_len entries.old }
    ensures capacity { vec_capacity entries.new ≡ vec_capacity entries.old }
{
    for i in 0..entries.len() {
        entries[i].clone = clone_but(&entries[i].clone, at);
    }
}

/// Puts the entry of a clone's file after that of the file through which it reads, which stands at
/// that place. A file that reads through another one goes first, so that nothing is handed to what
/// goes.
fn put_behind(entries: &mut Vec<Entry>, place: usize, clone: &Option<CellAt>)
    requires { place < length entries.old.items }
    ensures orders { Orders clone.now place entries.old.items entries.new.items }
    ensures len { vec_len entries.new ≡ vec_len entries.old }
    ensures capacity { vec_capacity entries.new ≡ vec_capacity entries.old }
{
    let Some(clone) = clone else {
        return;
    };
    match find_entry(entries.as_slice(), clone) {
        Some(front) => {
            if front < place {
                entries.swap(front, place);
            }
        }
        None => {}
    }
}

impl Queue {
    /// A list without entries: nothing is to be let go.
    pub(crate) fn new(alloc: Global) -> Queue
        ensures entries { result.list.entries ≡ [] }
        ensures tag_pages { result.list.tag_pages ≡ [] }
    {
        Queue {
            entries: Vec::new(alloc),
            tag_pages: Vec::new(alloc),
        }
    }

    /// Makes room for `more` entries more, which then take no memory. After an error nothing has
    /// changed.
    pub(crate) fn reserve(&mut self, more: usize) -> Result<(), OutOfMemory>
        ensures ok { OnOk result (more ≤ self.new.room) }
        ensures list { self.new.list ≡ self.old.list }
        ensures err { OnErr result (self.new ≡ self.old) }
        ensures room { self.old.room ≤ self.new.room }
    {
        self.entries.reserve(more)?;
        Ok(())
    }

    /// Gives the file that begins at a cell an entry with that clone: its own if it has one, else a
    /// new one after all others. Returns where the entry stands.
    fn put(&mut self, at: CellAt, clone: Option<CellAt>) -> Result<usize, OutOfMemory>
        ensures ok { OnOk result (self.new.list.tag_pages ≡ self.old.list.tag_pages) }
        ensures puts { IfOk result (λ place. Puts at clone place self.old.list.entries
            self.new.list.entries) }
        ensures within { IfOk result (λ place. place < length self.new.list.entries) }
        ensures err { OnErr result (self.new ≡ self.old) }
        ensures room { self.old.room ≤ self.new.room + 1 }
        ensures has_room { 1 ≤ self.old.room → IsOk result }
        ensures there { (entry : EntryOf) → Contains self.old.list.entries entry → entry.at ≡ at
            → IsOk result }
    {
        match find_entry(self.entries.as_slice(), &at) {
            Some(i) => {
                self.entries[i] = Entry { at, clone };
                Ok(i)
            }
            None => {
                let behind = self.entries.len();
                self.entries.reserve(1)?;
                self.entries.push_reserved(Entry { at, clone });
                Ok(behind)
            }
        }
    }

    /// Adds the file that begins at a cell, with the clone's file that reads through it, or the
    /// first quota cell of a fileset that was removed. If it is already there, its clone is set
    /// anew, and that takes no memory. If the clone's file stands before it on the list, the two
    /// change places, so that the clone's goes first. After an error nothing has changed.
    ///
    /// What goes of a file is what its first cell says at that time. So a file that is to be
    /// trimmed and is then taken out of use goes as a whole, whether it is listed again or not. The
    /// steps need a first cell that says what is to go.
    pub(crate) fn add(&mut self, at: CellAt, clone: Option<CellAt>) -> Result<(), OutOfMemory>
        ensures ok { OnOk result (Adds at clone self.old.list.entries self.new.list.entries) }
        ensures tag_pages { self.new.list.tag_pages ≡ self.old.list.tag_pages }
        ensures err { OnErr result (self.new ≡ self.old) }
        ensures room { self.old.room ≤ self.new.room + 1 }
        ensures has_room { 1 ≤ self.old.room → IsOk result }
        ensures there { (entry : EntryOf) → Contains self.old.list.entries entry → entry.at ≡ at
            → IsOk result }
    {
        let place = self.put(at, clone)?;
        put_behind(&mut self.entries, place, &clone);
        Ok(())
    }

    /// Adds the page of a tag directory that was removed. No tag of it is in use any more. The
    /// pages of a directory are added in their chain's order, so that the last one is given back
    /// first, and then the one before it leads to none. After an error nothing has changed.
    pub(crate) fn add_tag_page(&mut self, home: Home) -> Result<(), OutOfMemory>
        ensures ok { OnOk result (self.new.list.tag_pages ≡ self.old.list.tag_pages ++ home ∷ []) }
        ensures entries { self.new.list.entries ≡ self.old.list.entries }
        ensures err { OnErr result (self.new ≡ self.old) }
        ensures room { self.new.room ≡ self.old.room }
    {
        self.tag_pages.push(home)?;
        Ok(())
    }

    /// The entry whose file lets go of something next: the last one. Returns None if no file is on
    /// the list.
    pub(crate) fn last(&self) -> Option<Entry>
        ensures { result ≡ slice_get self.now.list.entries (length self.now.list.entries - 1) }
    {
        self.entries.last().copied()
    }

    /// The page of a tag directory that is given back next, once no file is on the list: the last
    /// one. Returns None if there is no such page.
    pub(crate) fn last_tag_page(&self) -> Option<Home>
        ensures { result ≡ slice_get self.now.list.tag_pages (length self.now.list.tag_pages - 1) }
    {
        self.tag_pages.last().copied()
    }

    /// Whether nothing is to be let go.
    pub(crate) fn is_empty(&self) -> bool
        ensures none { result ≡ true → (self.now.list.entries ≡ [])
            × (self.now.list.tag_pages ≡ []) }
        ensures some { result ≡ false → (self.now.list.entries ≡ [])
            → ¬ self.now.list.tag_pages ≡ [] }
    {
        self.entries.is_empty() && self.tag_pages.is_empty()
    }
}
