//! The list of what is to be let go, and where the next step continues.
ghost use Rattle.std.specs.Prelude.{◌≡◌, ◌≤◌, ◌+◌, ◌-◌, ◌∷◌, ◌++◌, ◌↔◌, [], Contains, IfErr, IfOk, IsOk, None, Ok, OnErr, OnOk, false, length, slice_get, true};
ghost use Rattle.file_release.specs.page_store.declared.fault.StoreFault.TheVariants.{NoPage};
ghost use Rattle.file_release.specs.file_chains.Allocated.{FindsNone};
ghost use Rattle.file_release.specs.file_chains.MapChanges.{ChangesAtMost};
ghost use Rattle.file_release.specs.Sharing.{IsKnown};
ghost use Rattle.release_list.specs.declared.list.Entry.{Entry as EntryOf};
ghost use Rattle.release_list.specs.Cursors.{Deferral, IsAhead, IsOfEntry};
ghost use Rattle.release_list.specs.Listing.{Adds, IsEmpty};
ghost use Rattle.release_list.specs.Standing.{Files};
ghost use Rattle.release_list.specs.Steps.{IsWell, LacksRoom, LetsGo, now_of};

use crate::cursor::Cursor;
use crate::list::{Entry, Queue};
use file_release::{
    CellAt, FreeCells, FreeSpace, Home, MetaPages, OutOfMemory, OwnPages, StoreFault, Version,
};
use std::alloc::Global;
use std::marker::Model;

/// Files that are to let go of all their pages or of those after the ones that they keep, and pages
/// of tag directories that were removed; where the next step continues; and what is known of the
/// clone's file that reads through the file of that step. There is room for some more entries,
/// which then take no memory.
#[derive(Drop)]
pub struct Deferred {
    queue: Queue,
    cursor: Option<Cursor>,
    known: Option<OwnPages>,
}

impl Model for Deferred {
    ghost use Rattle.release_list.specs.Cursors.{Deferral};

    ghost Value = { Deferral };

    ghost view = { λ d. record {
      list = d.queue.list;
      cursor = d.cursor;
      known = d.known;
      room = d.queue.room;
    } };
}

impl Deferred {
    /// A list without entries: nothing is to be let go.
    pub fn new(alloc: Global) -> Deferred
        ensures entries { result.list.entries ≡ [] }
        ensures tag_pages { result.list.tag_pages ≡ [] }
        ensures cursor { result.cursor ≡ None }
        ensures known { result.known ≡ None }
    {
        Deferred {
            queue: Queue::new(alloc),
            cursor: None,
            known: None,
        }
    }

    /// Forgets where the next step would continue, and what is known of a clone's file. The step
    /// then looks from a file's first cell on, and reads the clone's map if it needs it. This is
    /// for a caller that may have taken a cell out of a file's chain, or may have changed a clone's
    /// map.
    pub fn start_over(&mut self)
        ensures list { self.new.list ≡ self.old.list }
        ensures cursor { self.new.cursor ≡ None }
        ensures known { self.new.known ≡ None }
        ensures room { self.new.room ≡ self.old.room }
    {
        self.cursor = None;
        self.known = None;
    }

    /// Forgets only what is known of a clone's file. Its map is read again when a step needs it.
    /// This is for a caller that may have changed that file, and has taken no cell out of the chain
    /// of a file.
    pub fn forget_clone(&mut self)
        ensures list { self.new.list ≡ self.old.list }
        ensures cursor { self.new.cursor ≡ self.old.cursor }
        ensures known { self.new.known ≡ None }
        ensures room { self.new.room ≡ self.old.room }
    {
        self.known = None;
    }

    /// Makes room for `more` entries more: that many calls of `add` then take no memory and have no
    /// error. After an error nothing has changed.
    pub fn reserve(&mut self, more: usize) -> Result<(), OutOfMemory>
        ensures ok { OnOk result (more ≤ self.new.room) }
        ensures list { self.new.list ≡ self.old.list }
        ensures err { OnErr result (self.new ≡ self.old) }
        ensures cursor { self.new.cursor ≡ self.old.cursor }
        ensures known { self.new.known ≡ self.old.known }
        ensures room { self.old.room ≤ self.new.room }
    {
        self.queue.reserve(more)
    }

    /// Adds the file that begins at a cell, with the clone's file that reads through it, or the
    /// first quota cell of a fileset that was removed. If it is already there, its clone is set
    /// anew. That takes no memory, and neither does adding when there is room. If the clone's file
    /// stands before it on the list, the two change places, so that the clone's goes first. After
    /// an error nothing has changed.
    ///
    /// What goes of a file is what its first cell says at that time. So a file that is to be
    /// trimmed and is then taken out of use goes as a whole, whether it is listed again or not. The
    /// steps need a first cell that says what is to go.
    pub fn add(&mut self, at: CellAt, clone: Option<CellAt>) -> Result<(), OutOfMemory>
        ensures ok { OnOk result (Adds at clone self.old.list.entries self.new.list.entries) }
        ensures tag_pages { self.new.list.tag_pages ≡ self.old.list.tag_pages }
        ensures err { OnErr result (self.new ≡ self.old) }
        ensures there { (entry : EntryOf) → Contains self.old.list.entries entry → entry.at ≡ at
            → IsOk result }
        ensures cursor { self.new.cursor ≡ self.old.cursor }
        ensures known { self.new.known ≡ self.old.known }
        ensures room { self.old.room ≤ self.new.room + 1 }
        ensures has_room { 1 ≤ self.old.room → IsOk result }
    {
        self.queue.add(at, clone)
    }

    /// Adds the page of a tag directory that was removed. No tag of it is in use any more. The
    /// pages of a directory are added in their chain's order, so that the last one is given back
    /// first, and then the one before it leads to none. After an error nothing has changed.
    pub fn add_tag_page(&mut self, home: Home) -> Result<(), OutOfMemory>
        ensures ok { OnOk result (self.new.list.tag_pages ≡ self.old.list.tag_pages ++ home ∷ []) }
        ensures entries { self.new.list.entries ≡ self.old.list.entries }
        ensures err { OnErr result (self.new ≡ self.old) }
        ensures cursor { self.new.cursor ≡ self.old.cursor }
        ensures known { self.new.known ≡ self.old.known }
        ensures room { self.new.room ≡ self.old.room }
    {
        self.queue.add_tag_page(home)
    }

    /// The entry whose file lets go of something next: the last one. Returns None if no file is on
    /// the list.
    pub fn last(&self) -> Option<Entry>
        ensures { result ≡ slice_get self.now.list.entries (length self.now.list.entries - 1) }
    {
        self.queue.last()
    }

    /// The entries. The next step works on the last one.
    pub fn entries(&self) -> &[Entry]
        ensures { result.now ≡ self.now.list.entries }
    {
        self.queue.entries.as_slice()
    }

    /// The page of a tag directory that is given back next, once no file is on the list: the last
    /// one. Returns None if there is no such page.
    pub fn last_tag_page(&self) -> Option<Home>
        ensures { result ≡ slice_get self.now.list.tag_pages (length self.now.list.tag_pages - 1) }
    {
        self.queue.last_tag_page()
    }

    /// Whether nothing is to be let go.
    pub fn is_empty(&self) -> bool
        ensures none { result ≡ true → (self.now.list.entries ≡ [])
            × (self.now.list.tag_pages ≡ []) }
        ensures some { result ≡ false → (self.now.list.entries ≡ [])
            → ¬ self.now.list.tag_pages ≡ [] }
    {
        self.queue.is_empty()
    }

    /// Lets go of things of the list, one after the other, in at most sixteen steps. A step lets go
    /// of one of these: a cell with the last pages that it names; a tail of the pages of one cell;
    /// one page, which is handed over to the clone's file that reads it; the second of some quota
    /// cells; a trim's Pending record, after which all pages are kept again; a clone's reading
    /// through a file that goes; the last cell of a removed file or of quotas; or a page of a tag
    /// directory, to which the page before it then no longer leads. Returns how many steps were
    /// done: 0 if and only if the list is empty. What no file has any more waits for the group. At
    /// most `most` pages of metadata change, which is five or more, not counting those of bitmaps,
    /// which the caller keeps. So it stops before a step with which there might be more: a step has
    /// two pages, or five if the entry gives a clone.
    ///
    /// If a step cannot be done, the call returns those before it, if there are any, and the next
    /// call says why. So after an error nothing but room and the count of misses has changed.
    /// NoPage is returned only if the last entry's clone reads a page through its file for which
    /// there is no room. That is a miss.
    ///
    /// A step continues after the cell that stands before the one from which the last step let
    /// something go, in the same call or in an earlier one, so that what was passed is not passed
    /// again. Only if nothing that goes is after that cell does a step look at the cells from the
    /// first one on, and so finds that all is gone. So with k cells kept and m let go, the steps of
    /// a trim look at about 2 * k + m cells in all. The cells of a clone's file are read once, in
    /// the first step that needs its map, and once more after each page that is handed over to it.
    pub fn release_some<M: MetaPages>(
        &mut self,
        alloc: Global,
        pages: &mut M,
        space: &mut FreeSpace,
        cells: &mut FreeCells,
        group: u64,
        version: Version,
        most: u32,
    ) -> Result<u32, StoreFault>
        requires most { 5 ≤ most }
        requires well { (files : Files) × IsWell (now_of self.old.list files space.old cells.old
            (M.pages pages.old)) }
        requires ahead { IsAhead (M.pages pages.old) self.old.cursor }
        requires known { IsKnown (M.pages pages.old) self.old.known }
        ensures ahead { IsAhead (M.pages pages.new) self.new.cursor }
        ensures known { IsKnown (M.pages pages.new) self.new.known }
        ensures on { OnOk result (IsOfEntry self.new.list.entries self.new.cursor) }
        ensures ok { (files : Files) → IsWell (now_of self.old.list files space.old cells.old
            (M.pages pages.old)) → IfOk result (λ count. LetsGo group version
            (now_of self.old.list files space.old cells.old (M.pages pages.old)) count
            self.new.list space.new cells.new (M.pages pages.new)) }
        ensures some { IfOk result (λ count. (count ≡ 0) ↔ IsEmpty self.old.list) }
        ensures empty { IsEmpty self.old.list → result ≡ Ok 0 }
        ensures most { IfOk result (λ count. count ≤ 16) }
        ensures few { OnOk result (ChangesAtMost most (M.pages pages.old) (M.pages pages.new)) }
        ensures err { IfErr result (FindsNone space.old space.new cells.old) }
        ensures full { (files : Files) → IsWell (now_of self.old.list files space.old cells.old
            (M.pages pages.old)) → IfErr result (λ fault. fault ≡ NoPage
            → LacksRoom self.old.list files) }
        ensures list { OnErr result (self.new ≡ self.old) }
        ensures cells { OnErr result (cells.new ≡ cells.old) }
        ensures pages { OnErr result (M.pages pages.new ≡ M.pages pages.old) }
        ensures room { M.room pages.old ≤ M.room pages.new + 16 }
        ensures list_room { self.old.room ≤ self.new.room }
        ensures before { M.before pages.new ≡ M.before pages.old }
    {
        self.queue.release_some(
            alloc,
            pages,
            space,
            cells,
            &mut self.cursor,
            &mut self.known,
            group,
            version,
            most,
        )
    }
}
