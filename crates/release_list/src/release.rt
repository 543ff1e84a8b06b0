//! Steps that let go of what is on a list.
ghost use Rattle.std.specs.Prelude.{◌≡◌, ◌≤◌, ◌+◌, ◌↔◌, [], Contains, IfErr, IfOk, List, Ok, OnErr, OnOk, false, true};
ghost use Rattle.file_release.specs.domain_base.declared.place.Home.{Home as HomeOf};
ghost use Rattle.file_release.specs.free_space.Spaces.{IsHeld};
ghost use Rattle.release_list.specs.declared.list.Entry.{Entry as EntryOf};
ghost use Rattle.release_list.specs.Cursors.{IsAhead, IsOfEntry};
ghost use Rattle.release_list.specs.Listing.{IsEmpty};
ghost use Rattle.file_release.specs.page_store.declared.fault.StoreFault.TheVariants.{NoPage};
ghost use Rattle.file_release.specs.file_chains.Allocated.{FindsNone};
ghost use Rattle.file_release.specs.file_chains.MapChanges.{ChangesAtMost};
ghost use Rattle.file_release.specs.Sharing.{IsKnown};
ghost use Rattle.release_list.specs.Standing.{Files};
ghost use Rattle.release_list.specs.Steps.{IsLast, IsWell, LacksRoom, Leaves, LetsGo, TakesTagPage, list_after, now_of, step_pages as pages_of_step};

use crate::cursor::Cursor;
use crate::entries::release_entry;
use crate::list::{Entry, Queue, forget};
use crate::went::Went;
use file_release::{
    FreeCells, FreeSpace, MetaPages, OwnPages, PageUse, StoreFault, Version, unlink_page,
};
use std::alloc::Global;

/// The most steps that a call does.
const STEPS: u32 = 16;

impl Queue {
    /// Takes off the last entry what a step took of it, and takes off the other entries a clone
    /// that has nothing left.
    fn leave(&mut self, went: Went)
        requires { (front : List EntryOf) × (entry : EntryOf) × IsLast front entry self.old.list }
        ensures list { (front : List EntryOf) (entry : EntryOf) → IsLast front entry self.old.list
            → self.new.list ≡ list_after went front entry self.old.list }
        ensures room { self.old.room ≤ self.new.room }
    {
        match went {
            Went::Part => {}
            Went::Reading => {
                let last = self.entries.len() - 1;
                self.entries[last].clone = None;
            }
            Went::Last => {
                self.entries.pop();
            }
            Went::File => {
                if let Some(entry) = self.entries.pop() {
                    forget(&mut self.entries, &entry.at);
                }
            }
        }
    }

    /// Gives back the last page of a tag directory, if no file is on the list. Returns whether
    /// there was one. The page before it on the list then leads to none.
    fn give_tag_page<M: MetaPages>(
        &mut self,
        pages: &mut M,
        space: &mut FreeSpace,
        group: u64,
    ) -> bool
        requires none { self.old.list.entries ≡ [] }
        requires held { (home : HomeOf) → Contains self.old.list.tag_pages home
            → IsHeld space.old home.vol home.page }
        ensures some { result ≡ true → TakesTagPage group self.old.list self.new.list space.old
            space.new (M.pages pages.old) (M.pages pages.new) }
        ensures nothing { result ≡ false → (self.old.list.tag_pages ≡ []) × (self.new ≡ self.old)
            × (space.new ≡ space.old) × (M.pages pages.new ≡ M.pages pages.old) }
        ensures room { M.room pages.new ≡ M.room pages.old }
        ensures list_room { self.new.room ≡ self.old.room }
        ensures before { M.before pages.new ≡ M.before pages.old }
    {
        match self.tag_pages.pop() {
            Some(home) => {
                unlink_page(pages, &self.tag_pages.last().copied(), &home);
                space.give_back(home, PageUse::Metadata, group);
                true
            }
            None => false,
        }
    }

    /// The most pages of metadata that the next step changes.
    fn step_pages(&self) -> u32
        ensures { result ≡ pages_of_step self.now.list }
    {
        match self.last() {
            Some(Entry { clone: Some(_), .. }) => 5,
            _ => 2,
        }
    }

    /// Lets go of something of the last entry's file or, if no file is on the list, of the last
    /// page of a tag directory. Returns whether there was anything.
    fn release_one<M: MetaPages>(
        &mut self,
        alloc: Global,
        pages: &mut M,
        space: &mut FreeSpace,
        cells: &mut FreeCells,
        cursor: &mut Option<Cursor>,
        known: &mut Option<OwnPages>,
        group: u64,
        version: Version,
    ) -> Result<bool, StoreFault>
        requires well { (files : Files) × IsWell (now_of self.old.list files space.old cells.old
            (M.pages pages.old)) }
        requires ahead { IsAhead (M.pages pages.old) cursor.old }
        requires known { IsKnown (M.pages pages.old) known.old }
        ensures ahead { IsAhead (M.pages pages.new) cursor.new }
        ensures known { IsKnown (M.pages pages.new) known.new }
        ensures on { OnOk result (IsOfEntry self.new.list.entries cursor.new) }
        ensures place { OnErr result (cursor.new ≡ cursor.old) }
        ensures same { OnErr result (known.new ≡ known.old) }
        ensures ok { (files : Files) → IsWell (now_of self.old.list files space.old cells.old
            (M.pages pages.old)) → IfOk result (λ some. some ≡ true → Leaves group version
            (now_of self.old.list files space.old cells.old (M.pages pages.old)) self.new.list
            space.new cells.new (M.pages pages.new)) }
        ensures nothing { IfOk result (λ some. some ≡ false → IsEmpty self.old.list
            × (self.new ≡ self.old) × (space.new ≡ space.old) × (cells.new ≡ cells.old)
            × (M.pages pages.new ≡ M.pages pages.old)) }
        ensures there { IfOk result (λ some. some ≡ true → ¬ IsEmpty self.old.list) }
        ensures listed { OnErr result (¬ IsEmpty self.old.list) }
        ensures err { IfErr result (FindsNone space.old space.new cells.old) }
        ensures full { (files : Files) → IsWell (now_of self.old.list files space.old cells.old
            (M.pages pages.old)) → IfErr result (λ fault. fault ≡ NoPage
            → LacksRoom self.old.list files) }
        ensures list { OnErr result (self.new ≡ self.old) }
        ensures cells { OnErr result (cells.new ≡ cells.old) }
        ensures pages { OnErr result (M.pages pages.new ≡ M.pages pages.old) }
        ensures room { M.room pages.old ≤ M.room pages.new + 1 }
        ensures list_room { self.old.room ≤ self.new.room }
        ensures before { M.before pages.new ≡ M.before pages.old }
    {
        let count = self.entries.len();
        if count == 0 {
            *cursor = None;
            *known = None;
            return Ok(self.give_tag_page(pages, space, group));
        }
        let entry = self.entries[count - 1];
        match release_entry(
            alloc, pages, space, cells, &entry, cursor, known, group, version,
        ) {
            Ok(went) => {
                self.leave(went);
                Ok(true)
            }
            Err(fault) => Err(fault),
        }
    }

    /// Lets go of things of the list, one after the other, in at most sixteen steps, with which at
    /// most `most` pages of metadata change. It begins after the cursor's cell. The cursor is then
    /// where the next step continues, and `known` is what that step may use of a clone's file.
    pub(crate) fn release_some<M: MetaPages>(
        &mut self,
        alloc: Global,
        pages: &mut M,
        space: &mut FreeSpace,
        cells: &mut FreeCells,
        cursor: &mut Option<Cursor>,
        known: &mut Option<OwnPages>,
        group: u64,
        version: Version,
        most: u32,
    ) -> Result<u32, StoreFault>
        requires most { 5 ≤ most }
        requires well { (files : Files) × IsWell (now_of self.old.list files space.old cells.old
            (M.pages pages.old)) }
        requires ahead { IsAhead (M.pages pages.old) cursor.old }
        requires known { IsKnown (M.pages pages.old) known.old }
        ensures ahead { IsAhead (M.pages pages.new) cursor.new }
        ensures known { IsKnown (M.pages pages.new) known.new }
        ensures on { OnOk result (IsOfEntry self.new.list.entries cursor.new) }
        ensures place { OnErr result (cursor.new ≡ cursor.old) }
        ensures same { OnErr result (known.new ≡ known.old) }
        ensures ok { (files : Files) → IsWell (now_of self.old.list files space.old cells.old
            (M.pages pages.old)) → IfOk result (λ count. LetsGo group version
            (now_of self.old.list files space.old cells.old (M.pages pages.old)) count self.new.list
            space.new cells.new (M.pages pages.new)) }
        ensures some { IfOk result (λ count. (count ≡ 0) ↔ IsEmpty self.old.list) }
        ensures empty { IsEmpty self.old.list → result ≡ Ok 0 }
        ensures most { IfOk result (λ count. count ≤ 16) }
        ensures few { OnOk result (ChangesAtMost most (M.pages pages.old) (M.pages pages.new)) }
        ensures err { IfErr result (FindsNone space.old space.new cells.old) }
        ensures full { (files : Files) → IsWell (now_of self.old.list files space.old cells.old
            (M.pages pages.old)) → IfErr result (λ fault. fault ≡ NoPage
            → LacksRoom self.old.list files) }
        ensures list { OnErr result (self.new ≡ self.old) }
        ensures cells { OnErr result (cells.new ≡ cells.old) }
        ensures pages { OnErr result (M.pages pages.new ≡ M.pages pages.old) }
        ensures room { M.room pages.old ≤ M.room pages.new + 16 }
        ensures list_room { self.old.room ≤ self.new.room }
        ensures before { M.before pages.new ≡ M.before pages.old }
    {
        let mut count = 0;
        let mut changed = 0;
        for _ in 0..STEPS {
            changed += self.step_pages();
            if most < changed {
                return Ok(count);
            }
            match self.release_one(alloc, pages, space, cells, cursor, known, group, version) {
                Ok(true) => count += 1,
                Ok(false) => return Ok(count),
                Err(fault) if count == 0 => return Err(fault),
                Err(_) => return Ok(count),
            }
        }
        Ok(count)
    }
}
