//! A tag directory on pages in memory, and the calls on it.
ghost use Rattle.std.specs.Prelude.{◌≡◌, ◌==◌, ◌||◌, ◌<◌};
ghost use Rattle.fileset_table.specs.page_store.Pages.{same_home};
ghost use Rattle.table_tables.specs.Trial.{IsTrial, has_either};

use fileset_table::{CellAt, Home, MemoryPages, MetaPages, Tag, VolIx};
use std::alloc::Global;
use tag_dirs::{TagDir, TagPlace, unlink_page};

/// A directory with the pages that it stands on, and the last slot that a tag was entered in.
#[derive(Drop)]
pub struct Trial {
    pages: MemoryPages,
    dir: TagDir,
    last: u32,
}

/// The page of volume 1 with that number.
pub fn home(page: u32) -> Home {
    Home {
        vol: VolIx::new(1).unwrap(),
        page,
    }
}

/// Cell 5 of that page of volume 1.
fn cell(page: u32) -> CellAt
    ensures { result.cell < 28 }
{
    CellAt {
        vol: VolIx::new(1).unwrap(),
        page,
        cell: 5,
    }
}

/// Whether a place has the index, or the home.
fn is_either(place: &TagPlace, index: u32, home: &Home) -> bool
    ensures { result ≡ (same_home home.now place.now.home || place.now.index == index) }
{
    let is_home = home.vol.number() == place.home.vol.number() && home.page == place.home.page;
    is_home || place.index == index
}

/// Whether one of the places has the index, or the home.
fn is_taken(places: &[TagPlace], index: u32, home: &Home) -> bool
    ensures { result ≡ has_either places.now index home.now }
{
    places.iter().any(|place| is_either(place, index, home))
}

/// Whether two lists of places are the same.
fn are_same(a: &[TagPlace], b: &[TagPlace]) -> bool {
    a.len() == b.len() && a.iter().zip(b).all(|(p, q)| p == q)
}

impl Trial {
    /// A directory without a page.
    pub fn new(alloc: Global) -> Self
        ensures { IsTrial result.pages result.dir result.last }
    {
        Trial {
            pages: MemoryPages::new(alloc),
            dir: TagDir::new(alloc),
            last: 0,
        }
    }

    /// Adds a page with this index, at page 100 of volume 1 or the one after the last, if that may
    /// be done.
    pub fn add(&mut self, alloc: Global, index: u32) -> Option<bool>
        requires { IsTrial self.old.pages self.old.dir self.old.last }
        ensures { IsTrial self.new.pages self.new.dir self.new.last }
    {
        let places = self.dir.places();
        let home = home(100 + (places.len() % 100) as u32);
        if is_taken(places, index, &home) || 4_202_512 <= index {
            return None;
        }
        if places.is_empty() && index != 0 {
            return None;
        }
        self.dir.add_page(alloc, &mut self.pages, index, home).ok()?;
        Some(true)
    }

    /// Reads the directory from its first page, and tells whether its places are as before.
    pub fn reopen(&mut self, alloc: Global) -> Option<bool>
        requires { IsTrial self.old.pages self.old.dir self.old.last }
        ensures { IsTrial self.new.pages self.new.dir self.new.last }
    {
        let first = self.dir.places().first()?.home;
        match TagDir::read(alloc, &self.pages, first) {
            Ok(dir) => {
                let same = are_same(self.dir.places(), dir.places());
                self.dir = dir;
                Some(same)
            }
            Err(_) => None,
        }
    }

    /// Enters a cell of that page.
    pub fn enter(&mut self, page: u32) -> Option<Tag>
        requires { IsTrial self.old.pages self.old.dir self.old.last }
        ensures { IsTrial self.new.pages self.new.dir self.new.last }
    {
        let tag = self.dir.enter(&mut self.pages, cell(page))?;
        self.last = self.last.max(tag.slot);
        Some(tag)
    }

    /// Enters a cell of that page as a tag of a slot above the last one.
    pub fn enter_as(&mut self, tag: Tag, page: u32) -> Option<bool>
        requires { IsTrial self.old.pages self.old.dir self.old.last }
        ensures { IsTrial self.new.pages self.new.dir self.new.last }
    {
        if tag.slot <= self.last || tag.seq == 0 {
            return None;
        }
        let done = self.dir.enter_as(&mut self.pages, tag, cell(page));
        self.last = tag.slot;
        Some(done)
    }

    /// Makes a tag lead to a cell of that page.
    pub fn switch(&mut self, tag: Tag, page: u32) -> Option<bool>
        requires { IsTrial self.old.pages self.old.dir self.old.last }
        ensures { IsTrial self.new.pages self.new.dir self.new.last }
    {
        if self.dir.look(&self.pages, tag).is_none() {
            return None;
        }
        self.dir.switch(&mut self.pages, tag, cell(page));
        Some(true)
    }

    /// Takes a tag out of use.
    pub fn drop_tag(&mut self, tag: Tag) -> Option<bool>
        requires { IsTrial self.old.pages self.old.dir self.old.last }
        ensures { IsTrial self.new.pages self.new.dir self.new.last }
    {
        if self.dir.look(&self.pages, tag).is_none() {
            return None;
        }
        self.dir.drop_tag(&mut self.pages, tag);
        Some(true)
    }

    /// The page of the cell that a tag leads to, if it leads to one of cell 5 of volume 1.
    pub fn look(&self, tag: Tag) -> Option<u32>
        requires { IsTrial self.now.pages self.now.dir self.now.last }
    {
        let at = self.dir.look(&self.pages, tag)?;
        (at.vol.number() == 1 && at.cell == 5).then_some(at.page)
    }

    /// A tag in use of the page with that number.
    pub fn tag_on(&self, number: usize) -> Option<Tag>
        requires { IsTrial self.now.pages self.now.dir self.now.last }
    {
        self.dir.tag_on(&self.pages, number)
    }

    /// Makes the page at a home lead to none, if it leads to that one.
    pub fn unlink(&mut self, front: &Option<Home>, next: &Home) {
        unlink_page(&mut self.pages, front, next);
    }

    /// The last slot that a tag was entered in.
    pub fn last(&self) -> u32 {
        self.last
    }

    /// The bytes of the page at a home.
    pub fn bytes_of(&self, home: Home) -> Option<&[u8]> {
        Some(self.pages.get(home)?.bytes())
    }
}
