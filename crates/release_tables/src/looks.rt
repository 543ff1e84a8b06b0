//! Pages of metadata that count how often they are looked at and changed.
ghost use Rattle.std.specs.Prelude.{◌≡◌};
ghost use Rattle.release_steps.specs.page_store.Homes.{are_whole};

use release_steps::{Home, MemoryPages, MetaPages, OutOfMemory, Page};
use std::alloc::Global;
use std::cell::Cell;

/// Pages in memory, with how often one of them was looked at, and how often one was changed.
#[derive(Drop)]
pub struct Counted {
    pages: MemoryPages,
    looks: Cell<u32>,
    changes: u32,
}

impl Counted {
    /// These pages, none of them looked at or changed yet.
    pub fn new(pages: MemoryPages) -> Counted
        ensures { result.pages ≡ pages }
    {
        Counted {
            pages,
            looks: Cell::new(0),
            changes: 0,
        }
    }

    /// How often a page was looked at, and how often one was changed.
    pub fn told(&self) -> [u32; 2] {
        [self.looks.get(), self.changes]
    }

    /// One change more.
    fn changed(&mut self)
        ensures { self.new.pages ≡ self.old.pages }
    {
        self.changes = self.changes.saturating_add(1);
    }
}

impl MetaPages for Counted {
    ghost pages = { λ counted. ⟦<MemoryPages as MetaPages>⟧.pages counted.pages };

    ghost before = { λ counted. ⟦<MemoryPages as MetaPages>⟧.before counted.pages };

    ghost room = { λ counted. ⟦<MemoryPages as MetaPages>⟧.room counted.pages };

    ghost whole = { λ counted. are_whole counted.pages.entries.items counted.pages.whole };

    fn get(&self, home: Home) -> Option<&Page> {
        self.looks.set(self.looks.get().saturating_add(1));
        self.pages.get(home)
    }

    fn reserve(&mut self, alloc: Global, more: usize) -> Result<(), OutOfMemory> {
        self.pages.reserve(alloc, more)
    }

    fn spare(&self) -> usize {
        self.pages.spare()
    }

    fn put(&mut self, home: Home, page: Page) {
        self.changed();
        self.pages.put(home, page);
    }

    fn set(&mut self, home: Home, at: usize, bytes: &[u8]) {
        self.changed();
        self.pages.set(home, at, bytes);
    }

    fn forget(&mut self, home: Home) {
        self.changed();
        self.pages.forget(home);
    }
}
