//! A set that counts the pages that are looked at.
ghost use Rattle.std.specs.Prelude.{◌≡◌, ⊤};

use page_store::{BitfileSet, Kind, Page, StoreFault, Tag};
use std::alloc::Global;
use std::cell::Cell;

/// A set that shows another one, and counts how many pages of directories and of indexes were
/// looked at. It changes nothing: each changing call answers OutOfMemory.
#[derive(Drop)]
pub struct Looks<'a, S> {
    set: &'a S,
    dir_looks: Cell<u32>,
    index_looks: Cell<u32>,
}

impl<'a, S: BitfileSet> Looks<'a, S> {
    /// A view of a set, none of whose pages was looked at yet.
    pub fn new(set: &'a S) -> Looks<'a, S>
        ensures { ⟦<Looks<'a, S> as BitfileSet>⟧.files result ≡ S.files set.now }
    {
        Looks {
            set,
            dir_looks: Cell::new(0),
            index_looks: Cell::new(0),
        }
    }

    /// How many pages were looked at since this was last asked: of directories, and of indexes.
    pub fn taken(&self) -> [u32; 2] {
        [self.dir_looks.replace(0), self.index_looks.replace(0)]
    }
}

/// One look more.
fn count(looks: &Cell<u32>) {
    looks.set(looks.get().saturating_add(1));
}

impl<'a, S: BitfileSet> BitfileSet for Looks<'a, S> {
    ghost files = { λ looks. S.files looks.set.now };

    ghost missed = { λ looks. S.missed looks.set.now };

    ghost changes = { λ looks. S.changes looks.set.now };

    ghost writes_in_place = { λ _. ⊤ };

    ghost leaves_rest = { λ _ _. ⊤ };

    ghost is_spent = { λ _ _. ⊥ };

    ghost sound = { λ looks. S.sound looks.set.now };

    ghost rest_same = { λ _. tt };

    ghost rest_joins = { λ _ _ _ _ _. tt };

    ghost rest_spends = { λ _ _ _ _. (λ none. none, λ none. none) };

    ghost rest_writes = { λ _ _ _ _. tt };

    fn kind_of(&self, tag: Tag) -> Option<Kind> {
        self.set.kind_of(tag)
    }

    fn make(&mut self, _: Global, _: Kind, _: u32, _: u32) -> Result<Tag, StoreFault> {
        Err(StoreFault::OutOfMemory)
    }

    fn remove(&mut self, _: Global, _: Tag) -> Result<(), StoreFault> {
        Err(StoreFault::OutOfMemory)
    }

    fn dir_pages(&self, tag: Tag) -> u32 {
        self.set.dir_pages(tag)
    }

    fn dir_page(&self, tag: Tag, page: u32) -> Option<&Page> {
        count(&self.dir_looks);
        self.set.dir_page(tag, page)
    }

    fn put_dir_page(&mut self, _: Global, _: Tag, _: u32, _: Page) -> Result<(), StoreFault> {
        Err(StoreFault::OutOfMemory)
    }

    fn index_pages(&self, tag: Tag) -> u32 {
        self.set.index_pages(tag)
    }

    fn index_page(&self, tag: Tag, page: u32) -> Option<&Page> {
        count(&self.index_looks);
        self.set.index_page(tag, page)
    }

    fn put_index_page(&mut self, _: Global, _: Tag, _: u32, _: Page) -> Result<(), StoreFault> {
        Err(StoreFault::OutOfMemory)
    }

    fn insert_index_page(&mut self, _: Global, _: Tag, _: u32, _: Page) -> Result<(), StoreFault> {
        Err(StoreFault::OutOfMemory)
    }

    fn links(&self, tag: Tag) -> u32 {
        self.set.links(tag)
    }

    fn set_links(&mut self, _: Global, _: Tag, _: u32) -> Result<(), StoreFault> {
        Err(StoreFault::OutOfMemory)
    }

    fn misses(&self) -> u64 {
        self.set.misses()
    }
}
