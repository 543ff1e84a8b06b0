//! A set as a clone shows it: none of its directories has an index.
ghost use Rattle.std.specs.Prelude.{⊤};
ghost use Rattle.directory_rows.specs.domain_base.declared.place.Tag.{Tag as TagOf};
ghost use Rattle.directory_rows.specs.Directory.{IsWellFormed};
ghost use Rattle.directory_tables.specs.Bare.{bare_sound, without_indexes};

use directory_rows::{BitfileSet, Kind, Page, StoreFault, Tag};
use std::alloc::Global;

/// A set that shows another one without its indexes. It changes nothing: each changing call answers
/// OutOfMemory.
#[derive(Drop)]
pub struct Bare<'a, S> {
    set: &'a S,
}

impl<'a, S: BitfileSet> Bare<'a, S> {
    /// A view of a set.
    pub fn new(set: &'a S) -> Bare<'a, S>
        ensures { (dir : TagOf) → IsWellFormed (S.files set.now) dir
            → IsWellFormed (⟦<Bare<'a, S> as BitfileSet>⟧.files result) dir }
    {
        Bare { set }
    }
}

impl<'a, S: BitfileSet> BitfileSet for Bare<'a, S> {
    ghost files = { λ bare. without_indexes (S.files bare.set.now) };

    ghost missed = { λ bare. S.missed bare.set.now };

    ghost changes = { λ bare. S.changes bare.set.now };

    ghost writes_in_place = { λ _. ⊤ };

    ghost leaves_rest = { λ _ _. ⊤ };

    ghost is_spent = { λ _ _. ⊥ };

    ghost sound = { λ bare. bare_sound (S.files bare.set.now) (S.sound bare.set.now) };

    ghost rest_same = { λ _. tt };

    ghost rest_joins = { λ _ _ _ _ _. tt };

    ghost rest_spends = { λ _ _ _ _. (λ none. none, λ none. none) };

    ghost rest_writes = { λ _ _ _ _. tt };

    fn kind_of(&self, tag: Tag) -> Option<Kind> {
        self.set.kind_of(tag)
    }

    fn make(&mut self, _: Global, _: Kind, _: u32, _: u32) -> Result<Tag, StoreFault> {
        Err(StoreFault::OutOfMemory)
    }

    fn remove(&mut self, _: Global, _: Tag) -> Result<(), StoreFault> {
        Err(StoreFault::OutOfMemory)
    }

    fn dir_pages(&self, tag: Tag) -> u32 {
        self.set.dir_pages(tag)
    }

    fn dir_page(&self, tag: Tag, page: u32) -> Option<&Page> {
        self.set.dir_page(tag, page)
    }

    fn put_dir_page(&mut self, _: Global, _: Tag, _: u32, _: Page) -> Result<(), StoreFault> {
        Err(StoreFault::OutOfMemory)
    }

    fn index_pages(&self, _: Tag) -> u32 {
        0
    }

    fn index_page(&self, _: Tag, _: u32) -> Option<&Page> {
        None
    }

    fn put_index_page(&mut self, _: Global, _: Tag, _: u32, _: Page) -> Result<(), StoreFault> {
        Err(StoreFault::OutOfMemory)
    }

    fn insert_index_page(&mut self, _: Global, _: Tag, _: u32, _: Page) -> Result<(), StoreFault> {
        Err(StoreFault::OutOfMemory)
    }

    fn links(&self, tag: Tag) -> u32 {
        self.set.links(tag)
    }

    fn set_links(&mut self, _: Global, _: Tag, _: u32) -> Result<(), StoreFault> {
        Err(StoreFault::OutOfMemory)
    }

    fn misses(&self) -> u64 {
        self.set.misses()
    }
}
