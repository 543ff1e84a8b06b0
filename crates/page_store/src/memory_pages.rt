//! Pages of metadata in memory.
ghost use Rattle.std.specs.Prelude.{◌≡◌, ◌+◌, ◌-◌, ◌≤◌, IsSome, IsSomeAnd, length, vec_capacity, vec_len};
ghost use Rattle.sorted_sets.specs.domain_base.Page.{overwritten};
ghost use Rattle.page_store.specs.Pages.{no_pages};
ghost use Rattle.page_store.specs.Homes.{AreWholeValues, are_whole, pages_of};
ghost use Rattle.sorted_sets.specs.Rising.{IsRising, Sets, value_at};

use crate::MetaPages;
use sorted_sets::limits::PAGE_BYTES;
use sorted_sets::numbered::{find, place_of, put, take};
use sorted_sets::{Home, OutOfMemory, Page, home_number};
use std::alloc::Global;

/// Pages of metadata by their homes, in one list in the order of homes. It has room for as many
/// more pages as the list does.
#[derive(Drop)]
pub struct MemoryPages {
    entries: Vec<(u64, Page)>,
    ghost rising: { IsRising entries.items },
    ghost whole: { AreWholeValues entries.items },
}

/// Writes these bytes into the page of that number, from byte `at` on.
fn set_bytes(entries: &mut Vec<(u64, Page)>, key: u64, at: usize, bytes: &[u8])
    requires rising { IsRising entries.old.items }
    requires there { IsSome (value_at entries.old.items key) }
    requires fits { at + length bytes.now ≤ PAGE_BYTES }
    ensures value { IsSomeAnd (value_at entries.old.items key)
        (λ page. Sets entries.old.items entries.new.items key (overwritten page at bytes.now)) }
    ensures rising { IsRising entries.new.items }
    ensures len { vec_len entries.new ≡ vec_len entries.old }
    ensures capacity { vec_capacity entries.new ≡ vec_capacity entries.old }
{
    if let Ok(place) = place_of(entries, key) {
        entries[place].1.set(at, bytes);
    }
}

impl MemoryPages {
    /// A store without pages or room.
    pub fn new(alloc: Global) -> MemoryPages
        ensures pages { ⟦<MemoryPages as MetaPages>⟧.pages result ≡ no_pages }
        ensures room { ⟦<MemoryPages as MetaPages>⟧.room result ≡ 0 }
    {
        MemoryPages {
            entries: Vec::new(alloc),
        }
    }
}

impl MetaPages for MemoryPages {
    ghost pages = { λ store. pages_of store.entries.items };

    ghost before = { λ _. no_pages };

    ghost room = { λ store. vec_capacity store.entries - vec_len store.entries };

    ghost whole = { λ store. are_whole store.entries.items store.whole };

    fn get(&self, home: Home) -> Option<&Page> {
        find(&self.entries, home_number(&home))
    }

    fn reserve(&mut self, _alloc: Global, more: usize) -> Result<(), OutOfMemory> {
        self.entries.reserve(more)
    }

    fn spare(&self) -> usize {
        self.entries.capacity() - self.entries.len()
    }

    fn put(&mut self, home: Home, page: Page) {
        prove!(page.bytes().len() == PAGE_BYTES);
        let _ = put(&mut self.entries, home_number(&home), page);
    }

    fn set(&mut self, home: Home, at: usize, bytes: &[u8]) {
        set_bytes(&mut self.entries, home_number(&home), at, bytes);
    }

    fn forget(&mut self, home: Home) {
        let _ = take(&mut self.entries, home_number(&home));
    }
}
