//! Pages with a change laid over them as pages of metadata.
ghost use Rattle.staged_pages.specs.Store.{before_of, pages_of, room_of, whole_pages};

use crate::edit::{add_at, forget_at, put_at, rewrite_at};
use crate::pages::StagedPages;
use page_store::numbered::find;
use page_store::{Home, MetaPages, OutOfMemory, Page, home_number};
use std::alloc::Global;

impl MetaPages for StagedPages {
    ghost pages = { pages_of };

    ghost room = { room_of };

    ghost before = { before_of };

    ghost whole = { λ store. whole_pages store.entries.items store.changed.items store.slots };

    fn get(&self, home: Home) -> Option<&Page> {
        find(&self.entries, home_number(&home))?.page()
    }

    fn reserve(&mut self, alloc: Global, more: usize) -> Result<(), OutOfMemory> {
        let want = more.max(self.spare.len());
        self.entries.reserve(want)?;
        self.changed.reserve(self.entries.len() + want)?;
        self.spare.reserve(want)?;
        for _ in self.spare.len()..want {
            let page = Page::zeros(alloc)?;
            self.spare.push_reserved(page);
        }
        Ok(())
    }

    fn spare(&self) -> usize {
        self.spare.len()
    }

    fn put(&mut self, home: Home, page: Page) {
        let Some(slot) = find(&self.entries, home_number(&home)) else {
            if let Some(other) = self.spare.pop() {
                add_at(&mut self.entries, &mut self.changed, home, page, other);
            }
            return;
        };
        if slot.page().is_none() {
            if let Some(other) = self.spare.pop() {
                put_at(
                    &mut self.entries,
                    &mut self.changed,
                    home,
                    page,
                    Some(other),
                );
            }
        } else {
            put_at(&mut self.entries, &mut self.changed, home, page, None);
        }
    }

    fn set(&mut self, home: Home, at: usize, bytes: &[u8]) {
        rewrite_at(&mut self.entries, &mut self.changed, home, at, bytes);
    }

    fn forget(&mut self, home: Home) {
        forget_at(&mut self.entries, &mut self.changed, home);
    }
}
