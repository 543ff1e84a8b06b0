//! What can be asked of pages and of the change that is laid over them, and how the change is kept
//! or taken back.
ghost use Rattle.std.specs.Prelude.{◌≡◌, false, []};
ghost use Rattle.std.specs.Option.{option_copied};
ghost use Rattle.page_store.specs.domain_base.declared.place.Home.{Home as HomeOf};
ghost use Rattle.page_store.specs.Pages.{no_pages};
ghost use Rattle.staged_pages.specs.Staged.{is_on};
ghost use Rattle.staged_pages.specs.Store.{before_of, changed_in, pages_of, room_of};

use crate::pages::StagedPages;
use crate::settle::{settle_all, take_back_all};
use page_store::numbered::find;
use page_store::{Home, Page, home_number};
use std::alloc::Global;

impl StagedPages {
    /// A store without pages, changes or room.
    pub fn new(alloc: Global) -> StagedPages
        ensures pages { pages_of result ≡ no_pages }
        ensures before { before_of result ≡ no_pages }
        ensures changed { changed_in result ≡ [] }
        ensures room { room_of result ≡ 0 }
    {
        StagedPages {
            entries: Vec::new(alloc),
            changed: Vec::new(alloc),
            spare: Vec::new(alloc),
        }
    }

    /// The homes that the change has touched, each once: at every other home the page is what it
    /// was.
    pub fn changed(&self) -> &[Home]
        ensures list { result.now ≡ changed_in self.now }
        ensures others { (home : HomeOf) → is_on result.now home ≡ false
            → pages_of self.now home ≡ before_of self.now home }
    {
        self.changed.as_slice()
    }

    /// The page that stood at a home before the change, if one did.
    pub fn before(&self, home: Home) -> Option<&Page>
        ensures { option_copied result ≡ before_of self.now home }
    {
        find(&self.entries, home_number(&home))?.before()
    }

    /// Keeps the change: what stands at each home now is what stood there before the next one.
    pub fn keep(&mut self)
        ensures pages { pages_of self.new ≡ pages_of self.old }
        ensures before { before_of self.new ≡ pages_of self.old }
        ensures changed { changed_in self.new ≡ [] }
        ensures room { room_of self.new ≡ room_of self.old }
    {
        settle_all(&mut self.entries, &mut self.changed);
    }

    /// Takes the change back: what stood at each home before stands there again.
    pub fn take_back(&mut self)
        ensures pages { pages_of self.new ≡ before_of self.old }
        ensures before { before_of self.new ≡ before_of self.old }
        ensures changed { changed_in self.new ≡ [] }
        ensures room { room_of self.new ≡ room_of self.old }
    {
        take_back_all(&mut self.entries, &mut self.changed);
    }
}
