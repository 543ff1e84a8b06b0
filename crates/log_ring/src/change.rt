//! Changes: what a transaction puts at homes.
ghost use Rattle.std.specs.Prelude.{◌≡◌, ◌⊎◌, [], ◌+◌, ◌<◌, ◌≤◌, ◌↔◌, IsTrue, IfNone, IfOk, IfSome, IsSome, false, length};
ghost use Rattle.std.specs.List.{list_any};
ghost use Rattle.std.specs.Option.{option_copied};
ghost use Rattle.disk_label.specs.domain_base.Limits.{transaction_pages};
ghost use Rattle.page_store.specs.Pages.{same_home};
ghost use Rattle.log_ring.specs.Images.{IsChange, IsPlaceOf, homes_of, image_at, overlaid, with_image};

use crate::image::{PageImage, image_of, place_of};
use disk_label::limits::TRANSACTION_PAGES;
use disk_label::{Home, OutOfMemory, Page};
use page_store::MetaPages;
use std::alloc::Global;
use std::marker::Model;

/// What a transaction puts at homes: a page at each of at most 32 homes, all of them distinct. It
/// is seen as the list of its images, in the order in which their homes were first put.
#[derive(Drop)]
pub struct Change {
    images: Vec<PageImage>,
}

impl Model for Change {
    ghost use Rattle.std.specs.Prelude.{List, ◌≤◌, vec_capacity};
    ghost use Rattle.disk_label.specs.domain_base.Limits.{transaction_pages};
    ghost use Rattle.log_ring.specs.Images.{IsChange};
    ghost use Rattle.log_ring.specs.declared.image.PageImage.{PageImage};

    ghost Value = { List PageImage };

    ghost view = { λ c. c.images.items };

    ghost invariant = { λ c. IsChange c.images.items
        × (transaction_pages ≤ vec_capacity c.images) };
}

impl Change {
    /// A change without pages. Takes room for all the pages that it may have, so that none of its
    /// other calls takes memory.
    pub fn new(alloc: Global) -> Result<Change, OutOfMemory>
        ensures { IfOk result (λ change. change ≡ []) }
    {
        let images = Vec::with_capacity(alloc, TRANSACTION_PAGES)?;
        Ok(Change { images })
    }

    /// Puts a page at a home, in place of any page that the change has there. The home must be one
    /// of the change, or the change must have fewer than 32.
    pub fn put(&mut self, home: Home, page: Page)
        requires { IsSome (image_at home self.old) ⊎ (length self.old < transaction_pages) }
        ensures { self.new ≡ with_image home page self.old }
    {
        let place = place_of(&self.images, &home);
        let image = PageImage { home, page };
        match place {
            Some(place) => self.images[place] = image,
            None => self.images.push_reserved(image),
        }
    }

    /// The page that it puts at a home, if it puts one there.
    pub fn get(&self, home: Home) -> Option<&Page>
        ensures { option_copied result ≡ image_at home self.now }
    {
        image_of(&self.images, home)
    }

    /// The number of homes at which it puts a page.
    pub fn len(&self) -> usize
        ensures count { result ≡ length self.now }
        ensures most { result ≤ transaction_pages }
    {
        self.images.len()
    }

    /// Whether it puts no page anywhere.
    pub fn is_empty(&self) -> bool
        ensures { IsTrue result ↔ (length self.now ≡ 0) }
    {
        self.images.is_empty()
    }

    /// Its images.
    pub fn images(&self) -> &[PageImage]
        ensures images { result.now ≡ self.now }
        ensures sound { IsChange self.now }
    {
        self.images.as_slice()
    }

    /// Puts each of its pages at its home. There must be room for as many homes as it has.
    pub fn install<M: MetaPages>(self, pages: &mut M)
        requires { length self ≤ M.room pages.old }
        ensures value { M.pages pages.new ≡ overlaid self (M.pages pages.old) }
        ensures left { M.room pages.old ≤ M.room pages.new + length self }
        ensures before { M.before pages.new ≡ M.before pages.old }
    {
        for image in self.images {
            pages.put(image.home, image.page);
        }
    }
}
