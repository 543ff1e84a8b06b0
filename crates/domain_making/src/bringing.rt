//! Adding the pages of a domain that was just made to those of a store.
ghost use Rattle.std.specs.Prelude.{
  ◌≡◌,
  ◌+◌,
  ◌*◌,
  ◌<◌,
  ◌≤◌,
  ℕ,
  IfOk,
  OnOk,
  length,
  slice_index,
};
ghost use Rattle.domain_layout.specs.domain_base.Version.{bitmap_pages, most_pages};
ghost use Rattle.domain_layout.specs.disk_label.FirstPages.{first_pages};
ghost use Rattle.domain_layout.specs.page_store.Pages.{with_page};
ghost use Rattle.domain_layout.specs.NewDomain.{IsNew, on_first};
ghost use Rattle.domain_making.specs.Making.{new_frame};
ghost use Rattle.domain_making.specs.Pages.{AreNew, HasNewBitmaps, IsUsedTo};

use crate::NewPages;
use crate::anchor::first_volume;
use domain_layout::limits::PAGE_BYTES;
use domain_layout::{Bitmap, FirstPages, Home, MetaPages, OutOfMemory, Page, Version};
use std::alloc::Global;

/// The page with this number of the bitmap that has these bytes.
fn bitmap_page(alloc: Global, bytes: &[u8], number: u32) -> Result<Page, OutOfMemory>
    requires { 8192 * (number + 1) ≤ length bytes.now }
    ensures { IfOk result (λ page. (k : ℕ) → k < 8192
        → slice_index page k ≡ slice_index bytes.now (8192 * number + k)) }
{
    let start = PAGE_BYTES * number as usize;
    let mut page = Page::zeros(alloc)?;
    page.set(0, &bytes[start..start + PAGE_BYTES]);
    Ok(page)
}

/// Adds a page of volume 1 to those of a store.
fn put_on_first<M: MetaPages>(
    alloc: Global,
    store: &mut M,
    page: u32,
    bytes: Page,
) -> Result<(), OutOfMemory>
    ensures put { OnOk result (M.pages store.new
        ≡ with_page (on_first page) bytes (M.pages store.old)) }
    ensures before { M.before store.new ≡ M.before store.old }
{
    let home = Home {
        vol: first_volume(),
        page,
    };
    store.reserve(alloc, 1)?;
    store.put(home, bytes);
    Ok(())
}

/// Adds the pages of a bitmap.
fn put_bitmap<M: MetaPages>(
    alloc: Global,
    store: &mut M,
    version: Version,
    pages: u32,
    bitmap: &Bitmap,
) -> Result<(), OutOfMemory>
    requires some { 1 ≤ pages }
    requires most { pages ≤ most_pages version }
    requires used { IsUsedTo pages (first_pages version pages).table bitmap.now }
    ensures there { OnOk result (HasNewBitmaps (M.pages store.new) (new_frame version pages)
        (bitmap_pages version pages)) }
    ensures before { M.before store.new ≡ M.before store.old }
{
    for number in 0..version.bitmap_pages(pages) {
        let page = bitmap_page(alloc, bitmap.bytes(), number)?;
        put_on_first(alloc, store, 2 + number, page)?;
    }
    Ok(())
}

impl NewPages {
    /// Adds these pages to those of a store, each at its home. After an error some may have been
    /// added.
    pub fn bring_into<M: MetaPages>(
        &self,
        alloc: Global,
        store: &mut M,
        version: Version,
        pages: u32,
    ) -> Result<(), OutOfMemory>
        requires room { (first_pages version pages).table < pages }
        requires most { pages ≤ most_pages version }
        requires new { AreNew version pages self.now }
        ensures new { OnOk result (IsNew (M.pages store.new) (new_frame version pages)) }
        ensures before { M.before store.new ≡ M.before store.old }
    {
        let firsts = FirstPages::of(version, pages);
        put_bitmap(alloc, store, version, pages, &self.bitmap)?;
        put_on_first(alloc, store, firsts.cells, self.cells.copy(alloc)?)?;
        put_on_first(alloc, store, firsts.table, self.table.copy(alloc)?)?;
        Ok(())
    }
}
