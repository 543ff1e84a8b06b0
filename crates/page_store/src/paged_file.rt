//! A file or a directory in memory.
ghost use Rattle.std.specs.Prelude.{◌≡◌, ◌<◌, ◌≤◌, OnErr, OnOk, insert, length, slice_get};
ghost use Rattle.std.specs.Option.{option_copied};
ghost use Rattle.sorted_sets.specs.domain_base.Limits.{file_pages, max_links};
ghost use Rattle.sorted_sets.specs.domain_base.declared.place.Kind.TheVariants.{Directory as IsDirectory};
ghost use Rattle.page_store.specs.Bitfiles.{AreWholePages, IsBitfile, insert_index, linked, new_file, put_index, put_page, with_entry};
ghost use Rattle.page_store.specs.PageChanges.{HasPlaceFor, changed};

use sorted_sets::limits::PAGE_BYTES;
use sorted_sets::{Kind, OutOfMemory, Page};
use std::alloc::Global;
use std::marker::Model;

/// Where a page of a directory goes: in place of one of its pages or of its index, after the last
/// of them, or between those of its index.
#[derive(Clone, Copy)]
pub(crate) enum PageChange {
    PutPage,
    PutIndexPage,
    InsertIndexPage,
}

/// A file or a directory: its owner, how many rows name it, and a directory's pages and those of
/// its index, in order.
#[derive(Drop)]
pub(crate) struct PagedFile {
    kind: Kind,
    uid: u32,
    gid: u32,
    links: u32,
    pages: Vec<Page>,
    index: Vec<Page>,
}

impl Model for PagedFile {
    ghost use Rattle.page_store.specs.Bitfiles.{Bitfile, IsBitfile};

    ghost Value = { Bitfile };

    ghost view = { λ f. record {
      kind = f.kind;
      uid = f.uid;
      gid = f.gid;
      links = f.links;
      pages = f.pages.items;
      index = f.index.items;
    } };

    ghost invariant = { λ f. IsBitfile (record {
      kind = f.kind;
      uid = f.uid;
      gid = f.gid;
      links = f.links;
      pages = f.pages.items;
      index = f.index.items;
    }) };
}

impl PagedFile {
    /// A file or a directory with one link and no page.
    pub(crate) fn new(alloc: Global, kind: Kind, uid: u32, gid: u32) -> PagedFile
        ensures value { result ≡ new_file kind uid gid }
        ensures sound { IsBitfile result }
    {
        PagedFile {
            kind,
            uid,
            gid,
            links: 1,
            pages: Vec::new(alloc),
            index: Vec::new(alloc),
        }
    }

    /// Whether it is a file or a directory.
    pub(crate) fn kind(&self) -> Kind
        ensures { result ≡ self.now.kind }
    {
        self.kind
    }

    /// Its user and its group.
    pub(crate) fn owner(&self) -> (u32, u32)
        ensures user { result.0 ≡ self.now.uid }
        ensures group { result.1 ≡ self.now.gid }
    {
        (self.uid, self.gid)
    }

    /// How many rows name it.
    pub(crate) fn links(&self) -> u32
        ensures { result ≡ self.now.links }
    {
        self.links
    }

    /// How many pages it has as a directory.
    pub(crate) fn page_count(&self) -> u32
        ensures { result ≡ length self.now.pages }
    {
        self.pages.len() as u32
    }

    /// A page of it as a directory.
    pub(crate) fn page(&self, page: u32) -> Option<&Page>
        ensures { option_copied result ≡ slice_get self.now.pages page }
    {
        self.pages.get(page as usize)
    }

    /// How many pages its index has.
    pub(crate) fn index_count(&self) -> u32
        ensures { result ≡ length self.now.index }
    {
        self.index.len() as u32
    }

    /// A page of its index.
    pub(crate) fn index_page(&self, page: u32) -> Option<&Page>
        ensures { option_copied result ≡ slice_get self.now.index page }
    {
        self.index.get(page as usize)
    }

    /// Sets how many rows name it.
    pub(crate) fn set_links(&mut self, links: u32)
        requires named { 1 ≤ links }
        requires most { links ≤ max_links }
        ensures value { self.new ≡ linked links self.old }
        ensures sound { IsBitfile self.new }
    {
        self.links = links;
    }

    /// Puts a page of a directory or of its index. Also fails if the index would have 2^32 pages.
    /// After an error all is as before.
    pub(crate) fn change(
        &mut self,
        change: PageChange,
        page: u32,
        bytes: Page,
    ) -> Result<(), OutOfMemory>
        requires directory { self.old.kind ≡ IsDirectory }
        requires place { HasPlaceFor change page self.old }
        ensures ok { OnOk result (self.new ≡ changed change page bytes self.old) }
        ensures err { OnErr result (self.new ≡ self.old) }
        ensures sound { IsBitfile self.new }
    {
        match change {
            PageChange::PutPage => self.put_page(page, bytes),
            PageChange::PutIndexPage => self.put_index_page(page, bytes),
            PageChange::InsertIndexPage => self.insert_index_page(page, bytes),
        }
    }

    /// Puts a page of a directory in place of the one there, or after the last. After an error all
    /// is as before.
    fn put_page(&mut self, page: u32, bytes: Page) -> Result<(), OutOfMemory>
        requires directory { self.old.kind ≡ IsDirectory }
        requires place { page ≤ length self.old.pages }
        requires fits { page < file_pages }
        ensures ok { OnOk result (self.new ≡ put_page page bytes self.old) }
        ensures err { OnErr result (self.new ≡ self.old) }
        ensures sound { IsBitfile self.new }
    {
        put_entry(&mut self.pages, page as usize, bytes)
    }

    /// Puts an index page in place of the one there, or after the last. Also fails if the index
    /// would have 2^32 pages. After an error all is as before.
    fn put_index_page(&mut self, page: u32, bytes: Page) -> Result<(), OutOfMemory>
        requires directory { self.old.kind ≡ IsDirectory }
        requires place { page ≤ length self.old.index }
        ensures ok { OnOk result (self.new ≡ put_index page bytes self.old) }
        ensures err { OnErr result (self.new ≡ self.old) }
        ensures sound { IsBitfile self.new }
    {
        let last = self.index.len() == u32::MAX as usize;
        if last && page == u32::MAX {
            return Err(OutOfMemory);
        }
        put_entry(&mut self.index, page as usize, bytes)
    }

    /// Puts a new index page at that number, and moves those from there on one place up. Also fails
    /// if the index would have 2^32 pages. After an error all is as before.
    fn insert_index_page(&mut self, page: u32, bytes: Page) -> Result<(), OutOfMemory>
        requires directory { self.old.kind ≡ IsDirectory }
        requires place { page ≤ length self.old.index }
        ensures ok { OnOk result (self.new ≡ insert_index page bytes self.old) }
        ensures err { OnErr result (self.new ≡ self.old) }
        ensures sound { IsBitfile self.new }
    {
        if self.index.len() >= u32::MAX as usize {
            return Err(OutOfMemory);
        }
        insert_entry(&mut self.index, page as usize, bytes)
    }
}

/// Puts a page in place of the one there, or after the last.
fn put_entry(pages: &mut Vec<Page>, at: usize, page: Page) -> Result<(), OutOfMemory>
    requires place { at ≤ length pages.old.items }
    requires whole { AreWholePages pages.old.items }
    ensures ok { OnOk result (pages.new.items ≡ with_entry at page pages.old.items) }
    ensures err { OnErr result (pages.new.items ≡ pages.old.items) }
    ensures whole { AreWholePages pages.new.items }
{
    prove!(page.bytes().len() == PAGE_BYTES);
    if at < pages.len() {
        pages[at] = page;
    } else {
        pages.push(page)?;
    }
    Ok(())
}

/// Puts a page at that number, and moves those from there on one place up.
fn insert_entry(pages: &mut Vec<Page>, at: usize, page: Page) -> Result<(), OutOfMemory>
    requires place { at ≤ length pages.old.items }
    requires whole { AreWholePages pages.old.items }
    ensures ok { OnOk result (pages.new.items ≡ insert pages.old.items at page) }
    ensures err { OnErr result (pages.new.items ≡ pages.old.items) }
    ensures whole { AreWholePages pages.new.items }
{
    prove!(page.bytes().len() == PAGE_BYTES);
    pages.insert(at, page)?;
    Ok(())
}
