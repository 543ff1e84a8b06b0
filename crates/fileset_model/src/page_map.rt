ghost use Rattle.std.specs.Prelude.{◌%◌, ◌*◌, ◌+◌, ◌-◌, ◌/◌, ◌<◌, ◌^◌, ◌≡◌, ◌≤◌, IfOk, IsTrue, OnErr, OnOk, length, map as map_each, min, nat_lt, not, unwrap_or};
ghost use Rattle.std.specs.List.{range_with_len};
ghost use Rattle.std.specs.Option.{option_map_or};
ghost use Rattle.std.specs.Ordering.{nat_cmp};
ghost use Rattle.std.specs.FinMap.Entries.{find as found_at, is_sorted, put as put_at, where_key};
ghost use Rattle.fileset_values.specs.domain_base.Page.{overwritten, zero_bytes};
ghost use Rattle.fileset_values.specs.domain_base.declared.limits.TheConstants.{FILE_BYTES};
ghost use Rattle.sorted_sets.specs.Entries.{put_each};
ghost use Rattle.fileset_model.specs.Pages.{absent_pages, byte_at as byte_of, page_after as bytes_after, pages_of, truncated, written};
ghost use Rattle.std.specs.FinMap as map;

use fileset_values::limits::{FILE_BYTES, PAGE_BYTES};
use fileset_values::{OutOfMemory, Page};
use sorted_sets::entries::{find, place_of, put};
use std::alloc::Global;
use std::marker::Model;

/// The pages of a file that are present, by their numbers.
#[derive(Drop)]
pub struct PageMap {
    pub(crate) pages: Vec<(u64, Page)>,
}

impl Model for PageMap {
    ghost use Rattle.std.specs.Prelude.{◌≡◌, ℕ, List, IsTrue};
    ghost use Rattle.std.specs.Ordering.{nat_cmp};
    ghost use Rattle.std.specs.Coded.{coded_ℕ, coded_list};
    ghost use Rattle.std.specs.FinMap as map;

    ghost Value = { map.FinMap nat_cmp (List ℕ) };

    ghost coded = { map.code coded_ℕ (coded_list coded_ℕ) };

    ghost view = { λ m. map.from_sorted m.pages.items };

    ghost invariant = { λ m. IsTrue (map.is_sorted nat_cmp m.pages.items) };
}

impl PageMap {
    /// A map without pages.
    pub fn new(alloc: Global) -> PageMap
        ensures { result ≡ map.empty }
    {
        PageMap {
            pages: Vec::new(alloc),
        }
    }

    /// How many pages are present.
    pub fn len(&self) -> usize
        ensures { result ≡ map.len self.now }
    {
        self.pages.len()
    }

    /// The `count` bytes from the offset on. The bytes of absent pages are zeros.
    pub fn read(&self, alloc: Global, offset: u64, count: u64) -> Result<Vec<u8>, OutOfMemory>
        requires { offset + count < 2 ^ 64 }
        ensures { IfOk result (λ v.
            v.items ≡ map_each (byte_of self.now) (range_with_len offset count)) }
    {
        let zeros = Page::zeros(alloc)?;
        let mut bytes = Vec::new(alloc);
        let end = offset + count;
        let mut x = offset;
        while x < end {
            let run = bytes_in_page(&self.pages, x, end - x, &zeros);
            bytes.extend_from_slice(run)?;
            x += run.len() as u64;
        }
        Ok(bytes)
    }

    /// Whether page `q` is present.
    pub fn contains(&self, q: u64) -> bool
        ensures { result ≡ map.contains_key self.now q }
    {
        !is_absent(&self.pages, q)
    }

    /// The numbers of the present pages, in rising order.
    pub fn numbers(&self, alloc: Global) -> Result<Vec<u64>, OutOfMemory>
        ensures { IfOk result (λ numbers. numbers.items ≡ map.keys self.now) }
    {
        let mut numbers = Vec::new(alloc);
        for (q, _) in &self.pages {
            numbers.push(*q)?;
        }
        Ok(numbers)
    }

    /// The number of absent pages among those that hold the `len` bytes from the offset on.
    pub fn count_absent(&self, offset: u64, len: u64) -> u64
        requires { offset + len < 2 ^ 64 }
        ensures { result ≡ absent_pages self.now offset len }
    {
        if len == 0 {
            return 0;
        }
        let first = offset / PAGE_BYTES as u64;
        let end = (offset + len - 1) / PAGE_BYTES as u64 + 1;
        let mut absent = 0;
        for q in first..end {
            absent += u64::from(is_absent(&self.pages, q));
        }
        absent
    }

    /// Writes the bytes at the offset. The other bytes of a page that was absent are zeros. After
    /// an error the pages are as before.
    pub fn write(&mut self, alloc: Global, offset: u64, bytes: &[u8]) -> Result<(), OutOfMemory>
        requires { offset + length bytes.now ≤ FILE_BYTES }
        ensures ok { OnOk result (self.new ≡ written self.old offset bytes.now) }
        ensures err { OnErr result (self.new ≡ self.old) }
    {
        let changed = pages_after(alloc, &self.pages, offset, bytes)?;
        put_pages(&mut self.pages, changed)?;
        Ok(())
    }

    /// Cuts a file's pages at a size in bytes. A page that begins at the size or after it is
    /// dropped. A page that the size cuts in two keeps its front and has zeros from there on. After
    /// an error the pages are as before.
    pub fn truncate(&mut self, alloc: Global, size: u64) -> Result<(), OutOfMemory>
        ensures ok { OnOk result (self.new ≡ truncated self.old size) }
        ensures err { OnErr result (self.new ≡ self.old) }
    {
        let zeros = Page::zeros(alloc)?;
        keep_below(&mut self.pages, size);
        zero_rest(&mut self.pages, size, &zeros);
        Ok(())
    }

    /// A map with the same pages.
    pub fn copy(&self, alloc: Global) -> Result<PageMap, OutOfMemory>
        ensures { IfOk result (λ copy. copy ≡ self.now) }
    {
        let pages = copied_pages(alloc, &self.pages)?;
        Ok(PageMap { pages })
    }
}

fn is_absent(pages: &[(u64, Page)], q: u64) -> bool
    requires { IsTrue (is_sorted nat_cmp pages.now) }
    ensures { result ≡ not (map.contains_key (map.from_sorted {R = nat_cmp} pages.now) q) }
{
    match find(pages, &q) {
        Some(_) => false,
        None => true,
    }
}

/// Page `q`, or these zeros if it is absent.
fn page_or<'a>(pages: &'a [(u64, Page)], q: u64, zeros: &'a Page) -> &'a Page
    requires { IsTrue (is_sorted nat_cmp pages.now) }
    ensures { result.now
        ≡ unwrap_or (map.get (map.from_sorted {R = nat_cmp} pages.now) q) zeros.now }
{
    match find(pages, &q) {
        Some(page) => page,
        None => zeros,
    }
}

/// The bytes from `x` to the end of its page, but at most `most` of them.
fn bytes_in_page<'a>(pages: &'a [(u64, Page)], x: u64, most: u64, zeros: &'a Page) -> &'a [u8]
    requires sorted { IsTrue (is_sorted nat_cmp pages.now) }
    requires zeros { zeros.now ≡ zero_bytes PAGE_BYTES }
    ensures bytes { result.now
        ≡ map_each (byte_of (map.from_sorted pages.now)) (range_with_len x (length result.now)) }
    ensures len { length result.now ≡ min most (PAGE_BYTES - x % PAGE_BYTES) }
{
    let page = page_or(pages, x / PAGE_BYTES as u64, zeros);
    let at = (x % PAGE_BYTES as u64) as usize;
    let len = most.min((PAGE_BYTES - at) as u64) as usize;
    &page.bytes()[at..at + len]
}

/// The pages that a write of the bytes at the offset changes, as they are after it.
fn pages_after(
    alloc: Global,
    pages: &[(u64, Page)],
    offset: u64,
    bytes: &[u8],
) -> Result<Vec<(u64, Page)>, OutOfMemory>
    requires sorted { IsTrue (is_sorted nat_cmp pages.now) }
    requires fits { offset + length bytes.now ≤ FILE_BYTES }
    ensures { IfOk result (λ v. v.items ≡ map_each
        (λ q. (q, bytes_after (map.from_sorted pages.now) offset bytes.now q))
        (pages_of offset (length bytes.now))) }
{
    let mut changed = Vec::new(alloc);
    if bytes.is_empty() {
        return Ok(changed);
    }
    let page_bytes = PAGE_BYTES as u64;
    let first = offset / page_bytes;
    let end = (offset + bytes.len() as u64 - 1) / page_bytes + 1;
    for q in first..end {
        let page = page_after(alloc, pages, offset, bytes, q)?;
        changed.push((q, page))?;
    }
    Ok(changed)
}

/// Page `q` as it is after a write of the bytes at the offset.
fn page_after(
    alloc: Global,
    pages: &[(u64, Page)],
    offset: u64,
    bytes: &[u8],
    q: u64,
) -> Result<Page, OutOfMemory>
    requires sorted { IsTrue (is_sorted nat_cmp pages.now) }
    requires fits { q * PAGE_BYTES < 2 ^ 64 }
    requires reached { offset - q * PAGE_BYTES ≤ PAGE_BYTES }
    requires reaches { q * PAGE_BYTES - offset ≤ length bytes.now }
    ensures { IfOk result (λ page.
        page ≡ bytes_after (map.from_sorted pages.now) offset bytes.now q) }
{
    let mut page = page_or_zeros(alloc, pages, q)?;
    let start = q * PAGE_BYTES as u64;
    let at = offset.saturating_sub(start) as usize;
    let rest = &bytes[start.saturating_sub(offset) as usize..];
    page.set(at, &rest[..rest.len().min(PAGE_BYTES - at)]);
    Ok(page)
}

/// Page `q`, or a page of zeros if it is absent.
fn page_or_zeros(alloc: Global, pages: &[(u64, Page)], q: u64) -> Result<Page, OutOfMemory>
    requires { IsTrue (is_sorted nat_cmp pages.now) }
    ensures { IfOk result (λ page. page ≡ unwrap_or
        (map.get (map.from_sorted {R = nat_cmp} pages.now) q)
        (zero_bytes PAGE_BYTES)) }
{
    match find(pages, &q) {
        Some(page) => page.copy(alloc),
        None => Page::zeros(alloc),
    }
}

/// Puts each of these pages in place of what was there. After an error the pages are as before.
fn put_pages(pages: &mut Vec<(u64, Page)>, changed: Vec<(u64, Page)>) -> Result<(), OutOfMemory>
    requires { IsTrue (is_sorted nat_cmp pages.old.items) }
    ensures ok { OnOk result (pages.new.items ≡ put_each nat_cmp changed.items pages.old.items) }
    ensures err { OnErr result (pages.new.items ≡ pages.old.items) }
    ensures sorted { IsTrue (is_sorted nat_cmp pages.new.items) }
{
    pages.reserve(changed.len())?;
    for (q, page) in changed {
        put(pages, q, page)?;
    }
    Ok(())
}

/// Whether page `q` begins before the size.
fn begins_below(q: u64, size: u64) -> bool
    ensures { result ≡ nat_lt (q * PAGE_BYTES) size }
{
    q.saturating_mul(PAGE_BYTES as u64) < size
}

/// Keeps the pages that begin before the size.
fn keep_below(pages: &mut Vec<(u64, Page)>, size: u64)
    requires { IsTrue (is_sorted nat_cmp pages.old.items) }
    ensures items { pages.new.items
        ≡ where_key nat_cmp (λ q. nat_lt (q * PAGE_BYTES) size) pages.old.items }
    ensures sorted { IsTrue (is_sorted nat_cmp pages.new.items) }
{
    pages.retain(|entry| begins_below(entry.0, size));
}

/// Sets to 0 all bytes from the size on in the page that the size cuts in two, if that page is
/// present.
fn zero_rest(pages: &mut Vec<(u64, Page)>, size: u64, zeros: &Page)
    requires sorted { IsTrue (is_sorted nat_cmp pages.old.items) }
    requires zeros { zeros.now ≡ zero_bytes PAGE_BYTES }
    ensures items { pages.new.items ≡ option_map_or
        (λ page. put_at nat_cmp (size / PAGE_BYTES)
        (overwritten page (size % PAGE_BYTES) (zero_bytes (PAGE_BYTES - size % PAGE_BYTES)))
        pages.old.items)
        (found_at nat_cmp (size / PAGE_BYTES) pages.old.items)
        pages.old.items }
    ensures sorted { IsTrue (is_sorted nat_cmp pages.new.items) }
{
    let Ok(place) = place_of(pages, &(size / PAGE_BYTES as u64)) else {
        return;
    };
    let at = (size % PAGE_BYTES as u64) as usize;
    pages[place].1.set(at, &zeros.bytes()[at..]);
}

fn copied_pages(alloc: Global, pages: &[(u64, Page)]) -> Result<Vec<(u64, Page)>, OutOfMemory>
    ensures { IfOk result (λ v. v.items ≡ pages.now) }
{
    let mut copies = Vec::new(alloc);
    for (q, page) in pages {
        copies.push((*q, page.copy(alloc)?))?;
    }
    Ok(copies)
}
