//! Writes bytes on a page, one after another.
use page_faults::Page;
use page_faults::limits::PAGE_BYTES;

/// Writes bytes on a page from a place on, if there is room for them, and gives the place after
/// them.
pub(crate) fn put(page: &mut Page, at: usize, bytes: &[u8]) -> usize {
    let end = at.saturating_add(bytes.len());
    if end <= PAGE_BYTES {
        page.set(at, bytes);
    }
    end
}

/// Writes a number of four bytes.
pub(crate) fn put_number(page: &mut Page, at: usize, number: u32) -> usize {
    put(page, at, &number.to_le_bytes())
}
