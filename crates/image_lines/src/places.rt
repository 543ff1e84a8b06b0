//! The places that words name. A page of volume 1 is named by its number, one of another volume by
//! the volume, a colon and the number; a cell by its page, a dot and its number there; a tag by its
//! slot, a dot and its sequence. A `-` names none.

/// The volume and the page that a word names; zeros if it names none.
pub(crate) fn numbers(word: &str) -> Option<(u32, u32)> {
    if word == "-" {
        return Some((0, 0));
    }
    match word.split_once(':') {
        Some((vol, page)) => Some((vol.parse().ok()?, page.parse().ok()?)),
        None => Some((1, word.parse().ok()?)),
    }
}

/// The eight bytes of the address of a page: its volume, and its number.
pub(crate) fn page_bytes(word: &str) -> Option<[u8; 8]> {
    let (vol, page) = numbers(word)?;
    let ([a, b, c, d], [e, f, g, h]) = (vol.to_le_bytes(), page.to_le_bytes());
    Some([a, b, c, d, e, f, g, h])
}

/// The last six bytes of the address of a cell: volume, number and page.
pub(crate) fn cell_bytes(word: &str) -> Option<[u8; 6]> {
    if word == "-" {
        return Some([0; 6]);
    }
    let (page, cell) = word.split_once('.')?;
    let (vol, page) = numbers(page)?;
    let ([vol, ..], [a, b, c, d]) = (vol.to_le_bytes(), page.to_le_bytes());
    Some([vol, cell.parse().ok()?, a, b, c, d])
}

/// The six bytes of a tag: its slot and its sequence.
pub(crate) fn tag_bytes(word: &str) -> Option<[u8; 6]> {
    let (slot, seq) = word.split_once('.')?;
    let (slot, seq): (u32, u16) = (slot.parse().ok()?, seq.parse().ok()?);
    let ([a, b, c, d], [e, f]) = (slot.to_le_bytes(), seq.to_le_bytes());
    Some([a, b, c, d, e, f])
}
