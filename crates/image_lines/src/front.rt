//! Writes on the first pages of a volume: its label, and the anchor of its domain.
use crate::pen::{put, put_number};
use page_faults::{Anchor, Page, Version, VolIx};

/// Writes the label of a volume of `pages` pages, one of them the bitmap.
pub(crate) fn draw_label(version: Version, vol: VolIx, pages: u32, page: &mut Page) {
    let end = put(page, 0, b"ADVFSLAB");
    let end = put_number(page, end, version.number());
    let end = put_number(page, end, vol.number());
    let end = put_number(page, end, pages);
    put_number(page, end, 1);
}

/// Writes the body of an anchor up to its group.
fn draw_log(anchor: &Anchor, page: &mut Page) -> usize {
    let end = put(page, 512, &anchor.number.to_le_bytes());
    let end = put_number(page, end, anchor.version);
    let end = put_number(page, end, anchor.log_vol);
    let end = put_number(page, end, anchor.log_page);
    let end = put_number(page, end, anchor.log_pages);
    let end = put_number(page, end, anchor.start);
    let end = put_number(page, end, 0);
    put(page, end, &anchor.group.to_le_bytes())
}

/// The volume and the page of the table that an anchor names; zeros if it names none.
fn table_of(anchor: &Anchor) -> (u32, u32) {
    match anchor.table {
        Some(home) => (home.vol.number(), home.page),
        None => (0, 0),
    }
}

/// Writes an anchor after an open gate.
pub(crate) fn draw_anchor(anchor: &Anchor, page: &mut Page) {
    put(page, 0, &[0xa5]);
    let end = draw_log(anchor, page);
    let (vol, table) = table_of(anchor);
    let end = put_number(page, end, vol);
    let mut end = put_number(page, end, table);
    for member in &anchor.members {
        end = put_number(page, end, member.pages);
        end = put_number(page, end, member.state);
    }
}
