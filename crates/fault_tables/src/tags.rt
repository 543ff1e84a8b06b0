//! Rules of tag directories and of what they lead to, and of pages.
use crate::given::Given;
use image_lines::{directory_faults, entry_faults};
use index_row_faults::{
    HomeSet, OutOfMemory, bitmap_faults, extent_faults, index_page_faults, read_links, read_tables,
    tags_faults,
};
use std::alloc::Global;

/// The pages at which an entry leads to no cell of its own.
fn entries(alloc: Global, given: &Given) -> Result<HomeSet, OutOfMemory> {
    let Given {
        image,
        frame,
        table,
        ..
    } = given;
    let tables = read_tables(alloc, &image.pages, frame)?;
    let links = read_links(alloc, &image.pages, frame, &tables)?;
    entry_faults(alloc, &image.pages, frame, table, &links)
}

/// The pages at which a rule of tags or of pages is broken.
pub(crate) fn find(alloc: Global, asked: &str, given: &Given) -> Result<HomeSet, OutOfMemory> {
    let Given {
        image,
        frame,
        table,
        ..
    } = given;
    match asked {
        "tag-pages" => directory_faults(alloc, &image.pages, frame, table),
        "entries" => entries(alloc, given),
        "all-tags" => tags_faults(alloc, &image.pages, frame, table),
        "extents" => extent_faults(alloc, &image.pages, frame, table),
        "bitmaps" => bitmap_faults(alloc, &image.pages, frame, table),
        _ => index_page_faults(alloc, &image.pages, frame),
    }
}
