//! What first cells of images say to be left to do, which files are read through others, and which
//! quota cells what is being removed names.
use domain_attaching::{
    CellLinks, OutOfMemory, TableRead, has_quotas_to_go, has_readers, read_links, read_list,
    read_table, read_tables,
};
use image_lines::{Image, Told, frame_of};
use std::alloc::Global;

/// What is read of each cell in use of an image.
fn links_of(alloc: Global, image: &Image) -> Result<CellLinks, OutOfMemory> {
    let frame = frame_of(image);
    let tables = read_tables(alloc, &image.pages, &frame)?;
    read_links(alloc, &image.pages, &frame, &tables)
}

/// Tells the file that is let go of first, and whether no file is.
fn tell_first(alloc: Global, image: &Image, links: &CellLinks, told: &mut Told) {
    let Ok(list) = read_list(alloc, &image.pages, links) else {
        return told.check(false);
    };
    match list.last() {
        Some(entry) => {
            let (page, cell) = (u64::from(entry.at.page), u64::from(entry.at.cell));
            told.push_pair("first ", page, ".", cell);
        }
        None => told.push("nothing"),
    }
    told.push(if list.is_empty() {
        ", empty"
    } else {
        ", not empty"
    });
}

/// Tells whether some file is read through another one.
fn tell_readers(alloc: Global, image: &Image, links: &CellLinks, told: &mut Told) {
    match has_readers(alloc, &image.pages, links) {
        Ok(true) => told.push(", with readers"),
        Ok(false) => told.push(", without readers"),
        Err(_) => told.check(false),
    }
}

/// Tells the file that is let go of first, and whether some file is read through another one.
pub(crate) fn tell_left(alloc: Global, image: &Image, told: &mut Told) {
    let Ok(links) = links_of(alloc, image) else {
        return told.check(false);
    };
    tell_first(alloc, image, &links, told);
    tell_readers(alloc, image, &links, told);
}

/// Whether what is being removed in an image names first quota cells; None if there is no table.
fn names_first(alloc: Global, image: &Image, links: &CellLinks) -> Option<bool> {
    match read_table(alloc, &image.pages, &frame_of(image)) {
        Ok(TableRead::There { table }) => {
            has_quotas_to_go(alloc, &image.pages, &table, links).ok()
        }
        _ => None,
    }
}

/// Tells whether what is being removed in an image names first quota cells.
pub(crate) fn tell_quotas(alloc: Global, image: &Image, told: &mut Told) {
    let Ok(links) = links_of(alloc, image) else {
        return told.check(false);
    };
    match names_first(alloc, image, &links) {
        Some(true) => told.push("first cells"),
        Some(false) => told.push("other cells"),
        None => told.check(false),
    }
}
