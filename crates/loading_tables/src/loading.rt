//! Pages of tables and indexes that are brought from a rack.
use image_lines::{
    Image, MemoryRack, Told, Words, frame_of, has_members, is_volume_written, read_table, zeros,
};
use image_loading::{
    DomainFrame, Home, LoadFault, MemoryPages, MetaPages, Rack, TableRead, VolIx, load_bitmaps,
    load_cells, load_indexes, load_table, load_tables, load_tags, read_links, read_tables,
};
use std::alloc::Global;

/// Brings the pages of the tag directories of the table that is there.
fn tags<R: Rack>(
    alloc: Global,
    rack: &mut R,
    frame: &DomainFrame,
    pages: &mut MemoryPages,
) -> Result<&'static str, LoadFault> {
    let TableRead::There { table } = read_table(alloc, pages, frame)? else {
        return Ok(" without a table");
    };
    if !has_members(rack, &frame.anchor) {
        return Ok(" without a member");
    }
    load_tags(alloc, rack, frame, &table, pages)?;
    Ok("")
}

/// Brings the pages of the indexes that cells name.
fn indexes<R: Rack>(
    alloc: Global,
    rack: &mut R,
    frame: &DomainFrame,
    pages: &mut MemoryPages,
) -> Result<&'static str, LoadFault> {
    if !has_members(rack, &frame.anchor) {
        return Ok(" without a member");
    }
    load_cells(alloc, rack, frame, pages)?;
    if !has_members(rack, &frame.anchor) {
        return Ok(" without a member");
    }
    let tables = read_tables(alloc, pages, frame)?;
    let links = read_links(alloc, pages, frame, &tables)?;
    load_indexes(alloc, rack, frame, &links, pages)?;
    Ok("")
}

/// Brings all pages of tables.
fn all<R: Rack>(
    alloc: Global,
    rack: &mut R,
    frame: &DomainFrame,
    pages: &mut MemoryPages,
) -> Result<&'static str, LoadFault> {
    if !has_members(rack, &frame.anchor) {
        return Ok(" without a member");
    }
    match load_tables(alloc, rack, frame, pages)? {
        TableRead::There { .. } => Ok(" with a table"),
        TableRead::Wrong { .. } => Ok(" with a wrong table"),
        TableRead::Unnamed => Ok(" with no table"),
    }
}

/// Brings the pages that a word names, and says more of them.
fn bring<R: Rack>(
    alloc: Global,
    rack: &mut R,
    frame: &DomainFrame,
    what: &str,
    pages: &mut MemoryPages,
) -> Result<&'static str, LoadFault> {
    match what {
        "tags" => return tags(alloc, rack, frame, pages),
        "indexes" => return indexes(alloc, rack, frame, pages),
        "tables" => return all(alloc, rack, frame, pages),
        _ => {}
    }
    if !has_members(rack, &frame.anchor) {
        return Ok(" without a member");
    }
    match what {
        "cells" => load_cells(alloc, rack, frame, pages)?,
        "table" => load_table(alloc, rack, frame, pages)?,
        "bitmaps" => load_bitmaps(alloc, rack, frame, pages)?,
        _ => return Ok(" not at all"),
    }
    Ok("")
}

/// Whether a page that was brought has the bytes that stand on the rack, where an image has its
/// pages and all others are zeros.
fn is_as_written(image: &Image, home: Home, bytes: &[u8]) -> bool {
    match image.pages.get(home) {
        Some(page) => page.bytes() == bytes,
        None => bytes.iter().all(|byte| *byte == 0),
    }
}

/// Tells the pages of volume 1 that are there, with a mark at one that is not as it was written.
fn push_pages(image: &Image, vol: VolIx, pages: &MemoryPages, told: &mut Told) {
    for page in 0..image.anchor.members[vol.index()].pages {
        let home = Home { vol, page };
        if let Some(found) = pages.get(home) {
            told.push(" ");
            told.push_number(u64::from(page));
            let is_right = is_as_written(image, home, found.bytes());
            told.push(if is_right { "" } else { " (held)" });
        }
    }
}

/// How many pages of volume 1 an image has.
fn count_pages(image: &Image, vol: VolIx) -> u64 {
    let mut count = 0_u64;
    for page in 0..image.anchor.members[vol.index()].pages {
        if image.pages.get(Home { vol, page }).is_some() {
            count = count.saturating_add(1);
        }
    }
    count
}

/// A rack with the pages of an image on volume 1, whose read with this number after so many writes
/// fails; none does for 0.
fn rack_with(
    alloc: Global,
    image: &Image,
    vol: VolIx,
    writes: u64,
    failing: u64,
) -> Option<MemoryRack> {
    let fails = if failing == 0 {
        0
    } else {
        writes.saturating_add(failing)
    };
    let mut rack = zeros(alloc, &image.anchor, &[fails]).ok()?;
    if is_volume_written(&mut rack, image, vol) {
        Some(rack)
    } else {
        None
    }
}

/// Brings what a word names, and tells what comes of that.
fn push_brought(
    alloc: Global,
    rack: &mut MemoryRack,
    frame: &DomainFrame,
    what: &str,
    pages: &mut MemoryPages,
    told: &mut Told,
) {
    told.push(what);
    match bring(alloc, rack, frame, what, pages) {
        Ok(more) => told.push(more),
        Err(fault) => {
            told.push(" (");
            told.push_shown(&fault);
            told.push(")");
        }
    }
    told.push(":");
}

/// Tells how many reads there were, and how many of them failed.
fn push_counts(rack: &MemoryRack, vol: VolIx, writes: u64, told: &mut Told) {
    let reads = rack.calls().saturating_sub(writes);
    told.push_pair("; ", reads, " reads, ", rack.read_faults(vol));
    told.push(" failed\n");
}

/// Tells what is brought, one after another, of what words name after the number of the read that
/// fails: each time the pages that are there then, and how many reads there were.
pub(crate) fn tell_loaded(
    alloc: Global,
    words: &mut Words,
    image: &Image,
    pages: &mut MemoryPages,
    told: &mut Told,
) {
    let vol = VolIx::new(1).unwrap();
    let writes = count_pages(image, vol);
    let frame = frame_of(image);
    let Some(mut rack) = rack_with(alloc, image, vol, writes, words.long(' ')) else {
        return told.check(false);
    };
    for what in words.rest().split(' ') {
        push_brought(alloc, &mut rack, &frame, what, pages, told);
        push_pages(image, vol, pages, told);
        push_counts(&rack, vol, writes, told);
    }
}
