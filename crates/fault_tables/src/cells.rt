//! Rules of cells and their chains.
use crate::given::Given;
use crate::tags;
use image_lines::{
    holes_faults, leads_faults, limits_twice_faults, local_faults, pages_twice_faults,
    unchained_faults, unnamed_quota_faults,
};
use index_row_faults::{CellLinks, HomeSet, OutOfMemory, cells_faults, read_links, read_tables};
use std::alloc::Global;

/// The cells in use of a domain.
pub(crate) fn links_of(alloc: Global, given: &Given) -> Result<CellLinks, OutOfMemory> {
    let tables = read_tables(alloc, &given.image.pages, &given.frame)?;
    read_links(alloc, &given.image.pages, &given.frame, &tables)
}

/// The pages at which a rule of one cell is broken.
fn local(alloc: Global, given: &Given) -> Result<HomeSet, OutOfMemory> {
    let Given {
        image,
        frame,
        table,
        ..
    } = given;
    let tables = read_tables(alloc, &image.pages, frame)?;
    local_faults(alloc, &image.pages, frame, table, &tables)
}

/// The pages at which a rule of chains, or of quota cells, is broken.
fn find_by_links(alloc: Global, asked: &str, given: &Given) -> Result<HomeSet, OutOfMemory> {
    let links = links_of(alloc, given)?;
    match asked {
        "holes" => holes_faults(alloc, &given.image.pages, &given.table, &links),
        "leads" => leads_faults(alloc, &links),
        "unchained" => unchained_faults(alloc, &links),
        "pages-twice" => pages_twice_faults(alloc, &given.image.pages, &links),
        "limits-twice" => limits_twice_faults(alloc, &given.image.pages, &links),
        _ => unnamed_quota_faults(alloc, &links, &given.table),
    }
}

/// The pages at which a rule of cells, or another one, is broken.
pub(crate) fn find(alloc: Global, asked: &str, given: &Given) -> Result<HomeSet, OutOfMemory> {
    match asked {
        "one-cell" => local(alloc, given),
        "all-cells" => cells_faults(alloc, &given.image.pages, &given.frame, &given.table),
        "holes" | "leads" | "unchained" | "pages-twice" | "limits-twice" | "quota-cells" => {
            find_by_links(alloc, asked, given)
        }
        _ => tags::find(alloc, asked, given),
    }
}
