//! Pages of a file that are filled with what stands at their homes.
ghost use Rattle.std.specs.Prelude.{◌≡◌, ◌<◌, ◌≤◌, IfOk, IsSome, None, OnOk, Some, length, ℕ};
ghost use Rattle.std.specs.FinMap.{get, insert};
ghost use Rattle.fileset_shapes.specs.Stored.{AreStored, bytes_at, stored_at};

use filesets_reading::limits::PAGE_BYTES;
use filesets_reading::{Home, MetaPages, OutOfMemory, PageMap};
use std::alloc::Global;

/// Puts what stands at a home into the pages of a file that does not have that page yet.
fn put_page<M: MetaPages>(
    alloc: Global,
    pages: &M,
    number: u64,
    home: &Home,
    map: &mut PageMap,
) -> Result<(), OutOfMemory>
    requires few { number < 65536 }
    requires absent { get map.old number ≡ None }
    requires there { IsSome (M.pages pages.now home.now) }
    ensures { OnOk result (map.new ≡ insert map.old number (bytes_at (M.pages pages.now) home.now)) }
{
    match pages.get(*home) {
        Some(page) => map.write(alloc, number * PAGE_BYTES as u64, page.bytes()),
        None => Ok(()),
    }
}

/// The pages of a file that stand at these homes, page 0 first. Each page that is given a home has
/// the bytes that stand there, and no other page is in the file. Every one of the homes has a page.
pub fn fill_pages<M: MetaPages>(
    alloc: Global,
    pages: &M,
    homes: &[Option<Home>],
) -> Result<PageMap, OutOfMemory>
    requires few { length homes.now ≤ 65536 }
    requires stored { AreStored (M.pages pages.now) homes.now }
    ensures { IfOk result (λ map. (page : ℕ)
        → get map page ≡ stored_at (M.pages pages.now) homes.now page) }
{
    let mut map = PageMap::new(alloc);
    for number in 0..homes.len() {
        if let Some(home) = homes[number] {
            put_page(alloc, pages, number as u64, &home, &mut map)?;
        }
    }
    Ok(map)
}
