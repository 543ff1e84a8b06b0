//! A volume with pages of metadata, free space, free cells and the files of a fileset.
ghost use Rattle.std.specs.Prelude.{◌≡◌, ◌≢◌, ◌<◌, ◌≤◌, ◌^◌, ℕ, IfOk, IsSomeAnd, OnOk, false};
ghost use Rattle.index_pages.specs.domain_base.declared.place.Home.{Home};
ghost use Rattle.index_pages.specs.page_store.Pages.{same_home};
ghost use Rattle.index_pages.specs.page_store.Homes.{pages_of};
ghost use Rattle.index_pages.specs.metadata_cells.CellPage.{IsEmptyPage};
ghost use Rattle.index_pages.specs.fileset_files.Creation.{IsNewDirectory};
ghost use Rattle.index_pages.specs.fileset_files.Together.{HasTogether};
ghost use Rattle.file_world.specs.First.{AreFirst, IsEmpty, first_map as first_map_of, first_space as first_space_of, home_at as home_there};

use index_pages::{
    Bitfiles, Bitmap, FilesetNo, FreeCells, FreeSpace, Home, MemoryPages, MetaPages, OutOfMemory,
    TagDir, VolIx, empty_page,
};
use std::alloc::Global;
use std::test::Fail;

/// All that a call on files is given.
#[derive(Drop)]
pub struct World {
    pub pages: MemoryPages,
    pub space: FreeSpace,
    pub cells: FreeCells,
    pub files: Bitfiles,
}

/// The volume.
pub fn volume() -> VolIx
    ensures { result ≡ 1 }
{
    VolIx::new(1).unwrap()
}

/// A page of the volume.
pub fn home_at(page: u32) -> Home
    ensures { result ≡ home_there page }
{
    Home {
        vol: volume(),
        page,
    }
}

/// Page 1 as a page of 28 free cells.
fn first_pages(alloc: Global) -> Result<MemoryPages, OutOfMemory>
    ensures { IfOk result (λ pages. IsSomeAnd (pages_of pages.entries.items (home_there 1))
        (IsEmptyPage 0)) }
{
    let mut pages = MemoryPages::new(alloc);
    let page = empty_page(alloc, 0)?;
    pages.reserve(alloc, 1)?;
    pages.put(home_at(1), page);
    Ok(pages)
}

/// The free cells of the volume, whose page 1 was read.
fn first_cells(alloc: Global, pages: &MemoryPages) -> Result<FreeCells, OutOfMemory>
    requires { IsSomeAnd (pages_of pages.now.entries.items (home_there 1)) (IsEmptyPage 0) }
    ensures { IfOk result (λ cells. AreFirst cells (pages_of pages.now.entries.items)) }
{
    let mut cells = FreeCells::new(alloc)?;
    cells.read_page(alloc, pages, home_at(1))?;
    Ok(cells)
}

/// A bitmap of `count` pages, the first three used.
fn first_map(alloc: Global, count: u32) -> Result<Bitmap, OutOfMemory>
    requires { 3 ≤ count }
    ensures { IfOk result (λ map. map ≡ first_map_of count) }
{
    let mut map = Bitmap::new(alloc, count)?;
    map.set(0);
    map.set(1);
    map.set(2);
    Ok(map)
}

/// The free space of the volume, of `count` pages.
fn first_space(alloc: Global, count: u32) -> Result<FreeSpace, Fail>
    requires low { 3 ≤ count }
    requires high { count ≤ 2 ^ 20 }
    ensures { IfOk result (λ space. space ≡ first_space_of count) }
{
    let map = first_map(alloc, count)?;
    let mut space = FreeSpace::new(alloc)?;
    match space.add_volume(alloc, volume(), map) {
        Ok(()) => Ok(space),
        Err(_) => Err(Fail::from("memory")),
    }
}

/// A fileset with no file on a volume of `count` pages, the first three used.
pub fn new_world(alloc: Global, count: u32) -> Result<World, Fail>
    requires low { 3 ≤ count }
    requires high { count ≤ 2 ^ 20 }
    ensures together { IfOk result (λ world. HasTogether world.files.fileset world.files.tags
        world.space world.cells (pages_of world.pages.entries.items)) }
    ensures empty { IfOk result (λ world. IsEmpty world.files.fileset world.files.tags world.space
        world.cells (pages_of world.pages.entries.items)) }
    ensures fresh { IfOk result (λ world. IsNewDirectory (pages_of world.pages.entries.items)
        world.files.tags) }
{
    let mut pages = first_pages(alloc)?;
    let cells = first_cells(alloc, &pages)?;
    let space = first_space(alloc, count)?;
    let mut tags = TagDir::new(alloc);
    tags.add_page(alloc, &mut pages, 0, home_at(2))?;
    let fileset = FilesetNo::new(1).ok_or("a fileset")?;
    let files = Bitfiles::new(fileset, tags);
    Ok(World {
        pages,
        space,
        cells,
        files,
    })
}
