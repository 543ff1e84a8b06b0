//! What a tag names, as a set shows it.
ghost use Rattle.std.specs.Prelude.{◌≡◌};
ghost use Rattle.index_pages.specs.page_store.Bitfiles.{Bitfiles as SetOf, kind_at, links_at};
ghost use Rattle.stored_set.specs.Sets.{HasSet, StandsAsSet};

use index_pages::{Bitfiles, FreeCells, FreeSpace, Kind, MetaPages, Tag};

/// Whether a tag names a file or a directory. Returns None if and only if it names nothing. Takes
/// no memory.
pub fn kind_of<M: MetaPages>(
    pages: &M,
    space: &FreeSpace,
    cells: &FreeCells,
    files: &Bitfiles,
    tag: Tag,
) -> Option<Kind>
    requires { HasSet files.now.fileset files.now.tags space.now cells.now (M.pages pages.now) }
    ensures { (set : SetOf) → StandsAsSet files.now.fileset files.now.tags space.now cells.now
        (M.pages pages.now) set → result ≡ kind_at set tag }
{
    match files.attributes(pages, tag) {
        Some(what) => Some(what.kind),
        None => None,
    }
}

/// How many rows name a tag's file or directory, or 0 if it names nothing. Takes no memory.
pub fn links_of<M: MetaPages>(
    pages: &M,
    space: &FreeSpace,
    cells: &FreeCells,
    files: &Bitfiles,
    tag: Tag,
) -> u32
    requires { HasSet files.now.fileset files.now.tags space.now cells.now (M.pages pages.now) }
    ensures { (set : SetOf) → StandsAsSet files.now.fileset files.now.tags space.now cells.now
        (M.pages pages.now) set → result ≡ links_at set tag }
{
    match files.attributes(pages, tag) {
        Some(what) => what.links,
        None => 0,
    }
}
