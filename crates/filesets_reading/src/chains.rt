//! The chains of a fileset's files.
ghost use Rattle.std.specs.Prelude.{◌≡◌, ◌+◌, ◌*◌, ◌/◌, ◌<◌, IsSomeAnd, OnOk, slice_get, ℕ, Some};
ghost use Rattle.domain_layout.specs.domain_base.declared.place.CellAt.{CellAt as CellOf};
ghost use Rattle.domain_layout.specs.domain_base.declared.place.Tag.{Tag as TagOf};
ghost use Rattle.domain_layout.specs.metadata_cells.Chain.{IsBroken};
ghost use Rattle.domain_layout.specs.fileset_files.Files.{HasFiles};
ghost use Rattle.domain_layout.specs.tag_dirs.Directory.{IsDirectory, cell_of};
ghost use Rattle.filesets_reading.specs.Chains.{HasLinks, HasLinksAt, HaveLinks, HaveLinksOn, IsPlaceOf, IsUnbroken, MayHaveFiles};

use domain_layout::{
    CellAt, ChainFault, FilesetNo, MetaPages, OutOfMemory, Tag, TagDir, TagPlace, read_chain,
    u16_at,
};
use std::alloc::Global;

/// Reads the chain that begins at a cell, so that it is known to be there.
pub fn look_at_chain<M: MetaPages>(alloc: Global, pages: &M, at: CellAt) -> Result<(), OutOfMemory>
    requires { (broken : CellOf) → ¬ IsBroken (M.pages pages.now) at broken }
    ensures { OnOk result (HasLinks (M.pages pages.now) at) }
{
    match read_chain(alloc, pages, at) {
        Ok(_chain) => Ok(()),
        Err(ChainFault::OutOfMemory) => Err(OutOfMemory),
        Err(ChainFault::Broken { .. }) => unreachable!(),
    }
}

/// Reads the chain to which the entry of a page of tags leads, if it is used.
fn look_at_entry<M: MetaPages>(
    alloc: Global,
    pages: &M,
    dir: &TagDir,
    place: &TagPlace,
    entry: u32,
) -> Result<(), OutOfMemory>
    requires directory { IsDirectory (M.pages pages.now) dir.now }
    requires unbroken { IsUnbroken (M.pages pages.now) dir.now }
    requires place { IsPlaceOf dir.now place.now }
    requires entry { entry < 1022 }
    ensures { OnOk result
        (HasLinksAt (M.pages pages.now) dir.now (1022 * place.now.index + entry)) }
{
    let home = place.home;
    let Some(page) = pages.get(home) else {
        unreachable!()
    };
    let tag = Tag {
        slot: place.index * 1022 + entry,
        seq: u16_at(page.bytes(), 16 + 8 * entry as usize),
    };
    match dir.look(pages, tag) {
        Some(at) => look_at_chain(alloc, pages, at),
        None => Ok(()),
    }
}

/// Reads the chains to which the entries of a page of tags lead.
fn look_at_tags<M: MetaPages>(
    alloc: Global,
    pages: &M,
    dir: &TagDir,
    place: &TagPlace,
) -> Result<(), OutOfMemory>
    requires directory { IsDirectory (M.pages pages.now) dir.now }
    requires unbroken { IsUnbroken (M.pages pages.now) dir.now }
    requires place { IsPlaceOf dir.now place.now }
    ensures { OnOk result (HaveLinksOn (M.pages pages.now) dir.now place.now) }
{
    for entry in 0..1022_u32 {
        look_at_entry(alloc, pages, dir, place, entry)?;
    }
    Ok(())
}

/// Reads the chain of each file of a fileset: so if no rule of tables and extents is broken, it has
/// its files.
pub fn look_at_files<M: MetaPages>(
    alloc: Global,
    pages: &M,
    number: FilesetNo,
    dir: &TagDir,
) -> Result<(), OutOfMemory>
    requires { MayHaveFiles (M.pages pages.now) number dir.now }
    ensures { OnOk result (HasFiles number dir.now (M.pages pages.now)) }
{
    for place in dir.places() {
        look_at_tags(alloc, pages, dir, place)?;
    }
    Ok(())
}
