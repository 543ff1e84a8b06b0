//! The file of a clone's own cells.
ghost use Rattle.std.specs.Prelude.{◌≡◌, IfOk, IfSome, List, Some, false};
ghost use Rattle.filesets_reading.specs.tag_dirs.Directory.{cell_of};
ghost use Rattle.filesets_reading.specs.metadata_cells.Chain.{PlacedCell};
ghost use Rattle.filesets_reading.specs.fileset_files.Files.{AreFiles, Chains, is_removed};
ghost use Rattle.filesets_reading.specs.domain_layout.Seen.{source_of};
ghost use Rattle.filesets_reading.specs.Seen.{HasFewHomes};
ghost use Rattle.fileset_shapes.specs.Clones.{AreFilesOf, MayBeSource, ReadsOwn};

use crate::files::FilesetFiles;
use crate::sources::{frozen_at, read_homes, read_source, source_at};
use filesets_reading::{CellAt, MetaPages, OutOfMemory, SeenPages, Tag};
use std::alloc::Global;

/// The file of the cells that begin there, to which a tag of the clone leads. None if and only if
/// it is to be removed.
pub(crate) fn read_own<M: MetaPages>(
    alloc: Global,
    pages: &M,
    clone: &FilesetFiles,
    tag: Tag,
    at: &CellAt,
) -> Result<Option<SeenPages>, OutOfMemory>
    requires files { AreFilesOf (M.pages pages.now) clone.now }
    requires leads { cell_of (M.pages pages.now) clone.now.tags tag ≡ Some at.now }
    requires source { (chains : Chains) (cells : List PlacedCell)
        → AreFiles clone.now.files.fileset clone.now.tags (M.pages pages.now) chains
        → chains tag ≡ Some cells → is_removed cells ≡ false
        → IfSome (source_of cells) (MayBeSource (M.pages pages.now)) }
    ensures seen { (chains : Chains) (cells : List PlacedCell)
        → AreFiles clone.now.files.fileset clone.now.tags (M.pages pages.now) chains
        → chains tag ≡ Some cells → IfOk result (ReadsOwn (M.pages pages.now) cells) }
    ensures few { IfOk result (λ found. IfSome found HasFewHomes) }
{
    let Some(is) = clone.files.attributes(pages, tag) else {
        return Ok(None);
    };
    let own = clone.files.read_map(alloc, pages, tag)?;
    let source = read_source(alloc, pages, &source_at(pages, at))?;
    let homes = read_homes(alloc, frozen_at(pages, at), &own, &source)?;
    Ok(Some(SeenPages { is, homes }))
}
