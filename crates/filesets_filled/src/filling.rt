//! Making a fileset from what was read of it.
ghost use Rattle.std.specs.Prelude.{IfOk};
ghost use Rattle.fileset_shapes.specs.domain_layout.Filled.{Fills};
ghost use Rattle.fileset_shapes.specs.domain_layout.Read.{contents_of};
ghost use Rattle.fileset_shapes.specs.domain_layout.Shape.{FilesetShape};
ghost use Rattle.filesets_filled.specs.Filling.{SaysFileset};

use crate::parts::read_parts;
use fileset_shapes::{
    FilesetEntry, FilesetSeen, FilesetSlot, MetaPages, OutOfMemory, make_fileset, set_limits,
};
use std::alloc::Global;

/// The fileset in a slot, from what was read of it: its paths are the rows, each file that a path
/// shows has the bytes that stand at the homes of its pages, and owners have their limits.
pub fn fill_fileset<M: MetaPages>(
    alloc: Global,
    pages: &M,
    entry: &FilesetEntry,
    found: &FilesetSeen,
) -> Result<FilesetSlot, OutOfMemory>
    requires { (shape : FilesetShape)
        × SaysFileset (M.pages pages.now) entry.now found.now shape }
    ensures { (shape : FilesetShape) → SaysFileset (M.pages pages.now) entry.now found.now shape
        → IfOk result (Fills (contents_of (M.pages pages.now)) shape) }
{
    let parts = read_parts(alloc, pages, found.files.as_slice())?;
    let mut slot = make_fileset(alloc, &found.original, &parts)?;
    set_limits(&mut slot.tree, entry, found.quotas.as_slice())?;
    Ok(slot)
}
