//! A file or directory with its bytes.
ghost use Rattle.std.specs.Prelude.{◌≡◌, IfOk};
ghost use Rattle.filesets_reading.specs.domain_layout.Filled.{IsFilled};
ghost use Rattle.filesets_reading.specs.domain_layout.Read.{contents_of};
ghost use Rattle.filesets_reading.specs.domain_layout.Seen.{SeenFile};
ghost use Rattle.filesets_reading.specs.Seen.{HasFewHomes, IsSeenAs};
ghost use Rattle.fileset_shapes.specs.Stored.{AreStored};

use crate::fill_pages;
use filesets_reading::{Kind, MetaPages, Node, OutOfMemory, SeenPages};
use std::alloc::Global;

/// The file or directory that was read, with the bytes that stand at the homes of its pages. A page
/// must stand at each of them.
pub fn read_node<M: MetaPages>(
    alloc: Global,
    pages: &M,
    seen: &SeenPages,
) -> Result<Node, OutOfMemory>
    requires few { HasFewHomes seen.now }
    requires stored { AreStored (M.pages pages.now) seen.now.homes.items }
    ensures { (file : SeenFile) → IsSeenAs file seen.now
        → IfOk result (IsFilled (contents_of (M.pages pages.now)) file) }
{
    let is = &seen.is;
    match is.kind {
        Kind::File => {
            let filled = fill_pages(alloc, pages, seen.homes.as_slice())?;
            Ok(Node::File {
                uid: is.uid,
                gid: is.gid,
                size: is.size,
                logged: is.is_logged,
                pages: filled,
            })
        }
        Kind::Directory => Ok(Node::Directory {
            uid: is.uid,
            gid: is.gid,
        }),
    }
}
