//! The memory that closing a domain takes.
ghost use Rattle.std.specs.Prelude.{IfOk};
ghost use Rattle.domain_attaching.specs.Closing.{HasRoomFor};

use crate::row::MOST_AT_ONCE;
use crate::tables::TablePages;
use attached_domain::from_domain_base::limits::PAGE_BYTES;
use attached_domain::{DomainFrame, OutOfMemory};
use std::alloc::Global;

/// The memory that closing a domain takes: a mark for each page of its volumes, and the bytes of
/// one call. It is taken before the first command, so that no memory is needed after the last.
#[derive(Drop)]
pub struct ClosingRoom {
    pub(crate) tables: TablePages,
    pub(crate) found: Vec<u8>,
}

impl ClosingRoom {
    /// Takes the memory with which a domain of this frame is closed: a byte for each page of 8,192
    /// bytes of its volumes, and 512 KiB. Fails only if memory runs out.
    pub fn take(alloc: Global, frame: &DomainFrame) -> Result<ClosingRoom, OutOfMemory>
        ensures { IfOk result (HasRoomFor frame.now.anchor) }
    {
        let tables = TablePages::room(alloc, frame)?;
        let found = vec![in alloc; 0; PAGE_BYTES * MOST_AT_ONCE as usize]?;
        Ok(ClosingRoom { tables, found })
    }
}
