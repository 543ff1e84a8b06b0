//! The memory of a domain that is attached: read from pages that break no rule, after a look for
//! what the rules allow but the program does not take.
#![tactic(auto)]

mod book;
mod books;
mod charges;
mod domain;
mod fits;
mod laws;
mod limits;
mod memory;
mod parts;
mod reading;
mod signs;
mod slot;
mod slots;
mod tags;
mod unfit;

pub use book::read_book;
pub use domain::read_domain;
pub use laws::books_are_of_the_filesets;
pub use memory::read_memory;
pub use reading::{read_memory_stands_for, read_slots_have_their_pages};
pub use slot::read_slot_book;
pub use slots::read_slots;
pub use unfit::Unfit;

// What stands below and is named above.
pub use no_faults::{
    ANCHORS_PAGE, Actor, Anchor, CellAt, CellLinks, Command, DomainFrame, DomainMemory, Entry,
    FilesetSlot, Filesets, Home, Limits, MakeFault, Member, MemoryPages, MetaPages, Name, Node,
    OutOfMemory, Owner, Page, PageMap, Path, Rack, Redone, Role, SettleFault, SlotFault, SlotFiles,
    StagedPages, TableRead, Told, Version, VolIx, apply, has_quotas_to_go, has_readers,
    read_blocks, read_filesets, read_links, read_list, read_table, read_tables, settle_log,
    sync_volumes, write_blocks,
};

/// Names of the crate `domain_base` that are other things here.
pub mod from_domain_base {
    pub use no_faults::from_domain_base::limits;
}
