//! Changes that are laid over a domain's memory: filesets that begin or begin to be removed,
//! limits that are set, and what owners use, charged and refunded.
#![tactic(auto)]

mod beginning;
mod charging;
mod counting;
mod going;
mod laws;
mod limits;
mod table;
mod tags;

pub use beginning::begin_fileset;
pub use charging::{ask_quota, charge, refund, used_by};
pub use counting::count_filesets;
pub use going::begin_to_go;
pub use laws::books_follow_their_filesets;
pub use limits::set_limits;
pub use table::put_in_table;

// What stands below and is named above.
pub use domain_memory::{
    Actor, Attributes, Bitfiles, Bytes, CellAt, Command, DomainMemory, Entry, ExtentList,
    FilesetItem, FilesetList, FilesetName, FilesetNo, FilesetTable, FreeSpace, Home, Kind,
    Leftover, Limits, MakeFault, MetaPages, Name, NameFault, OutOfMemory, Owner, Page, PageUse,
    Path, Place, Rack, Record, Refusal, Reply, SlotFiles, SlotItem, StagedPages, StoreFault, Tag,
    TagPlace, Told, Unlinked, Version, VolIx, VolumeItem, VolumeList, count_index, drop_index,
    find_record, is_fileset_name, is_row_name, lead_past, next_cell, recover, take_out,
};

/// Names of the crate `domain_base` that are other things here.
pub mod from_domain_base {
    pub use domain_memory::limits;
}

/// Names of the crate `release_list` that are other things here.
pub mod from_release_list {
    pub use domain_memory::from_release_list::Entry;
}
