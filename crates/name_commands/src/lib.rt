//! Commands on names: files and directories that are made, linked, renamed, removed and listed.
//! Each is laid over a domain's memory by a function that stops at the first refusal.
#![tactic(auto)]

mod creating;
mod finding;
mod leaving;
mod linking;
mod listing;
mod placing;
mod renaming;
mod rooted;
mod stop;
mod taking;

pub use finding::slot_of;
pub use leaving::Share;
pub use listing::{stage_list, stage_stat};
pub use placing::{Placed, find_place};
pub use rooted::{stage_leaving, stage_linking, stage_making, stage_moving};
pub use stop::Stop;

// What stands below and is named above.
pub use domain_changes::from_domain_base::limits;
pub use domain_changes::{
    Actor, Bytes, Command, DomainMemory, Entry, ExtentList, FilesetItem, FilesetList, FilesetName,
    FilesetNo, FilesetTable, FreeSpace, Home, Kind, Limits, MakeFault, Name, OutOfMemory, Owner,
    Page, Path, Place, Rack, Refusal, Reply, SlotItem, StoreFault, Tag, Told, Version, VolIx,
    VolumeItem, VolumeList, ask_quota, begin_fileset, begin_to_go, charge, count_filesets,
    is_fileset_name, is_row_name, recover, refund, set_limits, used_by,
};
pub use domain_state::{Attached, Domain, Opening, make};
pub use file_changes::{
    absent_pages, count_pages, cut_file, describe, extents_of, flag_file, read_bytes, write_bytes,
};
