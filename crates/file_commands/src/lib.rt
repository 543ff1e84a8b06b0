//! Commands on files and filesets: what is written, read, cut, described, shown and limited. Each
//! is laid over a domain's memory by a function that stops at the first refusal.
#![tactic(auto)]

mod beginning;
mod filing;
mod lasting;
mod limiting;
mod looking;
mod removing;
mod showing;
mod staging;
mod writing;

pub use staging::stage;

// What stands below and is named above.
pub use name_commands::{
    Actor, Attached, Bytes, Command, Domain, DomainMemory, Entry, ExtentList, FilesetName,
    FilesetNo, FilesetTable, FreeSpace, Home, Kind, MakeFault, Name, Opening, OutOfMemory, Owner,
    Page, Path, Place, Placed, Rack, Refusal, Reply, SlotItem, Stop, Told, Version, VolIx,
    VolumeItem, VolumeList, extents_of, find_place, is_fileset_name, is_row_name, limits, make,
    recover,
};
