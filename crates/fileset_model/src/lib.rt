//! The filesets as plain data, and what each command means.
#![tactic(auto)]

mod fileset;
mod filesets;
mod node;
mod page_map;

pub use fileset::{FilesetSlot, FilesetTree, Limits, NumberSet, Role, Usage};
pub use filesets::Filesets;
pub use node::Node;
pub use page_map::PageMap;

// What stands below and is named above.
pub use fileset_values::{
    Actor, Bytes, Command, Entry, ExtentItem, ExtentList, FilesetItem, FilesetList, FilesetName,
    Kind, Name, NameItem, NameList, OutOfMemory, Owner, Path, Place, Refusal, Reply, Tag, Told,
    VolumeItem, VolumeList, limits,
};
pub use sorted_sets::entries;
