//! The plain slow program: it answers the commands of clients over filesets without volumes, and
//! says of the commands on volumes what the member list and the sizes of the volumes decide.
#![tactic(auto)]

mod answers;
mod commands;
mod extents;
mod members;
mod quotas;
mod refusals;
mod stop;
mod volume_refusals;

pub use answers::apply;
pub use extents::is_extent_list;
pub use members::{is_member_list, rises};
pub use volume_refusals::member_refusal;

// What stands below and is named above.
pub use legal_histories::{
    Actor, Bytes, Command, Entry, ExtentItem, ExtentList, FilesetItem, FilesetList, FilesetName,
    FilesetSlot, FilesetTree, Filesets, Kind, Limits, Name, NameItem, NameList, Node, NumberSet,
    OutOfMemory, Owner, PageMap, Path, Place, Refusal, Reply, Role, Tag, Told, Usage, VolumeItem,
    VolumeList, limits,
};
