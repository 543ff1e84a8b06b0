//! Names over any set of files: what stands at a path, how paths come, go and move, what a clone
//! shows, and the fileset that rows make.
#![tactic(auto)]

mod clone_laws;
mod create;
mod fault;
mod hidden;
mod laws;
mod link;
mod listing;
mod missing;
mod parts;
mod rename;
mod slot;
mod spot;
mod tree;
mod unlink;
mod walking;

pub use clone_laws::views_have_names;
pub use create::{Created, create_at};
pub use fault::NameFault;
pub use laws::{bytes_are_free, changes_are_like, clones_have_names, root_is_original};
pub use link::link_at;
pub use listing::{list_rows, row_count};
pub use parts::{FilesetParts, TaggedNode};
pub use rename::{Renamed, rename_at};
pub use slot::make_fileset;
pub use unlink::{Unlinked, rmdir_at, unlink_at};
pub use walking::{target, walk};

// What stands below and is named above.
pub use directory_rows::{
    DirectoryRows, IndexEntry, Row, RowList, RowName, Rows, count_rows, is_row_name, is_row_page,
    name_hash, read_rows,
};
pub use plain_program::{
    Actor, Bytes, Command, Entry, ExtentItem, ExtentList, FilesetItem, FilesetList, FilesetName,
    FilesetSlot, FilesetTree, Filesets, Limits, Name, NameList, Node, Owner, PageMap, Path, Place,
    Refusal, Reply, Role, Told, Usage, VolumeItem, VolumeList, apply,
};
