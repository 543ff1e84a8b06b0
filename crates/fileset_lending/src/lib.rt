//! The files of one fileset of a domain, lent by the domain's memory to calls on a set of files
//! and directories, and handed back.
#![tactic(auto)]

mod chosen;
mod laws;
mod parts;
mod rest;
mod stored_bitfiles;

pub use chosen::{Chosen, choose};
pub use laws::{a_lent_set_is_staged, a_lent_set_of_new_names_is_staged};
pub use parts::{CallSettings, StoredParts};
pub use rest::MemoryRest;
pub use stored_bitfiles::StoredBitfiles;

// What stands below and is named above.
pub use domain_memory::{
    BitfileSet, CellAt, Command, Created, DirectoryRows, DomainMemory, FilesetName, FilesetNo,
    FilesetParts, FilesetSlot, Filesets, Kind, Leftover, MemoryBitfiles, MemoryPages, Name,
    NameFault, NameList, Node, OutOfMemory, PageMap, Path, Place, Record, Refusal, Renamed, Reply,
    Row, RowList, RowName, StoreFault, Tag, TaggedNode, Unlinked, Version, VolIx, apply, create_at,
    find_record, is_row_name, link_at, list_rows, make_fileset, rename_at, rmdir_at, row_count,
    target, unlink_at, walk,
};
