//! Laws: a domain that stands breaks no rule of pages, and keeps what the rules ask through calls
//! and changes. Also what is still to be let go of in a domain that was read.
#![tactic(auto)]

mod calls;
mod fault_tables;
mod filesets;
mod going;
mod indexes;
mod limits;
mod list;
mod pages;
mod places;
mod reading;
mod rows;
mod sound_whole;
mod starts;
mod tables;
mod whole;

pub use calls::soundness_stays_after_a_call;
pub use fault_tables::{no_cells_fault, no_table_fault, no_tags_fault};
pub use filesets::a_read_domain_stands;
pub use going::has_quotas_to_go;
pub use indexes::{
    soundness_stays_where_a_file_goes_with_its_index,
    soundness_stays_where_an_index_page_is_put_in, soundness_stays_where_an_index_page_is_written,
};
pub use limits::soundness_stays_where_limits_are_set;
pub use list::{has_readers, read_list};
pub use pages::{no_bitmap_fault, no_extent_fault};
pub use places::{
    soundness_stays_where_a_domain_is_kept, soundness_stays_where_a_fileset_begins,
    soundness_stays_where_a_fileset_begins_to_go, soundness_stays_where_a_fileset_is_bounded,
    soundness_stays_where_other_pages_change, soundness_stays_where_the_list_changes,
};
pub use reading::read_pages_stand;
pub use rows::{no_directory_fault, no_index_fault};
pub use sound_whole::{a_faultless_domain_is_sound, a_sound_domain_has_no_fault};
pub use starts::{a_new_domain_is_sound, a_read_domain_is_sound};
pub use tables::{read_bits_are_right, read_parents_are_right, read_tables_stand};
pub use whole::{
    a_domain_has_no_fault, a_domain_without_fault_is_sound, soundness_is_of_the_domain,
};

// What stands below and is named above.
pub use cell_faults::{CellLinks, TableRead, read_links, read_table, read_tables};
pub use domain_memory::{
    ANCHORS_PAGE, Actor, Anchor, Bitfiles, CellAt, Command, DomainFrame, DomainMemory,
    DomainTables, Entry, FilesetEntry, FilesetNo, FilesetSeen, FilesetSlot, FilesetTable, Filesets,
    Home, Kind, Leftover, Limits, MakeFault, Member, MemoryPages, MetaPages, Name, NewPages, Node,
    OutOfMemory, Owner, Page, PageMap, Path, QuotaBook, Rack, Record, RecordList, Redone, Role,
    SettleFault, SlotFault, SlotFiles, SlotItem, StagedPages, Tag, TagDir, TaggedFile, Told,
    Version, VolIx, apply, find_record, pages_to_use, read_blocks, read_cells, read_slot,
    read_space, read_tags, read_used, settle_log, sync_volumes, used_tags, write_blocks,
};
pub use filesets_filled::read_filesets;

/// Names of the crate `domain_base` that are other things here.
pub mod from_domain_base {
    pub use domain_memory::limits;
}

/// Names of the crate `filesets_reading` that are other things here.
pub mod from_filesets_reading {
    pub use domain_memory::read_tables;
}
