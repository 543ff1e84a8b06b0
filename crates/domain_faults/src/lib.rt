//! The list of faults of a domain's pages, and what an image means: no domain, a domain with these
//! faults, or these filesets.
#![tactic(auto)]

mod all;
mod directories;
mod fault;
mod files;
mod image_laws;
mod indexes;
mod laws;
mod meaning;
mod members;
mod rows;
mod tables;

pub use all::faults;
pub use fault::ReadFault;
pub use image_laws::a_meaning_is_one;
pub use laws::none_told_is_no_fault;
pub use meaning::{Meaning, read_image};
pub use rows::{FaultRow, Rule};

// What stands below and is named above.
pub use slot_files::{
    ANCHORS_PAGE, DomainFrame, Entry, Failed, FileRun, Home, MetaPages, OutOfMemory, PageImage,
    Rack, RecoverFault, Redone, Version, VolIx, limits, push_number, read_filesets, read_links,
    read_runs, read_tables, recover,
};

/// Names of the crate `filesets_reading` that are other things here.
pub mod from_filesets_reading {
    pub use slot_files::from_filesets_reading::read_tables;
}
