//! Recovery of a log: which groups stand on a rack, whether its labels, its anchor and these groups
//! are those of a domain, how the images of the groups are brought home, and how the log is settled
//! after that.
#![tactic(auto)]

mod fault;
mod laws;
mod log_settling;
mod members;
mod range;
mod recovery;
mod redone;
mod scan;
mod settling;
mod settling_fault;

pub use fault::RecoverFault;
pub use laws::recovery_laws;
pub use log_settling::settle_log;
pub use range::is_whole;
pub use recovery::recover;
pub use redone::{ImageList, Redone};
pub use scan::is_loggable;
pub use settling::settle;
pub use settling_fault::SettleFault;

// What stands below and is named above.
pub use log_ring::{
    ANCHORS_PAGE, Anchor, Change, Failed, FirstPages, HeaderRead, Home, HomeList, Member,
    MemoryPages, MetaPages, OutOfMemory, Page, PageImage, Rack, SlotFault, Version, VolIx,
    close_gate, close_gates, gate, image_of, is_member, limits, member_of, read_blocks,
    read_header, ready_slot, sync_volume, sync_volumes, usable_pages, write_anchor, write_blocks,
    write_header, write_label,
};
