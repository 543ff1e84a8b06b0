//! The log of a domain as it stands on a rack: the pages that a transaction puts at homes, a ring
//! of groups with a gate each, what a stop leaves of them, and the pages of an image once they are
//! redone.
#![tactic(auto)]

mod change;
mod change_laws;
mod header;
mod homes;
mod image;
mod member;
mod page;
mod ring;
mod ring_laws;
mod settling;

pub use change::Change;
pub use change_laws::{header_laws, image_laws};
pub use header::{Header, HeaderRead, HomeList};
pub use image::{PageImage, image_of, place_of};
pub use member::{is_member, member_of};
pub use page::{NUMBERS, read_header, write_header, write_header_of};
pub use ring::ring_page;
pub use ring_laws::{log_laws, redo_laws};
pub use settling::{bring_home, has_home_of};

// What stands below and is named above.
pub use disk_label::{
    ANCHORS_PAGE, Anchor, AnchorFault, Failed, FirstPages, Home, LABEL_PAGE, Label, Member,
    OutOfMemory, Page, Rack, SlotFault, Version, VolIx, close_gate, close_gates, gate, limits,
    open_gate, read_anchor, read_blocks, read_label, ready_slot, sync_volume, sync_volumes,
    usable_pages, write_anchor, write_blocks, write_label,
};
pub use page_store::{MemoryPages, MetaPages};
