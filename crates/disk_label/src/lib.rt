//! The first pages of a volume: where they are, its label, and the anchors that say where a
//! domain's log and table are.
#![tactic(auto)]

mod anchor;
mod fault;
mod fields;
mod first_pages;
mod label;
mod laws;
mod store;

pub use anchor::{Anchor, Member};
pub use fault::{AnchorFault, SlotFault};
pub use first_pages::{ANCHORS_PAGE, FirstPages, LABEL_PAGE};
pub use label::{Label, label_reads_back, read_label, usable_pages, write_label};
pub use laws::anchor_laws;
pub use store::{close_gates, read_anchor, ready_slot, write_anchor};

// What stands below and is named above.
pub use volume_disk::from_domain_base::gate;
pub use volume_disk::{
    Failed, Home, OutOfMemory, Page, Rack, Version, VolIx, close_gate, limits, open_gate,
    read_blocks, sync_volume, sync_volumes, write_blocks,
};
