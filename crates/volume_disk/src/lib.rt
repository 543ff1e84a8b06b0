//! Racks of volumes that may stop at any moment, the model of what a stop leaves, and gates: blocks
//! that say whether what follows them counts.
#![tactic(auto)]

mod gate;
mod rack;
mod synced;

pub use gate::{close_gate, open_gate, read_gate};
pub use rack::Rack;
pub use synced::{read_blocks, sync_volume, sync_volumes, write_blocks, write_synced};

// What stands below and is named above.
pub use domain_base::{Failed, Home, OutOfMemory, Page, Version, VolIx, limits};

/// Names of the crate `domain_base` that are other things here.
pub mod from_domain_base {
    pub use domain_base::gate;
}
