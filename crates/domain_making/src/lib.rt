//! Making a domain: an empty one on the first volume of a rack, whatever that volume held.
#![tactic(auto)]

mod anchor;
mod bringing;
mod fault;
mod laws;
mod making;
mod pages;
mod writing;

pub use anchor::new_anchor;
pub use fault::MakeFault;
pub use laws::making_laws;
pub use making::{make_domain, pages_to_use};
pub use pages::NewPages;

// What stands below and is named above.
pub use domain_layout::{Anchor, OutOfMemory, Rack, RecoverFault, Version, VolIx, recover};
