//! The pages of a domain, brought from the volumes of a rack into memory: those to which its tables
//! lead, and those of its files. If a rule is broken, the first one is told instead.
#![tactic(auto)]

mod bringing;
mod fault;
mod files;
mod images;
mod laws;
mod range;

pub use bringing::{Brought, bring_domain};
pub use fault::BringFault;
pub use laws::{bitmaps_are_brought, brought_pages_mean};

// What stands below and is named above.
pub use domain_faults::{FaultRow, Meaning, faults, read_image};
pub use image_loading::load;
