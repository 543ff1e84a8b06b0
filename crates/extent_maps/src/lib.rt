//! Where the pages of a file stand: a map from page to home or kept hole, in as few runs as
//! possible.
#![tactic(auto)]

mod map;
mod run;

pub use map::ExtentMap;
pub use run::{PagePlace, Run, RunPlace};
