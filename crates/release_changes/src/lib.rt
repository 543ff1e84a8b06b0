//! Steps laid over a domain's memory in which what is on its list is let go of: pages and cells,
//! the tags and limits of a fileset that is removed, and then its slot.
#![tactic(auto)]

mod emptying;
mod letting_go;
mod quotas;
mod releasing;

pub use emptying::{empty_some, may_empty};
pub use letting_go::{let_go, may_let_go};
pub use releasing::{Drained, drain, release};
