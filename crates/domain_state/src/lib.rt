//! A domain: its rack, what is kept of it in memory, and the legal history of its commands since it
//! was opened.
#![tactic(auto)]

mod attached;
mod domain;
mod history;
mod laws;
mod making;

pub use attached::Attached;
pub use domain::{Domain, Opening};
pub use history::History;
pub use laws::{
    a_history_goes_on_over_changes, a_new_domain_is_a_start, an_attached_domain_has_a_start,
    want_of_pages_is_bounded,
};
pub use making::make;
