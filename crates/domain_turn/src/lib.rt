//! The turn: one value that is handed from thread to thread, and what threads do with it.
#![tactic(auto)]

mod ends;
mod ledger;
mod pass;
mod rule;
mod table;
mod telling;
mod turn;
mod view;
mod working;

pub use ledger::{Ledger, Named};
pub use pass::Pass;
pub use rule::InTurn;
pub use table::Turn;
pub use telling::Front;
pub use view::{Beginning, Share, View};
pub use working::{add_one, add_some, begin, begin_all, begin_job, wait_until};

// What stands below and is named above.
pub use fileset_values::{Actor, Command, Entry, Reply};
