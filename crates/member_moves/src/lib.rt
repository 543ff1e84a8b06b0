//! Moves of pages between volumes: which are in flight and which page goes next, and the anchors
//! that change members.
#![tactic(auto)]

mod anchor_laws;
mod balance;
pub mod calls;
mod counts;
mod even_laws;
mod in_flight;
mod member_states;
mod members;
mod move_laws;
mod page_move;
mod search;

pub use anchor_laws::{good_anchors, member_laws};
pub use balance::uneven;
pub use counts::VolCount;
pub use even_laws::balance_laws;
pub use in_flight::{MOST_MOVES, Moves};
pub use member_states::in_state;
pub use members::{
    has_log, has_table, with_log, with_member, with_state, with_table, with_version,
};
pub use move_laws::{
    changes_are_of_one_move, copies_stay_alike, homes_are_of_one_move,
    moving_pages_are_written_twice, steps_keep_copies,
};
pub use page_move::{Move, Phase};
pub use search::first_on;

// What stands below and is named above.
pub use log_recovery::{Anchor, Home, Member, Version, VolIx, is_member, limits, member_of};
