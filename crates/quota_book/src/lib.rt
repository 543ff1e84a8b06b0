//! What the owners of a fileset use of it, and how much they may use.
#![tactic(auto)]

mod account;
mod accounts;
mod book;
mod laws;
mod quota_cells;
mod totals;

pub use book::QuotaBook;
pub use laws::{
    books_answer_as_filesets, charges_keep_the_sums, filesets_change_one_by_one,
    nodes_count_for_their_ids, one_cell_is_touched, refunds_keep_the_sums,
    sums_stay_without_a_charge,
};
pub use quota_cells::{are_once, read_limits};

// What stands below and is named above.
pub use fileset_model::{Limits, Owner};
