//! Laws of a domain that stands, over steps in which things on its list are let go of, each the
//! contract of a function without a body.
#![tactic(auto)]

mod at_hand;
mod below;
mod bits;
mod chains;
mod freeing;
mod held;
mod quotas;
mod rest;
mod slots;
mod tables;

pub use at_hand::files_are_at_hand;
pub use below::{
    all_below_stands_on_over_steps, files_stand_alone_over_steps, soundness_stays_over_steps,
};
pub use bits::{bits_stay_over_steps, kept_space_stays_over_steps};
pub use chains::chains_stand_on_over_steps;
pub use freeing::{
    all_below_stands_on_where_pages_come_free, bits_say_what_is_held_where_pages_come_free,
    filesets_stand_on_where_pages_come_free,
};
pub use held::held_pages_stand_on_over_steps;
pub use quotas::{
    a_domain_stands_on_where_a_quota_cell_goes, a_domain_stands_on_where_the_last_quota_cell_goes,
    filesets_stand_where_a_quota_cell_goes, filesets_stand_where_the_last_quota_cell_goes,
};
pub use rest::rest_stands_on_over_steps;
pub use slots::{filesets_stand_over_steps, parents_stay_over_steps};
pub use tables::tables_stand_on_over_steps;
