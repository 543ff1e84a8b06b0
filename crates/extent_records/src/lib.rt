//! How a file's map of pages stands in the records of its mcells.
#![tactic(auto)]

mod changes;
mod choosing;
mod dense;
mod laws;
mod listing;
mod parting;
mod reading;
mod rows;
mod writing;

pub use changes::{cut_from, cut_page, cut_to, keep_hole, put_page, switch_page};
pub use choosing::{record_for, record_for_hole};
pub use dense::as_dense;
pub use laws::{
    a_chain_shows_its_records, cut_records_cut_the_map, one_page_changes, one_record_changes,
    parts_of_a_record_keep_the_map,
};
pub use listing::map_records;
pub use parting::{Parts, switch_in_parts};
pub use reading::read_map;
pub use rows::{place_in, used_rows};
pub use writing::{empty_extents, empty_holes, empty_short};

// What stands below and is named above.
pub use cell_records::from_domain_base::Version;
pub use cell_records::{ExtentField, HoleField, Home, OutOfMemory, Record, VolIx, limits};
pub use extent_maps::{ExtentMap, PagePlace, Run, RunPlace};
