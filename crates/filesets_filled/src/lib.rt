//! The plain reading of a domain's filesets: from pages in which no rule is broken to all filesets
//! with their bytes. It is slow, and follows the definitions line by line.
#![tactic(auto)]

mod directory_laws;
mod domain;
mod filling;
mod parts;
mod shown_laws;
mod slots;

pub use directory_laws::{index_is_of_rows, rows_are_a_filesets};
pub use domain::read_filesets;
pub use filling::fill_fileset;
pub use shown_laws::{an_original_has_a_root, shows_a_fileset, shows_indexes};
