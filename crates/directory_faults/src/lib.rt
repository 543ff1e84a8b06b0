//! Which rules of directories and of the tree that they make are broken, by the files and
//! directories that were read of a fileset.
#![tactic(auto)]

mod children;
mod counts;
mod few;
mod links;
mod lost;
mod misplaced;
mod names;
mod order;
mod pages;
mod parents;
mod rows;
mod sizes;
mod slot;
mod there;
mod tree;
mod walk;
mod wrong;

pub use counts::{count_of, count_rows};
pub use few::insert_few_rows;
pub use links::{home_of, insert_wrong_links};
pub use lost::insert_lost_twice;
pub use misplaced::insert_misplaced;
pub use names::insert_names_twice;
pub use pages::insert_row_pages;
pub use parents::insert_wrong_parents;
pub use rows::{PageAt, RowThere, read_rows};
pub use sizes::insert_wrong_sizes;
pub use slot::{directory_faults_by_slot, insert_directory_faults};
pub use there::FileThere;
pub use wrong::{ROOT, insert_wrong_rows};

// What stands below and is named above.
pub use fileset_shapes::{tags_of_both, used_tags};
