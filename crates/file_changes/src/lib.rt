//! Changes of one file that are laid over a domain's memory: its pages and its size.
#![tactic(auto)]

mod counting;
mod cutting;
mod describing;
mod extents;
mod giving;
mod looking;
mod putting;
mod reading;
mod sizing;
mod slots;
mod truncating;
mod writing;

pub use counting::count_pages;
pub use cutting::{cut_file, flag_file};
pub use describing::describe;
pub use extents::extents_of;
pub use giving::give_page;
pub use looking::{FilePage, look_at_page};
pub use putting::put_page;
pub use reading::{page_of, read_bytes};
pub use sizing::set_size;
pub use truncating::truncate;
pub use writing::{PagesWanted, absent_pages, write_bytes};
