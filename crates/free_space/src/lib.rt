//! Which pages of a volume are used, as one bit for each page; which pages of a domain are free,
//! and which wait before they are; and whether the pages of a bitmap say which pages are owned.
#![tactic(auto)]

mod bitmap;
mod bits;
mod runs;
mod spaces;
mod volume;
mod waiting;
mod walk;
mod word;

pub use bitmap::Bitmap;
pub use bits::is_wrong_page;
pub use runs::FreeRun;
pub use spaces::FreeSpace;
pub use waiting::{PageUse, Waiting};

// What stands below and is named above.
pub use sorted_sets::{Home, OutOfMemory, Page, Span, SpanSet, Version, VolIx, find_doubled, gate};
