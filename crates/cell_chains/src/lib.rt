//! Chains of cells: which cells are in use and where each leads, the first cells of chains, what is
//! said twice in a chain, and the runs of pages that cells name.
#![tactic(auto)]

mod along;
mod astray;
mod chains;
mod doubled;
mod heads;
mod late;
mod links;
mod map;
mod pages;
mod reading;
mod run;
mod said;
mod set;
mod starts;
mod twice;
mod walk;

pub use astray::astray_faults;
pub use doubled::{find_shared, has_shared};
pub use heads::{is_head, led_cells};
pub use late::late_faults;
pub use links::{CellLink, CellLinks};
pub use pages::{find_owned, push_pages};
pub use reading::read_runs;
pub use run::{FileRun, push_runs, span_of};
pub use said::Said;
pub use set::CellSet;
pub use twice::twice_faults;
pub use walk::{chain_of, mark_chain};
