//! Pages by their homes with a change laid over them, which is kept or taken back as a whole.
#![tactic(auto)]

mod edit;
mod meta_pages;
mod pages;
mod settle;
mod slot;
mod store;

pub use pages::StagedPages;
