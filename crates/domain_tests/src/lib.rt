//! Tests of pages in flight from home to home, of what movers plan, of the anchors by which members
//! change, of the turn, on threads, and of domains that are made on racks in memory; and domains
//! that were written down byte by byte, with what they mean.
#![tactic(auto)]

#[cfg(test)]
mod balances;
#[cfg(test)]
mod homes;
#[cfg(test)]
mod made;
mod meanings;
#[cfg(test)]
mod members;
#[cfg(test)]
mod moves;
#[cfg(test)]
mod pages;
#[cfg(test)]
mod racks;
#[cfg(test)]
mod stops;
#[cfg(test)]
mod taking;

pub use meanings::{empty_domain_means_nothing, one_fileset_means_itself};
