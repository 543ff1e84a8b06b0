//! Tests of domains that are made and opened on racks in memory.
#![tactic(auto)]

#[cfg(test)]
mod answering;
#[cfg(test)]
mod closed;
#[cfg(test)]
mod making;
#[cfg(test)]
mod opened;
#[cfg(test)]
mod telling;
