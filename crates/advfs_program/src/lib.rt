//! The program around `run`: its words, the files that they name under their locks, files that go
//! in and out, what a domain shows, and what is told on standard error, also of a long command.
#![tactic(auto)]

mod command_line;
mod errands;
mod host;
mod images;
mod looks;
mod opening;
mod progress;
mod telling;
mod transfers;

pub use command_line::{perform, program};
pub use host::Host;
