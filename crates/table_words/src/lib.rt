//! For the programs that read tables of tests: the words of a line, and the text that is told.
//! Neither has calls that fail: each remembers whether all was right so far, so that a program asks
//! once. Beside them stands a set of files and directories that counts the pages that are looked at.
#![tactic(auto)]

mod looks;
mod telling;
mod words;

pub use looks::Looks;
pub use telling::Told;
pub use words::Words;

// What stands below and is named above.
pub use hex::decode;
