//! What the program asks of the machine that it runs on.

use std::fs::File;
use std::io::IsTerminal;
use std::rt::{Env, Files};

/// The machine around the program: its words, its standard streams and its files.
pub trait Host: Env + Input + Print + Eprint + Files<File = File> {
    /// Where a long command tells how far it is: if standard error is a terminal.
    fn terminal(&self) -> Option<&HostRuntime>;
}

impl Host for HostRuntime {
    fn terminal(&self) -> Option<&HostRuntime> {
        if self.stderr().is_terminal() {
            return Some(self);
        }
        None
    }
}
