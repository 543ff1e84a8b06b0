//! The program: it runs scripts over domains, makes and verifies them in images, puts files in and
//! takes them out.
#![tactic(auto)]

use advfs_program::program;
use std::process::ExitCode;

fn main(rt: HostRuntime) -> ExitCode {
    program(&rt, rt.alloc())
}
