//! Racks in memory and racks of files, and labels and anchors on them: a program that makes the
//! calls of the lines that it reads, and prints each line with its answer. Its input covers
//! what no clause says; `renewals` is a caller of the anchors whose contract shows that the
//! contracts of anchors fit together.
#![tactic(auto)]

mod anchors;
mod calls;
mod files;
mod labels;
mod picks;
mod racks;
mod renewals;
mod scene;
mod telling;
mod texts;

use scene::{Scene, tell_lines};
use std::io::{self, Lock};
use std::process::ExitCode;
use table_words::Told;

fn main(rt: HostRuntime) -> ExitCode {
    let Ok(text) = io::read_to_string(rt.alloc(), rt.stdin().lock()) else {
        return ExitCode::FAILURE;
    };
    let Ok(mut scene) = Scene::new(rt.alloc()) else {
        return ExitCode::FAILURE;
    };
    let mut told = Told::new(rt.alloc());
    tell_lines(&rt, &mut scene, text.as_str(), &mut told);
    told.print(&rt)
}
