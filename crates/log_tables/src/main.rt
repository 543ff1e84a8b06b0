//! Logs on racks in memory: a program that makes the calls of the lines that it reads, and prints
//! each line with its answer. What stands in its input is what forces, checkpoints and recovery
//! leave, whatever calls fail and wherever a stop comes, and which pages have frames. A call whose
//! conditions do not hold is not made, and its line says `unfit`. `openings` and `moves` are
//! callers of the whole order, whose contracts show that the calls of a log fit together.
#![tactic(auto)]

mod answers;
mod changes;
mod counting;
mod failing;
mod frame_lines;
mod frames;
mod logged;
mod logged_failing;
mod logged_lines;
mod logs;
mod moves;
mod openings;
mod orders;
mod racks;
mod reading;
mod scene;
mod seen;
mod settling;
mod stops;
mod stores;

use scene::{Scene, answer};
use std::alloc::Global;
use std::io::{self, Lock};
use std::process::ExitCode;
use table_words::Told;

/// Tells each line with its answer.
fn tell(alloc: Global, told: &mut Told, scene: &mut Scene, text: &str) {
    for line in text.lines() {
        answer(alloc, scene, told, line);
        told.push("\n");
    }
}

fn main(rt: HostRuntime) -> ExitCode {
    let Ok(text) = io::read_to_string(rt.alloc(), rt.stdin().lock()) else {
        return ExitCode::FAILURE;
    };
    let mut told = Told::new(rt.alloc());
    match Scene::new(rt.alloc()) {
        Some(mut scene) => tell(rt.alloc(), &mut told, &mut scene, text.as_str()),
        None => told.check(false),
    }
    told.print(&rt)
}
