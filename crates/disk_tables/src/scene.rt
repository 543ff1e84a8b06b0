//! The racks that lines speak of, and the calls that each word names.

use crate::anchors::{
    anchor_of, closes, leaves, make_ready, number, reads, renewed_numbers, write,
};
use crate::calls::{image, make_call};
use crate::files::{files, nulls, tell_bytes};
use crate::labels::{first_pages, is_labelled};
use crate::picks::{even, is_torn, shapes};
use crate::racks::{fuse, stop};
use crate::telling::{push_numbers, push_whether};
use crate::texts::{of_anchors, of_slots};
use disk_label::{OutOfMemory, Rack};
use memory_disk::{FileRack, MemoryRack};
use std::alloc::Global;
use table_words::{Told, Words};

/// A rack in memory, the call at which a change of it began, the calls of the next one that fail,
/// and a rack of files, if there is one.
#[derive(Drop)]
pub struct Scene {
    rack: MemoryRack,
    start: u64,
    fails: Vec<u64>,
    files: Option<FileRack>,
}

/// The numbers that are left to read of a line.
fn numbers_of(alloc: Global, words: &mut Words) -> Result<Vec<u64>, OutOfMemory> {
    let mut numbers = Vec::new(alloc);
    for _ in 0..words.rest().len() {
        if words.is_at_end() {
            break;
        }
        numbers.push(words.long_if_any(' '))?;
    }
    Ok(numbers)
}

/// The sizes of volumes that are left to read of a line.
fn sizes_of(alloc: Global, words: &mut Words) -> Result<Vec<u32>, OutOfMemory> {
    let mut sizes = Vec::new(alloc);
    for _ in 0..words.rest().len() {
        if words.is_at_end() {
            break;
        }
        sizes.push(words.number_if_any(' '))?;
    }
    Ok(sizes)
}

/// A rack with volumes of the sizes that a line says, whose calls fail.
fn rack_of(
    alloc: Global,
    words: &mut Words,
    fails: &[u64],
    keeps: bool,
) -> Result<MemoryRack, OutOfMemory> {
    let sizes = sizes_of(alloc, words)?;
    MemoryRack::new(alloc, sizes.as_slice(), fails, keeps)
}

impl Scene {
    /// A rack without a volume, and no other.
    pub fn new(alloc: Global) -> Result<Scene, OutOfMemory> {
        let rack = MemoryRack::new(alloc, &[], &[], false)?;
        Ok(Scene {
            rack,
            start: 0,
            fails: Vec::new(alloc),
            files: None,
        })
    }

    /// Begins anew with a rack of these sizes; whether memory sufficed.
    fn begin(&mut self, alloc: Global, words: &mut Words, keeps: bool) -> bool {
        match rack_of(alloc, words, self.fails.as_slice(), keeps) {
            Ok(rack) => {
                self.rack = rack;
                self.fails = Vec::new(alloc);
                true
            }
            Err(_) => false,
        }
    }

    /// Says which calls of the next rack fail; whether memory sufficed.
    fn fail(&mut self, alloc: Global, words: &mut Words) -> bool {
        match numbers_of(alloc, words) {
            Ok(fails) => {
                self.fails = fails;
                true
            }
            Err(_) => false,
        }
    }

    /// Goes on with what a stop after a call leaves; whether memory sufficed.
    fn stop(&mut self, alloc: Global, call: u64, pick: u64) -> bool {
        match image(&self.rack, alloc, call, pick) {
            Ok(rack) => {
                self.rack = rack;
                true
            }
            Err(_) => false,
        }
    }
}

/// Tells lines with what they answer, each as it stands: one that begins with # is a heading.
pub fn tell_lines(rt: &HostRuntime, scene: &mut Scene, lines: &str, told: &mut Told) {
    for line in lines.lines() {
        let mut words = Words::new(line);
        told.push(line);
        answer(rt, scene, &mut words, told);
        told.check(words.is_right());
        told.push("\n");
    }
}

/// Answers a line.
fn answer(rt: &HostRuntime, scene: &mut Scene, words: &mut Words, told: &mut Told) {
    match words.until(' ') {
        "" | "#" => {}
        "file" => answer_of_files(rt, scene, words, told),
        word => answer_of_racks(rt.alloc(), scene, word, words, told),
    }
}

/// Sets a rack of files, if there is one.
fn is_set(scene: &mut Scene, rack: Option<FileRack>) -> bool {
    scene.files = rack;
    scene.files.is_some()
}

/// Answers a line of a rack of files.
fn answer_of_files(rt: &HostRuntime, scene: &mut Scene, words: &mut Words, told: &mut Told) {
    match words.until(' ') {
        "rack" => told.check(is_set(scene, files(rt, words))),
        "nulls" => told.check(is_set(scene, nulls(rt))),
        "second" => match scene.files.take() {
            Some(rack) => tell_bytes(rack, words.long_if_any(' '), told),
            None => told.check(false),
        },
        word => match &mut scene.files {
            Some(rack) => make_call(rack, word, words, told),
            None => told.check(false),
        },
    }
}

/// Tells whether an answer is yes, if memory sufficed for it.
fn push_answer(told: &mut Told, answer: Result<bool, OutOfMemory>) {
    match answer {
        Ok(is_so) => push_whether(told, &[is_so]),
        Err(_) => told.check(false),
    }
}

/// Answers a line of a rack in memory.
fn answer_of_racks(
    alloc: Global,
    scene: &mut Scene,
    word: &str,
    words: &mut Words,
    told: &mut Told,
) {
    match word {
        "fails" => told.check(scene.fail(alloc, words)),
        "rack" => told.check(scene.begin(alloc, words, true)),
        "rack-that-forgets" => told.check(scene.begin(alloc, words, false)),
        "stop" => {
            let (call, pick) = (words.long_if_any(' '), words.long_if_any(' '));
            stop(&scene.rack, alloc, call, pick, told);
        }
        "again" => {
            let (call, pick) = (words.long_if_any(' '), words.long_if_any(' '));
            told.check(scene.stop(alloc, call, pick));
        }
        "fuse" => fuse(alloc, words.long_if_any(' '), told),
        "shapes" => {
            let is_told = shapes(&scene.rack, alloc, words.long_if_any(' '), told).is_ok();
            told.check(is_told);
        }
        "even" => {
            let is_told = even(&scene.rack, alloc, told).is_ok();
            told.check(is_told);
        }
        "torn" => {
            let (vol, call) = (words.number_if_any(' '), words.long_if_any(' '));
            push_answer(told, is_torn(&scene.rack, alloc, vol, call));
        }
        "label" => push_whether(told, &[is_labelled(&mut scene.rack, words)]),
        "first-pages" => first_pages(words, told),
        "errors-of-anchors" => of_anchors(told),
        "errors-of-slots" => of_slots(told),
        _ => answer_of_anchors(alloc, scene, word, words, told),
    }
}

/// Whether stops after calls leave one of the two anchors that a line says.
fn leaves_said(
    rack: &MemoryRack,
    alloc: Global,
    calls: (u64, u64),
    words: &mut Words,
) -> Result<bool, OutOfMemory> {
    let wanted = [anchor_of(words), anchor_of(words)];
    leaves(rack, alloc, calls, &wanted)
}

/// Answers a line of the anchors of a rack in memory, or another one of the rack.
fn answer_of_anchors(
    alloc: Global,
    scene: &mut Scene,
    word: &str,
    words: &mut Words,
    told: &mut Told,
) {
    let rack = &mut scene.rack;
    let (start, end) = (scene.start, rack.calls());
    let last = end.saturating_add(1);
    match word {
        "mark" => scene.start = end,
        "calls" => push_numbers(told, &[end]),
        "write" => push_whether(told, &[write(rack, words)]),
        "during" => push_answer(told, leaves_said(rack, alloc, (start, end), words)),
        "after" => push_answer(told, leaves_said(rack, alloc, (end, last), words)),
        "number" => push_numbers(told, &[number(rack)]),
        "reads" => push_numbers(told, &[reads(rack)]),
        "ready" => push_whether(told, &[make_ready(rack)]),
        "renew-twice" => match renewed_numbers(rack, alloc) {
            Ok(numbers) => push_numbers(told, &numbers),
            Err(_) => told.check(false),
        },
        "close" => push_whether(told, &[closes(rack)]),
        _ => make_call(rack, word, words, told),
    }
}
