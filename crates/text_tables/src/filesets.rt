//! Filesets without volumes, and clones of them with files that are marked as out of sync. No
//! command marks one, so the marks are set here by hand.
use crate::commands::{answer_line, command_in, path_of};
use history_reading::{Actor, FilesetName};
use plain_program::{FilesetSlot, Filesets, NumberSet, Role, apply};
use std::alloc::Global;
use std::str::SplitWhitespace;

/// The line in a history of the first client's command.
pub fn answered(alloc: Global, filesets: &mut Filesets, line: &str) -> Option<Vec<u8>> {
    let command = command_in(alloc, line)?;
    let reply = apply(alloc, filesets, &command);
    answer_line(alloc, Actor::Client(1), command, reply)
}

/// The numbers of what stands at paths of a fileset.
fn numbers(
    alloc: Global,
    slot: &FilesetSlot,
    paths: &mut SplitWhitespace<'_>,
) -> Option<NumberSet> {
    let mut numbers = NumberSet::new(alloc);
    for text in paths {
        let path = path_of(alloc, text)?;
        numbers.insert(slot.tree.number_at(&path)?).ok()?;
    }
    Some(numbers)
}

/// The name of a fileset that is the next word.
fn next_fileset(alloc: Global, words: &mut SplitWhitespace<'_>) -> Option<FilesetName> {
    let name = Vec::from_slice(alloc, words.next()?.as_bytes()).ok()?;
    Some(FilesetName::from_vec(name))
}

/// Marks what stands at paths of a clone: the words are its name, its original's, and the paths.
pub fn mark(alloc: Global, filesets: &mut Filesets, line: &str) -> Option<()> {
    let mut words = line.split_whitespace();
    let name = next_fileset(alloc, &mut words)?;
    let original = next_fileset(alloc, &mut words)?;
    let slot = filesets.slot(&name)?;
    let out = numbers(alloc, slot, &mut words)?;
    let tree = slot.tree.clone_of(alloc, &original).ok()?.tree;
    let role = Role::CloneOf { original, out };
    filesets.insert(name, FilesetSlot { tree, role }).ok()
}
