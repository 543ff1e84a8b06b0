//! What files stand in, once calls on names have changed them and a set is taken apart.
ghost use Rattle.fileset_lending.specs.page_store.Homes.{pages_of};
ghost use Rattle.fileset_lending.specs.stored_set.Sets.{HasSet};

use crate::reading::number_of;
use crate::roots::{ROOT, root_alone};
use crate::runs::said_all;
use fileset_lending::{
    BitfileSet, CellAt, Kind, Leftover, MemoryPages, OutOfMemory, Record, StoreFault,
    StoredBitfiles, StoredParts, Tag, find_record,
};
use std::alloc::Global;
use std::test::Fail;

/// Whether a first cell says that all of its file is to be let go of.
fn is_to_go(pages: &MemoryPages, at: &CellAt) -> bool {
    match find_record(pages, *at, 6) {
        Some(
            Record::Pending {
                what: Leftover::Remove,
            },
        ) => true,
        _ => false,
    }
}

/// How many first cells say that all of their files are to be let go of.
fn count_to_go(pages: &MemoryPages, removed: &[CellAt]) -> usize {
    let mut going: usize = 0;
    for at in removed {
        if is_to_go(pages, at) {
            going = going.saturating_add(1);
        }
    }
    going
}

/// Says how many files and directories are listed that were taken away, and how many of them are to
/// be let go of.
fn push_removed(set: StoredBitfiles<MemoryPages>, out: &mut String) -> Result<(), OutOfMemory> {
    let parts = set.into_parts();
    let going = count_to_go(&parts.pages, parts.removed.as_slice());
    write!(
        out,
        "{} listed, {going} to be let go of",
        parts.removed.len()
    )
}

/// Says how many pages the root and its index have.
fn push_pages(set: &StoredBitfiles<MemoryPages>, out: &mut String) -> Result<(), OutOfMemory> {
    let (pages, index) = (set.dir_pages(ROOT), set.index_pages(ROOT));
    write!(out, "{pages} of the root, {index} of its index")
}

/// Says what the set has at the end.
fn push_ended(
    set: StoredBitfiles<MemoryPages>,
    word: &str,
    out: &mut String,
) -> Result<(), OutOfMemory> {
    match word {
        "pages" => push_pages(&set, out),
        _ => push_removed(set, out),
    }
}

/// Adds lines with what the root directory alone says to them in pages, and what it has at the end.
pub fn push_stored(alloc: Global, answers: &mut String, lines: &str) -> Result<(), Fail> {
    let (calls, rest) = lines.split_once("end ").ok_or("an end")?;
    let word = rest.trim_end();
    let mut set = root_alone(alloc)?;
    said_all(&mut set, alloc, calls, answers)?;
    write!(answers, "end {word} -> ")?;
    push_ended(set, word, answers)?;
    answers.push_str(if rest.ends_with("\n\n") { "\n\n" } else { "\n" })?;
    Ok(())
}

/// In which directory the one that a tag names says that it stands.
fn parent_of(parts: &StoredParts<MemoryPages>, tag: Tag) -> Option<(u32, u16)>
    requires { HasSet parts.now.files.fileset parts.now.files.tags parts.now.space parts.now.cells
        (pages_of parts.now.pages.entries.items) }
{
    let at = parts.files.live_cell(&parts.pages, tag)?;
    match find_record(&parts.pages, at, 10) {
        Some(Record::Parent { slot, seq }) => Some((slot, seq)),
        _ => None,
    }
}

/// The tag that a word names.
fn tag_of(word: &str) -> Result<Tag, Fail> {
    let (slot, seq) = word.split_once('.').ok_or("a tag")?;
    let seq = number_of(seq).ok_or("a sequence")?;
    if 65_535 < seq {
        return Err(Fail::from("a sequence"));
    }
    Ok(Tag {
        slot: number_of(slot).ok_or("a slot")?,
        seq: seq as u16,
    })
}

/// Makes a directory, and says of it that it stands in two others, one after the other.
fn make_in(
    alloc: Global,
    set: &mut StoredBitfiles<MemoryPages>,
    first: Tag,
    second: Tag,
) -> Result<Tag, StoreFault> {
    let tag = set.make(alloc, Kind::Directory, 1, 2)?;
    set.set_parent(alloc, tag, first)?;
    set.set_parent(alloc, tag, second)?;
    Ok(tag)
}

/// Says in which directory one says that it stands, once a set is taken apart.
fn push_parent(
    set: StoredBitfiles<MemoryPages>,
    tag: Tag,
    out: &mut String,
) -> Result<(), OutOfMemory> {
    match parent_of(&set.into_parts(), tag) {
        Some((slot, seq)) => write!(out, "{slot}.{seq}"),
        None => out.push_str("none"),
    }
}

/// Says the parent of a new directory, set to two others in turn.
pub fn last_parent(alloc: Global, line: &str, out: &mut String) -> Result<(), Fail> {
    let (first, second) = line.split_once(' ').ok_or("two tags")?;
    let (first, second) = (tag_of(first)?, tag_of(second)?);
    let mut set = root_alone(alloc)?;
    let tag = make_in(alloc, &mut set, first, second)?;
    Ok(push_parent(set, tag, out)?)
}
