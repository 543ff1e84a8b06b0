//! Files and directories that are said to be there.
use crate::given::home;
use image_lines::Words;
use index_row_faults::{Attributes, CellAt, FileThere, Home, Kind, OutOfMemory, SeenPages, Tag};
use std::alloc::Global;

/// The kind that a word names, how many links it says, and whether it says a wrong size.
fn kind_of(word: &str) -> (Kind, u32, bool) {
    match word {
        "dir" => (Kind::Directory, 1, false),
        "dir2" => (Kind::Directory, 2, false),
        "gap" => (Kind::Directory, 1, true),
        "file2" => (Kind::File, 2, false),
        "filegap" => (Kind::File, 1, true),
        _ => (Kind::File, 1, false),
    }
}

/// The pages of volume 1 that are left to read, where 0 is none.
fn homes_of(alloc: Global, words: &mut Words) -> Result<Vec<Option<Home>>, OutOfMemory> {
    let mut homes = Vec::new(alloc);
    for _ in 0..words.rest().len() {
        if words.is_at_end() {
            break;
        }
        let page = words.number(' ');
        homes.push(if page == 0 { None } else { Some(home(page)) })?;
    }
    Ok(homes)
}

/// The first tag of a slot.
fn tag(slot: u32) -> Tag {
    Tag { slot, seq: 1 }
}

/// The slot after an `@`, as the tag of the directory in which a file or directory is said to
/// stand.
fn parent_of(kind: &mut Words) -> Option<Tag> {
    if kind.is_at_end() {
        None
    } else {
        Some(tag(kind.number(' ')))
    }
}

/// A file or directory: its slot, its kind, the slot of the directory that it says it stands in,
/// after an `@`, and the pages at which its pages stand. Its first cell stands on the page of its
/// slot and 300 more. It has one link, or two if its kind is said with a 2, and a wrong size if its
/// kind is said with a gap.
pub(crate) fn file_of(alloc: Global, line: &str) -> Option<FileThere> {
    let mut words = Words::new(line);
    let slot = words.number(' ');
    let mut word = Words::new(words.until(' '));
    let (kind, links, has_wrong_size) = kind_of(word.until('@'));
    let parent = parent_of(&mut word);
    words.check(word.is_right());
    let homes = homes_of(alloc, &mut words).ok()?;
    if !words.is_right() {
        return None;
    }
    let is = Attributes {
        kind,
        uid: 0,
        gid: 0,
        is_logged: false,
        size: 0,
        links,
    };
    Some(FileThere {
        tag: tag(slot),
        at: CellAt {
            vol: home(0).vol,
            page: 300 + slot % 100,
            cell: 1,
        },
        seen: SeenPages { is, homes },
        parent,
        has_wrong_size,
        has_second_page: false,
    })
}
