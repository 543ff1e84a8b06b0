//! Files and directories in memory, changed by lines of text: a word for the call, a tag, and what
//! it is given. A line `told` has the numbers of the calls that are told to find no page; each of
//! these is made once more.
ghost use Rattle.std.specs.Prelude.{◌≡◌, ◌≤◌, IsSome, IsTrue};
ghost use Rattle.free_cells.specs.page_store.Bitfiles.{IsDirectory, count_index};

use crate::blocks::push_answer;
use free_cells::limits::{FILE_PAGES, MAX_LINKS};
use free_cells::{BitfileSet, Kind, MemoryBitfiles, OutOfMemory, Page, StoreFault, Tag};
use std::alloc::Global;
use table_words::{Told, Words};

/// What came of a call.
#[derive(Clone, Copy)]
enum Outcome {
    Done,
    /// It found no page.
    Missed,
    /// It may not be made, its words are wrong, or memory is short.
    Wrong,
}

/// What came of a call by its answer.
fn outcome_of(answer: Result<(), StoreFault>) -> Outcome {
    match answer {
        Ok(()) => Outcome::Done,
        Err(StoreFault::NoPage) => Outcome::Missed,
        Err(StoreFault::OutOfMemory) => Outcome::Wrong,
    }
}

/// Whether the tag names a directory.
fn is_directory<S: BitfileSet>(set: &S, tag: Tag) -> bool
    ensures { IsTrue result → IsDirectory (S.files set.now) tag }
{
    match set.kind_of(tag) {
        Some(Kind::Directory) => true,
        _ => false,
    }
}

/// Whether the tag names anything.
fn is_live<S: BitfileSet>(set: &S, tag: Tag) -> bool
    ensures { IsTrue result → IsSome (S.files set.now tag) }
{
    set.kind_of(tag).is_some()
}

/// Whether a directory's index has all pages below that number.
fn reaches<S: BitfileSet>(set: &S, tag: Tag, page: u32) -> bool
    ensures { IsTrue result → page ≤ count_index (S.files set.now) tag }
{
    page == 0 || set.index_page(tag, page - 1).is_some()
}

fn tag_of(words: &mut Words) -> Tag {
    let slot = words.number('.');
    Tag {
        slot,
        seq: words.short(' '),
    }
}

/// A page whose last byte is the word's first.
fn page_of(alloc: Global, word: &str) -> Result<Page, OutOfMemory> {
    let mark = word.as_bytes().first().copied().unwrap_or(0);
    let mut page = Page::zeros(alloc)?;
    page.set(8_191, &[mark]);
    Ok(page)
}

/// Puts a page of a directory.
fn put_page(alloc: Global, set: &mut MemoryBitfiles, tag: Tag, page: u32, bytes: Page) -> Outcome {
    if !is_directory(set, tag) || set.dir_pages(tag) < page || FILE_PAGES <= page {
        return Outcome::Wrong;
    }
    outcome_of(set.put_dir_page(alloc, tag, page, bytes))
}

/// Puts a page of a directory's index.
fn put_index(alloc: Global, set: &mut MemoryBitfiles, tag: Tag, page: u32, bytes: Page) -> Outcome {
    if !is_directory(set, tag) || !reaches(set, tag, page) {
        return Outcome::Wrong;
    }
    outcome_of(set.put_index_page(alloc, tag, page, bytes))
}

/// Puts a new page into a directory's index.
fn insert_index(
    alloc: Global,
    set: &mut MemoryBitfiles,
    tag: Tag,
    page: u32,
    bytes: Page,
) -> Outcome {
    if !is_directory(set, tag) || !reaches(set, tag, page) {
        return Outcome::Wrong;
    }
    outcome_of(set.insert_index_page(alloc, tag, page, bytes))
}

/// Puts a page with a mark, as a word says.
fn put(
    alloc: Global,
    set: &mut MemoryBitfiles,
    word: &str,
    tag: Tag,
    number: u32,
    mark: &str,
) -> Outcome {
    let Ok(bytes) = page_of(alloc, mark) else {
        return Outcome::Wrong;
    };
    match word {
        "page" => put_page(alloc, set, tag, number, bytes),
        "index" => put_index(alloc, set, tag, number, bytes),
        _ => insert_index(alloc, set, tag, number, bytes),
    }
}

/// Sets the number of links.
fn set_links(alloc: Global, set: &mut MemoryBitfiles, tag: Tag, links: u32) -> Outcome {
    if !is_live(set, tag) || links < 1 || MAX_LINKS < links {
        return Outcome::Wrong;
    }
    outcome_of(set.set_links(alloc, tag, links))
}

/// Takes away what a tag names.
fn remove(alloc: Global, set: &mut MemoryBitfiles, tag: Tag) -> Outcome {
    if !is_live(set, tag) {
        return Outcome::Wrong;
    }
    outcome_of(set.remove(alloc, tag))
}

/// Makes a file or a directory, which has to have that tag.
fn make(alloc: Global, set: &mut MemoryBitfiles, tag: Tag, kind: Kind, owner: u32) -> Outcome {
    match set.make(alloc, kind, owner, owner / 2) {
        Ok(made) if made == tag => Outcome::Done,
        Ok(_) => Outcome::Wrong,
        Err(fault) => outcome_of(Err(fault)),
    }
}

/// Does what a line says.
fn call(alloc: Global, set: &mut MemoryBitfiles, line: &str) -> Outcome {
    let mut words = Words::new(line);
    let word = words.until(' ');
    let tag = tag_of(&mut words);
    let number = words.number(' ');
    if !words.is_right() {
        return Outcome::Wrong;
    }
    match word {
        "file" => make(alloc, set, tag, Kind::File, number),
        "directory" => make(alloc, set, tag, Kind::Directory, number),
        "links" => set_links(alloc, set, tag, number),
        "remove" => remove(alloc, set, tag),
        _ => put(alloc, set, word, tag, number, words.rest()),
    }
}

/// Tells the mark of a page, if it is there.
fn push_mark(told: &mut Told, page: Option<&Page>) {
    if let Some(page) = page {
        told.push_letter(page.bytes()[8_191]);
    }
}

/// Tells the marks of a directory's pages, and of those of its index.
fn push_marks(told: &mut Told, set: &MemoryBitfiles, tag: Tag) {
    for number in 0..set.dir_pages(tag) {
        push_mark(told, set.dir_page(tag, number));
    }
    told.push(":");
    for number in 0..9 {
        push_mark(told, set.index_page(tag, number));
    }
}

/// Tells what a tag names: the owner, the number of links, and the marks of its pages and of those
/// of its index.
fn push_named(told: &mut Told, set: &MemoryBitfiles, tag: Tag) {
    let Some((uid, gid)) = set.owner_of(tag) else {
        return told.push(" -");
    };
    told.push(if is_directory(set, tag) { " d" } else { " f" });
    for number in [uid, gid, set.links(tag)] {
        told.push_number(u64::from(number));
        told.push(":");
    }
    push_marks(told, set, tag);
}

/// Tells what the first tags name.
fn push_all(told: &mut Told, set: &MemoryBitfiles) {
    for slot in 0..6 {
        push_named(told, set, Tag { slot, seq: 1 });
    }
    push_named(told, set, Tag { slot: 1, seq: 0 });
}

/// Whether a call that found no page has changed nothing, and the count of misses has risen by one.
fn is_a_miss(alloc: Global, set: &MemoryBitfiles, before: &str, misses: u64) -> bool {
    let mut after = Told::new(alloc);
    push_all(&mut after, set);
    after.is_right() && after.text() == before && set.misses().saturating_sub(misses) == 1
}

/// Makes a call, and once more if it found no page; whether it was done.
fn is_done(alloc: Global, set: &mut MemoryBitfiles, line: &str) -> bool {
    let mut before = Told::new(alloc);
    push_all(&mut before, set);
    let misses = set.misses();
    match call(alloc, set, line) {
        Outcome::Done => true,
        Outcome::Missed => {
            is_a_miss(alloc, set, before.text(), misses)
                && matches!(call(alloc, set, line), Outcome::Done)
        }
        Outcome::Wrong => false,
    }
}

/// The numbers of a line.
fn numbers_of(alloc: Global, words: &mut Words) -> Result<Vec<u64>, OutOfMemory> {
    let mut numbers = Vec::new(alloc);
    for _ in 0..words.rest().len() {
        if words.rest().is_empty() {
            break;
        }
        numbers.push(u64::from(words.number(' ')))?;
    }
    Ok(numbers)
}

/// A new set that is told of some misses.
fn set_of(alloc: Global, misses: &mut Words) -> Result<MemoryBitfiles, OutOfMemory> {
    let misses = numbers_of(alloc, misses)?;
    MemoryBitfiles::new(alloc, misses)
}

/// Makes all calls on a set, and tells how many misses there were, and what the tags name then.
fn tell_calls(alloc: Global, set: &mut MemoryBitfiles, lines: &str, told: &mut Told) {
    for line in lines.lines() {
        if let Some(line) = line.strip_prefix("call ") {
            told.check(is_done(alloc, set, line));
        }
    }
    told.push_number(set.misses());
    told.push(" misses:");
    push_all(told, set);
}

/// Makes all calls on a new set that is told of some misses.
fn tell_misses(alloc: Global, misses: &str, lines: &str, told: &mut Told) {
    let mut words = Words::new(misses);
    match set_of(alloc, &mut words) {
        Ok(mut set) => tell_calls(alloc, &mut set, lines, told),
        Err(_) => told.check(false),
    }
    told.check(words.is_right());
}

/// Tells the lines of calls, and those that are told of misses with what comes of the calls then.
pub fn push_files(alloc: Global, told: &mut Told, lines: &str) {
    for line in lines.lines() {
        let mut answer = Told::new(alloc);
        if let Some(misses) = line.strip_prefix("told") {
            tell_misses(alloc, misses.trim_start(), lines, &mut answer);
        }
        push_answer(told, line, &answer);
    }
}
