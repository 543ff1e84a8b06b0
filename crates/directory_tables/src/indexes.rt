//! Indexes made, looked through, and changed. The first line of a block has the entries that the
//! index is made of, or `rising` and how many.
ghost use Rattle.std.specs.Prelude.{◌<◌, IfOk, OnOk};
ghost use Rattle.directory_tables.specs.Steps.{HasIndex};

use crate::blocks::{is_idle, push_answer};
use crate::index_steps::{
    ROOT, add, add_all, count_found, indexed, page_of, remove, remove_odd, rising,
};
use crate::names::name_or_none;
use crate::text::push_digits;
use directory_rows::{BitfileSet, IndexEntry, MemoryBitfiles, StoreFault, name_hash};
use std::alloc::Global;
use table_words::Looks;

/// Says the hash of a name; a dash is the empty one.
pub fn hash(alloc: Global, text: &str, out: &mut String) -> Option<()> {
    let name = name_or_none(alloc, text)?;
    write!(out, "{}", name_hash(&name)).ok()
}

/// The entry that a word tells: its hash and its page.
fn entry_of(word: &str) -> Option<IndexEntry> {
    let (hash, page) = word.split_once(':')?;
    Some(IndexEntry {
        hash: hash.parse().ok()?,
        page: page.parse().ok()?,
    })
}

/// Hash 5 on pages 1 and 3, and hash 9 on page 0.
fn three_apart(alloc: Global) -> Result<MemoryBitfiles, StoreFault>
    ensures { IfOk result (λ set. HasIndex ROOT (⟦<MemoryBitfiles as BitfileSet>⟧.files set)) }
{
    let entries = [
        IndexEntry { hash: 5, page: 1 },
        IndexEntry { hash: 5, page: 3 },
        IndexEntry { hash: 9, page: 0 },
    ];
    indexed(alloc, Vec::new(alloc), &entries)
}

/// Hash 5 twice on page 1, and hash 9 on page 0.
fn two_equal(alloc: Global) -> Result<MemoryBitfiles, StoreFault>
    ensures { IfOk result (λ set. HasIndex ROOT (⟦<MemoryBitfiles as BitfileSet>⟧.files set)) }
{
    let entries = [
        IndexEntry { hash: 5, page: 1 },
        IndexEntry { hash: 5, page: 1 },
        IndexEntry { hash: 9, page: 0 },
    ];
    indexed(alloc, Vec::new(alloc), &entries)
}

/// An index of `count` entries of page 0, with the hashes from 0 on. The numbers are those of the
/// changing calls that find no page.
fn rising_index(alloc: Global, misses: Vec<u64>, count: u32) -> Result<MemoryBitfiles, StoreFault>
    ensures { IfOk result (λ set. HasIndex ROOT (⟦<MemoryBitfiles as BitfileSet>⟧.files set)) }
{
    let entries = rising(alloc, count)?;
    indexed(alloc, misses, entries.as_slice())
}

/// The index that the first line of a block tells; one of any other line has no entry.
fn index_of(alloc: Global, line: &str) -> Result<MemoryBitfiles, StoreFault>
    ensures { IfOk result (λ set. HasIndex ROOT (⟦<MemoryBitfiles as BitfileSet>⟧.files set)) }
{
    match line {
        "entries 5:1 5:3 9:0" => three_apart(alloc),
        "entries 5:1 5:1 9:0" => two_equal(alloc),
        _ => {
            let count = line.strip_prefix("rising ").unwrap_or("");
            rising_index(alloc, Vec::new(alloc), count.parse().unwrap_or(0))
        }
    }
}

/// How many pages of the root's index are looked at to find an entry of a hash.
fn looks_for<S: BitfileSet>(set: &S, hash: u32) -> u32
    requires { HasIndex ROOT (S.files set.now) }
{
    let looks = Looks::new(set);
    let _ = page_of(&looks, ROOT, hash, 0);
    looks.taken()[1]
}

/// Says the first bytes of the root's first index page.
fn push_bytes(set: &MemoryBitfiles, count: usize, out: &mut String) -> Option<()> {
    let page = set.index_page(ROOT, 0)?;
    let (bytes, _) = page.bytes().split_at_checked(count)?;
    push_digits(bytes, out).ok()
}

/// Says the page of a hash, from a page on.
fn push_page(set: &MemoryBitfiles, rest: &str, out: &mut String) -> Option<()>
    requires { HasIndex ROOT (⟦<MemoryBitfiles as BitfileSet>⟧.files set.now) }
{
    let (hash, from) = rest.split_once(' ')?;
    match page_of(set, ROOT, hash.parse().ok()?, from.parse().ok()?) {
        999 => out.push_str("none").ok(),
        page => write!(out, "{page}").ok(),
    }
}

/// Says what the index answers.
fn ask(set: &MemoryBitfiles, word: &str, rest: &str, out: &mut String) -> Option<()>
    requires { HasIndex ROOT (⟦<MemoryBitfiles as BitfileSet>⟧.files set.now) }
{
    match word {
        "page" => push_page(set, rest, out),
        "bytes" => push_bytes(set, rest.parse().ok()?, out),
        "pages" => write!(out, "{}", set.index_pages(ROOT)).ok(),
        "found" => write!(out, "{}", count_found(set, ROOT, rest.parse().ok()?)).ok(),
        "looks" => write!(out, "{}", looks_for(set, rest.parse().ok()?)).ok(),
        _ => None,
    }
}

/// Adds an entry, or removes one and says whether it was there. It answers whether the line is one.
fn change(
    alloc: Global,
    set: &mut MemoryBitfiles,
    is_added: bool,
    rest: &str,
    out: &mut String,
) -> Result<bool, StoreFault>
    requires { HasIndex ROOT (⟦<MemoryBitfiles as BitfileSet>⟧.files set.old) }
    ensures { OnOk result (HasIndex ROOT (⟦<MemoryBitfiles as BitfileSet>⟧.files set.new)) }
{
    let Some(entry) = entry_of(rest) else {
        return Ok(false);
    };
    if is_added {
        add(set, alloc, ROOT, entry)?;
    } else {
        let was_there = remove(set, alloc, ROOT, entry)?;
        out.push_str(if was_there { "there" } else { "not there" })?;
    }
    Ok(true)
}

/// Adds the entries of so many numbers, or removes those of the odd ones and says how many there
/// were. It answers whether the line is one.
fn change_many(
    alloc: Global,
    set: &mut MemoryBitfiles,
    is_added: bool,
    rest: &str,
    out: &mut String,
) -> Result<bool, StoreFault>
    requires { HasIndex ROOT (⟦<MemoryBitfiles as BitfileSet>⟧.files set.old) }
    ensures { OnOk result (HasIndex ROOT (⟦<MemoryBitfiles as BitfileSet>⟧.files set.new)) }
{
    let Ok(count) = rest.parse() else {
        return Ok(false);
    };
    if is_added {
        add_all(set, alloc, ROOT, count)?;
    } else {
        let removed = remove_odd(set, alloc, ROOT, count)?;
        write!(out, "{removed}")?;
    }
    Ok(true)
}

/// Does what a line says. It answers whether the line is one.
fn call(
    alloc: Global,
    set: &mut MemoryBitfiles,
    line: &str,
    out: &mut String,
) -> Result<bool, StoreFault>
    requires { HasIndex ROOT (⟦<MemoryBitfiles as BitfileSet>⟧.files set.old) }
    ensures { OnOk result (HasIndex ROOT (⟦<MemoryBitfiles as BitfileSet>⟧.files set.new)) }
{
    let (word, rest) = line.split_once(' ').unwrap_or((line, ""));
    match word {
        "add" | "remove" => change(alloc, set, word == "add", rest, out),
        "add-all" | "remove-odd" => change_many(alloc, set, word == "add-all", rest, out),
        _ => Ok(ask(set, word, rest, out).is_some()),
    }
}

/// Adds a line with what it answers.
fn push_line(
    alloc: Global,
    answers: &mut String,
    set: &mut MemoryBitfiles,
    line: &str,
) -> Result<(), StoreFault>
    requires { HasIndex ROOT (⟦<MemoryBitfiles as BitfileSet>⟧.files set.old) }
    ensures { OnOk result (HasIndex ROOT (⟦<MemoryBitfiles as BitfileSet>⟧.files set.new)) }
{
    if is_idle(line) {
        return push_answer(answers, line, true, "");
    }
    let mut out = String::new(alloc);
    let is_read = call(alloc, set, line, &mut out)?;
    push_answer(answers, line, is_read, out.as_str())
}

/// Adds the lines of an index, with what they answer.
pub fn push_index(alloc: Global, answers: &mut String, lines: &str) -> Result<(), StoreFault> {
    let (first, lines) = lines.split_once('\n').unwrap_or((lines, ""));
    push_answer(answers, first, true, "")?;
    let mut set = index_of(alloc, first)?;
    for line in lines.lines() {
        push_line(alloc, answers, &mut set, line)?;
    }
    Ok(())
}

/// Says what the addition of an entry to a full page answers where one changing call finds no page,
/// how many misses there were, and how many pages the index has.
pub fn missed_entry(alloc: Global, call: u64, out: &mut String) -> Result<(), StoreFault> {
    let mut set = rising_index(alloc, vec![in alloc; call]?, 1_022)?;
    let answer = match add(&mut set, alloc, ROOT, IndexEntry { hash: 500, page: 1 }) {
        Ok(()) => "done",
        Err(StoreFault::NoPage) => "no page",
        Err(StoreFault::OutOfMemory) => "out of memory",
    };
    let pages = set.index_pages(ROOT);
    write!(out, "{answer}, {} misses, {pages} pages", set.misses())?;
    Ok(())
}
