//! Directories of one page and of several, filled, looked through and emptied. A block begins with
//! an empty root.
ghost use Rattle.std.specs.Prelude.{◌<◌, OnOk};
ghost use Rattle.directory_rows.specs.Directory.{IsWellFormed};

use crate::bare::Bare;
use crate::blocks::{is_idle, push_answer};
use crate::names::name_of;
use crate::row_steps::{
    ROOT, add, add_mixed, add_wide, count_long, count_wide, empty_root, first_four,
    listed_in_place, remove, remove_odd, slot_of,
};
use directory_rows::{BitfileSet, MemoryBitfiles, OutOfMemory, StoreFault, is_empty, row_count};
use std::alloc::Global;
use table_words::Looks;

/// Says how many pages a directory has, and whether it has an index.
fn push_shape<S: BitfileSet>(set: &S, out: &mut String) -> Result<(), OutOfMemory> {
    let with = if set.index_page(ROOT, 0).is_some() {
        "with an index"
    } else {
        "without an index"
    };
    write!(out, "{} {with}", set.dir_pages(ROOT))
}

/// Says what was looked at.
fn push_looks(looks: [u32; 2], out: &mut String) -> Result<(), OutOfMemory> {
    let [pages, index] = looks;
    write!(out, "{pages} of the directory, {index} of the index")
}

/// How many pages of the directory and of its index are looked at to find a name.
fn looks_for<S: BitfileSet>(set: &S, name: &[u8]) -> [u32; 2]
    requires { IsWellFormed (S.files set.now) ROOT }
{
    let looks = Looks::new(set);
    let _ = slot_of(&looks, ROOT, name);
    looks.taken()
}

/// What is looked at to count the rows of a directory, to ask whether there is one, or else to list
/// them.
fn looks_at_all<S: BitfileSet>(alloc: Global, set: &S, word: &str) -> Result<[u32; 2], OutOfMemory>
    requires { IsWellFormed (S.files set.now) ROOT }
{
    let looks = Looks::new(set);
    match word {
        "count" => {
            let _ = row_count(&looks, ROOT);
        }
        "empty" => {
            let _ = is_empty(&looks, ROOT);
        }
        _ => {
            listed_in_place(&looks, alloc, ROOT)?;
        }
    }
    Ok(looks.taken())
}

/// Says the slots of the first four rows.
fn push_listed<S: BitfileSet>(alloc: Global, set: &S, out: &mut String) -> Result<(), OutOfMemory>
    requires { IsWellFormed (S.files set.now) ROOT }
{
    let [a, b, c, d] = first_four(set, alloc, ROOT)?;
    write!(out, "{a} {b} {c} {d}")
}

/// Says the slot of the row of a name, or what is looked at to find it.
fn ask_name<S: BitfileSet>(
    alloc: Global,
    set: &S,
    word: &str,
    name: &str,
    out: &mut String,
) -> Option<()>
    requires { IsWellFormed (S.files set.now) ROOT }
{
    let name = name_of(alloc, name)?;
    match word {
        "find" => write!(out, "{}", slot_of(set, ROOT, &name)).ok(),
        _ => push_looks(looks_for(set, &name), out).ok(),
    }
}

/// A number that is asked for.
fn number<S: BitfileSet>(alloc: Global, set: &S, word: &str, rest: &str) -> Option<u32>
    requires { IsWellFormed (S.files set.now) ROOT }
{
    match word {
        "count" => Some(row_count(set, ROOT)),
        "in-place" => listed_in_place(set, alloc, ROOT).ok(),
        "wide-found" => Some(count_wide(set, ROOT, rest.parse().ok()?)),
        "even-found" => Some(count_long(set, ROOT, rest.parse().ok()?, false)),
        "odd-found" => Some(count_long(set, ROOT, rest.parse().ok()?, true)),
        _ => None,
    }
}

/// Says what the directory answers.
fn ask<S: BitfileSet>(
    alloc: Global,
    set: &S,
    word: &str,
    rest: &str,
    out: &mut String,
) -> Option<()>
    requires { IsWellFormed (S.files set.now) ROOT }
{
    match word {
        "shape" => push_shape(set, out).ok(),
        "list" => push_listed(alloc, set, out).ok(),
        "find" | "looks" => ask_name(alloc, set, word, rest, out),
        "looks-to" => push_looks(looks_at_all(alloc, set, rest).ok()?, out).ok(),
        "empty" => out
            .push_str(if is_empty(set, ROOT) { "yes" } else { "no" })
            .ok(),
        _ => write!(out, "{}", number(alloc, set, word, rest)?).ok(),
    }
}

/// Says what the directory answers as a clone shows it, which has no index.
fn ask_bare(alloc: Global, set: &MemoryBitfiles, line: &str, out: &mut String) -> Option<()>
    requires { IsWellFormed (⟦<MemoryBitfiles as BitfileSet>⟧.files set.now) ROOT }
{
    let (word, rest) = line.split_once(' ').unwrap_or((line, ""));
    let bare = Bare::new(set);
    ask(alloc, &bare, word, rest, out)
}

/// Adds a row with that slot, and says whether the name is good and new; or removes a row, and says
/// whether it was there.
fn change(
    alloc: Global,
    set: &mut MemoryBitfiles,
    added: Option<u32>,
    name: &[u8],
    out: &mut String,
) -> Result<bool, StoreFault>
    requires { IsWellFormed (⟦<MemoryBitfiles as BitfileSet>⟧.files set.old) ROOT }
    ensures { OnOk result (IsWellFormed (⟦<MemoryBitfiles as BitfileSet>⟧.files set.new) ROOT) }
{
    match added {
        Some(slot) => {
            let is_new = add(set, alloc, ROOT, slot, name)?;
            out.push_str(if is_new { "new" } else { "not new" })?;
        }
        None => {
            let was_there = remove(set, alloc, ROOT, name)?;
            out.push_str(if was_there { "there" } else { "not there" })?;
        }
    }
    Ok(true)
}

/// Adds or removes the row of the name that a line tells. It answers whether the line is one.
fn change_named(
    alloc: Global,
    set: &mut MemoryBitfiles,
    added: Option<u32>,
    name: &str,
    out: &mut String,
) -> Result<bool, StoreFault>
    requires { IsWellFormed (⟦<MemoryBitfiles as BitfileSet>⟧.files set.old) ROOT }
    ensures { OnOk result (IsWellFormed (⟦<MemoryBitfiles as BitfileSet>⟧.files set.new) ROOT) }
{
    let Some(name) = name_of(alloc, name) else {
        return Ok(false);
    };
    change(alloc, set, added, &name, out)
}

/// Adds the row that a line tells by its slot and its name. It answers whether the line is one.
fn add_line(
    alloc: Global,
    set: &mut MemoryBitfiles,
    rest: &str,
    out: &mut String,
) -> Result<bool, StoreFault>
    requires { IsWellFormed (⟦<MemoryBitfiles as BitfileSet>⟧.files set.old) ROOT }
    ensures { OnOk result (IsWellFormed (⟦<MemoryBitfiles as BitfileSet>⟧.files set.new) ROOT) }
{
    let (slot, name) = rest.split_once(' ').unwrap_or(("", rest));
    match slot.parse() {
        Ok(slot) => change_named(alloc, set, Some(slot), name, out),
        Err(_) => Ok(false),
    }
}

/// Adds a number of wide names, or of long ones in a mixed order, or removes the odd ones of a
/// number of long names and says how many there were. It answers whether the line is one.
fn change_many(
    alloc: Global,
    set: &mut MemoryBitfiles,
    word: &str,
    rest: &str,
    out: &mut String,
) -> Result<bool, StoreFault>
    requires { IsWellFormed (⟦<MemoryBitfiles as BitfileSet>⟧.files set.old) ROOT }
    ensures { OnOk result (IsWellFormed (⟦<MemoryBitfiles as BitfileSet>⟧.files set.new) ROOT) }
{
    let Ok(count) = rest.parse() else {
        return Ok(false);
    };
    match word {
        "wide" => add_wide(set, alloc, ROOT, count)?,
        "mixed" => add_mixed(set, alloc, ROOT, count)?,
        _ => {
            let removed = remove_odd(set, alloc, ROOT, count)?;
            write!(out, "{removed}")?;
        }
    }
    Ok(true)
}

/// Does what a line says. It answers whether the line is one.
fn call(
    alloc: Global,
    set: &mut MemoryBitfiles,
    line: &str,
    out: &mut String,
) -> Result<bool, StoreFault>
    requires { IsWellFormed (⟦<MemoryBitfiles as BitfileSet>⟧.files set.old) ROOT }
    ensures { OnOk result (IsWellFormed (⟦<MemoryBitfiles as BitfileSet>⟧.files set.new) ROOT) }
{
    let (word, rest) = line.split_once(' ').unwrap_or((line, ""));
    match word {
        "add" => add_line(alloc, set, rest, out),
        "remove" => change_named(alloc, set, None, rest, out),
        "wide" | "mixed" | "remove-odd" => change_many(alloc, set, word, rest, out),
        "bare" => Ok(ask_bare(alloc, set, rest, out).is_some()),
        _ => Ok(ask(alloc, set, word, rest, out).is_some()),
    }
}

/// Adds a line with what it answers.
fn push_line(
    alloc: Global,
    answers: &mut String,
    set: &mut MemoryBitfiles,
    line: &str,
) -> Result<(), StoreFault>
    requires { IsWellFormed (⟦<MemoryBitfiles as BitfileSet>⟧.files set.old) ROOT }
    ensures { OnOk result (IsWellFormed (⟦<MemoryBitfiles as BitfileSet>⟧.files set.new) ROOT) }
{
    if is_idle(line) {
        return push_answer(answers, line, true, "");
    }
    let mut out = String::new(alloc);
    let is_read = call(alloc, set, line, &mut out)?;
    push_answer(answers, line, is_read, out.as_str())
}

/// Adds the lines of a root, with what they answer.
pub fn push_rows(alloc: Global, answers: &mut String, lines: &str) -> Result<(), StoreFault> {
    let mut set = empty_root(alloc, Vec::new(alloc))?;
    for line in lines.lines() {
        push_line(alloc, answers, &mut set, line)?;
    }
    Ok(())
}

/// Says what the addition of a row to a new page answers where one changing call finds no page, how
/// many misses there were, and the shape. The rows before take 32 calls.
fn push_missed(alloc: Global, set: &mut MemoryBitfiles, out: &mut String) -> Result<(), StoreFault>
    requires { IsWellFormed (⟦<MemoryBitfiles as BitfileSet>⟧.files set.old) ROOT }
{
    add_wide(set, alloc, ROOT, 31)?;
    add(set, alloc, ROOT, 40, b"fifteen letters")?;
    let answer = match add(set, alloc, ROOT, 41, b"q") {
        Ok(_) => "done",
        Err(StoreFault::NoPage) => "no page",
        Err(StoreFault::OutOfMemory) => "out of memory",
    };
    write!(out, "{answer}, {} misses, ", set.misses())?;
    push_shape(set, out)?;
    Ok(())
}

/// Says what the addition of a row to a new page answers where this changing call finds no page.
pub fn missed_row(alloc: Global, call: u64, out: &mut String) -> Result<(), StoreFault> {
    let mut set = empty_root(alloc, vec![in alloc; call]?)?;
    push_missed(alloc, &mut set, out)
}
