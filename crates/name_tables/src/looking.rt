//! How many pages are looked at along a path.
ghost use Rattle.std.specs.Prelude.{◌≤◌, length};
ghost use Rattle.fileset_lending.specs.name_space.Changes.{HasOriginal};
ghost use Rattle.fileset_lending.specs.name_space.Names.{HasNames};

use crate::reading::{number_of, path};
use crate::runs::said_all;
use crate::steps::{empty_set, is_good};
use fileset_lending::{BitfileSet, MemoryBitfiles, OutOfMemory, Path, target, walk};
use std::alloc::Global;
use std::test::Fail;
use table_words::Looks;

/// How many pages of directories and of indexes are looked at for the directory of a path's last
/// name, and for what stands at the path.
fn looks_along<S: BitfileSet>(set: &S, path: &Path) -> [[u32; 2]; 2]
    requires names { HasNames (S.files set.now) }
    requires some { 1 ≤ length path.now }
{
    let looks = Looks::new(set);
    let _ = walk(&looks, path);
    let walked = looks.taken();
    let _ = target(&looks, path);
    [walked, looks.taken()]
}

/// Says what was looked at.
fn push_looks(looks: [[u32; 2]; 2], out: &mut String) -> Result<(), OutOfMemory> {
    let [[pages, index], [asked_pages, asked_index]] = looks;
    write!(
        out,
        "walked {pages} of directories and {index} of indexes, "
    )?;
    write!(
        out,
        "asked {asked_pages} of directories and {asked_index} of indexes"
    )
}

/// Adds lines that make `count` directories, each in the one before.
fn push_nesting(count: u32, path: &mut String, lines: &mut String) -> Result<(), OutOfMemory> {
    for _ in 0..count {
        path.push_str("/d")?;
        lines.push_str("mkdir ")?;
        lines.push_str(path.as_str())?;
        lines.push('\n')?;
    }
    Ok(())
}

/// Says what is looked at along the path of the last directory that lines make, in a set that they
/// are done in first.
fn push_looks_in(
    set: &mut MemoryBitfiles,
    alloc: Global,
    lines: &str,
    said: &mut String,
    out: &mut String,
) -> Result<(), Fail>
    requires { HasOriginal (⟦<MemoryBitfiles as BitfileSet>⟧.files set.old) }
{
    said_all(set, alloc, lines, said)?;
    let line = lines.lines().last().ok_or("a path")?;
    let last = path(alloc, line.trim_start_matches("mkdir "))?;
    if !is_good(&last) {
        return Err(Fail::from("no good path"));
    }
    Ok(push_looks(looks_along(set, &last), out)?)
}

/// Says what is looked at along the path of the last directory that lines make.
fn push_looked(alloc: Global, lines: &str, out: &mut String) -> Result<(), Fail> {
    let mut set = empty_set(alloc, Vec::new(alloc))?;
    push_looks_in(&mut set, alloc, lines, &mut String::new(alloc), out)
}

/// Says what is looked at along the path of the last of a number of directories, each in the
/// one before.
pub fn looked_along(alloc: Global, line: &str, out: &mut String) -> Result<(), Fail> {
    let count = number_of(line).ok_or("a number")?;
    let mut lines = String::new(alloc);
    push_nesting(count, &mut String::new(alloc), &mut lines)?;
    push_looked(alloc, lines.as_str(), out)
}
