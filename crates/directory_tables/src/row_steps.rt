//! Steps on the rows of a directory, each with what the next one asks for.
ghost use Rattle.std.specs.Prelude.{◌<◌, IfOk, OnOk};
ghost use Rattle.directory_rows.specs.Directory.{IsWellFormed};

use directory_rows::{
    BitfileSet, Kind, MemoryBitfiles, OutOfMemory, StoreFault, Tag, add_row, find_row, is_row_name,
    list_rows, remove_row,
};
use std::alloc::Global;

/// The tag of the root directory.
pub(crate) const ROOT: Tag = Tag { slot: 1, seq: 1 };

/// The root directory alone, with no row. The numbers are those of the changing calls that find no
/// page.
pub(crate) fn empty_root(alloc: Global, misses: Vec<u64>) -> Result<MemoryBitfiles, OutOfMemory>
    ensures { IfOk result (λ set. IsWellFormed (⟦<MemoryBitfiles as BitfileSet>⟧.files set)
        ROOT) }
{
    MemoryBitfiles::new(alloc, misses)
}

/// Adds the row of a file with that number as its slot, and tells whether the name is good and new.
pub(crate) fn add<S: BitfileSet>(
    set: &mut S,
    alloc: Global,
    dir: Tag,
    number: u32,
    name: &[u8],
) -> Result<bool, StoreFault>
    requires { IsWellFormed (S.files set.old) dir }
    ensures { OnOk result (IsWellFormed (S.files set.new) dir) }
{
    if !is_row_name(name) || find_row(set, dir, name).is_some() {
        return Ok(false);
    }
    let tag = Tag {
        slot: number,
        seq: 1,
    };
    add_row(set, alloc, dir, tag, Kind::File, name)?;
    Ok(true)
}

/// Removes the row of a name, and tells whether there was one.
pub(crate) fn remove<S: BitfileSet>(
    set: &mut S,
    alloc: Global,
    dir: Tag,
    name: &[u8],
) -> Result<bool, StoreFault>
    requires { IsWellFormed (S.files set.old) dir }
    ensures { OnOk result (IsWellFormed (S.files set.new) dir) }
{
    if find_row(set, dir, name).is_none() {
        return Ok(false);
    }
    remove_row(set, alloc, dir, name)?;
    Ok(true)
}

/// The slot of the row of a name, or 0 if there is none.
pub(crate) fn slot_of<S: BitfileSet>(set: &S, dir: Tag, name: &[u8]) -> u32
    requires { IsWellFormed (S.files set.now) dir }
{
    match find_row(set, dir, name) {
        Some((tag, _kind)) => tag.slot,
        None => 0,
    }
}

/// The digit of a number that counts the `ones`: 1 for ones, 10 for tens, and so on.
fn digit(number: u32, ones: u32) -> u8
    requires { 0 < ones }
{
    b'0' + (number / ones % 10) as u8
}

/// A name of 60 bytes for a number below 1,000; names are in the order of their numbers.
pub(crate) fn long_name(number: u32) -> [u8; 60] {
    let mut name = [b'n'; 60];
    name[57] = digit(number, 100);
    name[58] = digit(number, 10);
    name[59] = digit(number, 1);
    name
}

/// A name of 255 bytes for a number below 1,000.
pub(crate) fn wide_name(number: u32) -> [u8; 255] {
    let mut name = [b'w'; 255];
    name[0] = digit(number, 100);
    name[1] = digit(number, 10);
    name[2] = digit(number, 1);
    name
}

/// Adds the wide names of the first `count` numbers, each with its number and 1 as slot.
pub(crate) fn add_wide<S: BitfileSet>(
    set: &mut S,
    alloc: Global,
    dir: Tag,
    count: u32,
) -> Result<(), StoreFault>
    requires { IsWellFormed (S.files set.old) dir }
    ensures { OnOk result (IsWellFormed (S.files set.new) dir) }
{
    for number in 0..count {
        add(set, alloc, dir, number + 1, &wide_name(number))?;
    }
    Ok(())
}

/// Adds the long names of the first `count` numbers in a mixed order, each with its number and 1 as
/// slot.
pub(crate) fn add_mixed<S: BitfileSet>(
    set: &mut S,
    alloc: Global,
    dir: Tag,
    count: u32,
) -> Result<(), StoreFault>
    requires { IsWellFormed (S.files set.old) dir }
    ensures { OnOk result (IsWellFormed (S.files set.new) dir) }
{
    for step in 0..count {
        let number = (u64::from(step) * 77 % u64::from(count)) as u32;
        add(set, alloc, dir, number + 1, &long_name(number))?;
    }
    Ok(())
}

/// Removes the long names of the odd ones of the first `count` numbers, and tells how many there
/// were.
pub(crate) fn remove_odd<S: BitfileSet>(
    set: &mut S,
    alloc: Global,
    dir: Tag,
    count: u32,
) -> Result<u32, StoreFault>
    requires { IsWellFormed (S.files set.old) dir }
    ensures { OnOk result (IsWellFormed (S.files set.new) dir) }
{
    let mut removed: u32 = 0;
    for number in 0..count {
        if number % 2 == 1 && remove(set, alloc, dir, &long_name(number))? {
            removed = removed.saturating_add(1);
        }
    }
    Ok(removed)
}

/// How many of the long names of the first `count` numbers, even or odd ones, have rows with their
/// slots.
pub(crate) fn count_long<S: BitfileSet>(set: &S, dir: Tag, count: u32, odd: bool) -> u32
    requires { IsWellFormed (S.files set.now) dir }
{
    let mut found: u32 = 0;
    for number in 0..count {
        if (number % 2 == 1) == odd && slot_of(set, dir, &long_name(number)) == number + 1 {
            found = found.saturating_add(1);
        }
    }
    found
}

/// How many of the wide names of the first `count` numbers have rows with their slots.
pub(crate) fn count_wide<S: BitfileSet>(set: &S, dir: Tag, count: u32) -> u32
    requires { IsWellFormed (S.files set.now) dir }
{
    let mut found: u32 = 0;
    for number in 0..count {
        if slot_of(set, dir, &wide_name(number)) == number + 1 {
            found = found.saturating_add(1);
        }
    }
    found
}

/// How many rows of the list of a directory have the number of their place as their slot.
pub(crate) fn listed_in_place<S: BitfileSet>(
    set: &S,
    alloc: Global,
    dir: Tag,
) -> Result<u32, OutOfMemory>
    requires { IsWellFormed (S.files set.now) dir }
{
    let list = list_rows(set, alloc, dir)?;
    let mut place: u32 = 0;
    let mut count: u32 = 0;
    for row in list.as_slice() {
        place = place.saturating_add(1);
        if row.tag.slot == place {
            count = count.saturating_add(1);
        }
    }
    Ok(count)
}

/// The slots of the first four rows of the list of a directory, zeros if it has fewer.
pub(crate) fn first_four<S: BitfileSet>(
    set: &S,
    alloc: Global,
    dir: Tag,
) -> Result<[u32; 4], OutOfMemory>
    requires { IsWellFormed (S.files set.now) dir }
{
    let list = list_rows(set, alloc, dir)?;
    match list.as_slice() {
        [a, b, c, d, ..] => Ok([a.tag.slot, b.tag.slot, c.tag.slot, d.tag.slot]),
        _ => Ok([0; 4]),
    }
}
