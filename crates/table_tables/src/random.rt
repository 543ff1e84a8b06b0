//! Random slots put into a table. Twenty stand in a row, a plus for each that was put; then the
//! first free slot, the states of all, and the names that are found.
ghost use Rattle.std.specs.Prelude.{◌<◌};

use fileset_table::limits::FILESET_SLOTS;
use fileset_table::{
    FilesetEntry, FilesetName, FilesetNo, FilesetTable, Home, OutOfMemory, SlotItem, VolIx,
};
use std::alloc::Global;

/// Numbers that are always the same ones.
#[derive(Clone, Copy)]
pub(crate) struct Random {
    pub(crate) state: u64,
}

impl Random {
    /// The next number, below 32,768.
    pub(crate) fn next(&mut self) -> u32
        ensures { result < 32_768 }
    {
        let next = (self.state % 2_147_483_648 * 1_103_515_245 + 12_345) % 2_147_483_648;
        self.state = next;
        (next / 65_536) as u32
    }
}

/// What is said of a fileset with a name of one letter.
fn entry_of(alloc: Global, letter: u8, first_tag: Home) -> Option<FilesetEntry> {
    Some(FilesetEntry {
        name: FilesetName::from_vec(Vec::from_slice(alloc, &[letter]).ok()?),
        first_tag,
        files_limit: 0,
        blocks_limit: 0,
        quota: None,
    })
}

/// What a table has where a slot is drawn: one of eight numbers for its state, the one letter of
/// its name, and the original that it names.
fn item_of(alloc: Global, state: u32, letter: u8, original: FilesetNo) -> Option<SlotItem> {
    let first_tag = Home {
        vol: VolIx::new(1)?,
        page: 200,
    };
    match state {
        0 => Some(SlotItem::Free),
        1 => Some(SlotItem::Removed {
            first_tag: Some(first_tag),
            quota: None,
        }),
        2 | 3 | 4 => Some(SlotItem::Clone {
            original,
            number: 1,
            entry: entry_of(alloc, letter, first_tag)?,
        }),
        _ => Some(SlotItem::Original {
            entry: entry_of(alloc, letter, first_tag)?,
        }),
    }
}

/// Puts a random slot of any state, one of twenty names and any original, and tells whether that
/// was done.
fn step(alloc: Global, random: &mut Random, table: &mut FilesetTable) -> Option<bool> {
    let number = FilesetNo::new(random.next() % 24)?;
    let state = random.next() % 8;
    let letter = b'a' + (random.next() % 20) as u8;
    let original = FilesetNo::new(random.next() % FILESET_SLOTS)?;
    let item = item_of(alloc, state, letter, original)?;
    Some(table.try_set_slot(number, item).is_ok())
}

/// The letter for a slot's state.
fn state_of(item: &SlotItem) -> char {
    match item {
        SlotItem::Free => '.',
        SlotItem::Original { .. } => 'o',
        SlotItem::Clone { .. } => 'c',
        SlotItem::Removed { .. } => 'r',
    }
}

/// Adds the states of all slots.
fn push_states(table: &FilesetTable, out: &mut String) -> Result<(), OutOfMemory> {
    for number in 0..FILESET_SLOTS {
        if let Some(number) = FilesetNo::new(number) {
            out.push(state_of(table.slot(number)))?;
        }
    }
    Ok(())
}

/// Adds the names that are found, each with its slot.
fn push_found(table: &FilesetTable, out: &mut String) -> Result<(), OutOfMemory> {
    for letter in b'a'..b'a' + 21 {
        if let Some(number) = table.find(&[letter]) {
            write!(out, " {}{}", char::from(letter), number.number())?;
        }
    }
    Ok(())
}

/// Adds the first free slot, the states of all, and the names that are found.
fn push_table(table: &FilesetTable, out: &mut String) -> Result<(), OutOfMemory> {
    match table.free_slot() {
        Some(number) => write!(out, " {} ", number.number())?,
        None => out.push_str(" none ")?,
    }
    push_states(table, out)?;
    push_found(table, out)?;
    out.push('\n')
}

/// Two numbers with a blank between them.
pub fn two_numbers(line: &str) -> Option<(u64, u32)> {
    let (seed, count) = line.split_once(' ')?;
    Some((seed.parse().ok()?, count.parse().ok()?))
}

/// Puts `count` random slots, and says what they leave.
fn push_steps(
    alloc: Global,
    random: &mut Random,
    table: &mut FilesetTable,
    count: u32,
    out: &mut String,
) -> Option<()> {
    for number in 0..count {
        let is_put = step(alloc, random, table)?;
        out.push(if is_put { '+' } else { '-' }).ok()?;
        if number % 20 == 19 {
            push_table(table, out).ok()?;
        }
    }
    Some(())
}

/// Says what random slots leave that are put into a new table: a line has the seed and how many.
pub fn random_tables(alloc: Global, line: &str, out: &mut String) -> Option<()> {
    let (seed, count) = two_numbers(line)?;
    let mut random = Random { state: seed };
    let mut table = FilesetTable::new(alloc).ok()?;
    push_steps(alloc, &mut random, &mut table, count, out)
}
