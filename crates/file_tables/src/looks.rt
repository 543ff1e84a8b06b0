//! The cells of a chain as text: a line a cell.

use file_world::world::World;
use release_steps::{CellAt, CellKind, OutOfMemory, Record, UsedCell, read_used};
use std::alloc::Global;
use std::test::Fail;

/// Says a record: u or g, the id, files and blocks.
fn say_record(value: &Record, out: &mut String) -> Result<(), OutOfMemory> {
    match *value {
        Record::UserQuota { id, files, blocks } => write!(out, " u{id}:{files}:{blocks}"),
        Record::GroupQuota { id, files, blocks } => write!(out, " g{id}:{files}:{blocks}"),
        _ => out.push_str(" another"),
    }
}

/// Whether a head is that of a quota cell of fileset 1.
fn is_of_quotas(used: &UsedCell) -> bool {
    let head = &used.head;
    let number = head.fileset.map_or(0, |fileset| fileset.number());
    head.kind == CellKind::Quota && (number, head.slot, head.seq) == (1, 0, 0)
}

/// Says a cell, and where the next one is.
fn say_cell(used: &UsedCell, out: &mut String) -> Result<Option<CellAt>, OutOfMemory> {
    out.push_str(if is_of_quotas(used) {
        "\n- quota:"
    } else {
        "\n- no quota:"
    })?;
    for value in used.records.as_slice() {
        say_record(value, out)?;
    }
    Ok(used.head.next)
}

/// Says the cell that stands there.
fn say_cell_at(
    alloc: Global,
    world: &World,
    at: CellAt,
    out: &mut String,
) -> Result<Option<CellAt>, Fail> {
    let used = read_used(alloc, &world.pages, at)?.ok_or("a cell in use")?;
    Ok(say_cell(&used, out)?)
}

/// Says the cells of the chain that begins there, a line a cell.
pub fn say_cells(
    alloc: Global,
    world: &World,
    first: &Option<CellAt>,
    out: &mut String,
) -> Result<(), Fail> {
    let mut next = *first;
    for _ in 0..20 {
        let Some(at) = next else {
            return Ok(());
        };
        next = say_cell_at(alloc, world, at, out)?;
    }
    Err(Fail::from("the end of the chain"))
}
