//! An order of directories in which rows lead from earlier ones to later ones.
ghost use Rattle.std.specs.Prelude.{◌≡◌, IfOk, IsTrue};
ghost use Rattle.directory_faults.specs.Order.{IsOrderOf, LeadsUp, place_in};

use crate::walk::{Walk, go_on, no_walk, note_tag};
use crate::{FileThere, ROOT, RowThere, count_of, count_rows};
use fileset_shapes::{Kind, OutOfMemory, Tag};
use std::alloc::Global;
use std::collections::BTreeMap;

/// The places of directories, and whether each row of one of these that leads to a directory leads
/// to one with a later place. If each does, none of them is below itself.
#[derive(Drop)]
pub(crate) struct Order {
    pub places: BTreeMap<Tag, usize>,
    pub rises: bool,
}

/// Reaches the root and the directories to which no row leads as a directory.
fn note_tops(
    alloc: Global,
    files: &[FileThere],
    rows: &[RowThere],
    walk: &mut Walk,
) -> Result<(), OutOfMemory> {
    let counts = count_rows(alloc, rows)?;
    for file in files {
        if file.tag == ROOT || count_of(&counts, file.tag, Kind::Directory) == 0 {
            note_tag(walk, file.tag)?;
        }
    }
    Ok(())
}

/// The places of tags in a list.
fn places_of(alloc: Global, tags: &[Tag]) -> Result<BTreeMap<Tag, usize>, OutOfMemory> {
    let mut places = BTreeMap::new(alloc);
    for place in 0..tags.len() {
        places.insert(tags[place], place)?;
    }
    Ok(places)
}

/// The place of a tag.
pub(crate) fn place_of(places: &BTreeMap<Tag, usize>, tag: Tag) -> Option<usize>
    ensures { result ≡ place_in places.now tag }
{
    places.get(&tag).copied()
}

/// Whether a row of a directory with a place leads to one with a later place, if it leads to one.
fn leads_up(places: &BTreeMap<Tag, usize>, row: &RowThere) -> bool
    ensures { IsTrue result → LeadsUp places.now row.now }
{
    if matches!(row.row.kind, Kind::File) {
        return true;
    }
    let Some(place) = place_of(places, row.at.dir) else {
        return true;
    };
    match place_of(places, row.row.tag) {
        Some(later) => place < later,
        None => false,
    }
}

/// Whether all rows of directories with a place that lead to a directory lead to one with a later
/// place.
fn lead_up(places: &BTreeMap<Tag, usize>, rows: &[RowThere]) -> bool
    ensures { IsTrue result → IsOrderOf rows.now places.now }
{
    for row in rows {
        if !leads_up(places, row) {
            return false;
        }
    }
    true
}

/// An order of the directories to which rows lead, beginning with those to which no row leads. If
/// no two rows lead to one directory, it rises.
pub(crate) fn read_order(
    alloc: Global,
    files: &[FileThere],
    rows: &[RowThere],
    children: &BTreeMap<Tag, Vec<Tag>>,
) -> Result<Order, OutOfMemory>
    ensures { IfOk result (λ order. IsTrue order.rises → IsOrderOf rows.now order.places) }
{
    let mut walk = no_walk(alloc);
    note_tops(alloc, files, rows, &mut walk)?;
    go_on(children, &mut walk)?;
    let places = places_of(alloc, &walk.tags)?;
    let rises = lead_up(&places, rows);
    Ok(Order { places, rises })
}
