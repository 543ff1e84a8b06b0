//! Domains that are made, changed, closed, and attached again: what they have then.
ghost use Rattle.std.specs.Prelude.{◌≡◌};
ghost use Rattle.client_commands.specs.page_ways.Frame.{frame_in};
ghost use Rattle.client_commands.specs.staged_pages.Store.{before_of};
ghost use Rattle.client_commands.specs.domain_memory.Staged.{IsSettled};

use crate::making::made;
use crate::telling::all_told;
use client_commands::limits::FILESET_SLOTS;
use client_commands::{
    Attached, Domain, FilesetNo, FilesetTable, Opening, OutOfMemory, Rack, SlotItem, Told, Version,
};
use domain_attaching::{ClosingRoom, attach, close};
use memory_disk::MemoryRack;
use std::alloc::Global;
use std::marker::Brand;

/// The rack of a domain that is closed; None if it is not.
fn rack_of<R: Rack + Drop, O: Opening>(alloc: Global, domain: Domain<R, O>) -> Option<R>
    requires rests { ⟦<Domain<R, O> as Told>⟧.rests domain }
    requires settled { IsSettled domain.memory }
{
    let Ok(room) = ClosingRoom::take(alloc, &domain.memory().frame) else {
        return None;
    };
    match close(domain, room) {
        Ok(closed) => Some(closed.rack),
        Err(_) => None,
    }
}

/// The rack of a domain that is closed after these commands.
fn closed<R: Rack + Drop, O: Opening>(
    alloc: Global,
    attached: Attached<R>,
    lines: &[&str],
) -> Option<R>
    requires pages { O.pages ≡ before_of attached.memory.pages }
    requires frame { O.frame ≡ frame_in attached.memory.frame }
    requires sizes { O.sizes ≡ (R.disk attached.rack).sizes }
{
    let mut domain: Domain<R, O> = Domain::begin(alloc, attached);
    domain.discard();
    let domain = all_told(domain, alloc, lines);
    rack_of(alloc, domain)
}

/// Puts the name of a fileset after others; a hyphen for one that is being removed.
fn push_name(item: &SlotItem, names: &mut Vec<u8>) -> Result<(), OutOfMemory> {
    let name = match item {
        SlotItem::Free => b"",
        SlotItem::Original { entry } => entry.name.as_slice(),
        SlotItem::Clone { .. } => b"+",
        SlotItem::Removed { .. } => b"-",
    };
    names.extend_from_slice(name)
}

/// The names of the filesets of a table, in the order of its slots.
fn names_of(alloc: Global, table: &FilesetTable) -> Result<Vec<u8>, OutOfMemory> {
    let mut names = Vec::new(alloc);
    for number in 0..FILESET_SLOTS {
        if let Some(number) = FilesetNo::new(number) {
            push_name(table.slot(number), &mut names)?;
        }
    }
    Ok(names)
}

/// The names of the filesets that a domain has.
fn names_kept<R: Rack + Drop, O: Opening>(
    alloc: Global,
    attached: Attached<R>,
) -> Result<Vec<u8>, OutOfMemory>
    requires pages { O.pages ≡ before_of attached.memory.pages }
    requires frame { O.frame ≡ frame_in attached.memory.frame }
    requires sizes { O.sizes ≡ (R.disk attached.rack).sizes }
{
    let domain: Domain<R, O> = Domain::begin(alloc, attached);
    let (memory, _history) = domain.apart();
    names_of(alloc, &memory.table)
}

/// A domain that is made on a rack of one volume, has these commands, is closed, and is attached
/// again.
fn again(alloc: Global, version: Version, lines: &[&str]) -> Option<Attached<MemoryRack>> {
    let attached = made(alloc, 256, version).ok()?;
    let rack = closed::<MemoryRack, Brand>(alloc, attached, lines)?;
    attach(alloc, rack).ok()
}

/// Whether a domain of this version that is attached again after these commands has the filesets of
/// these names.
fn has_names(alloc: Global, version: Version, lines: &[&str], names: &[u8]) -> bool {
    let Some(attached) = again(alloc, version, lines) else {
        return false;
    };
    match names_kept::<MemoryRack, Brand>(alloc, attached) {
        Ok(found) => found.as_slice() == names,
        Err(_) => false,
    }
}

/// Commands, and the names that a domain has after them; a hyphen for one that is being removed.
type Named = (&'static [&'static str], &'static [u8]);

static NAMED: [Named; 4] = [
    (&[], b""),
    (&["mkfset a", "mkfset b"], b"ab"),
    (&["mkfset a", "mkfset b", "rmfset a"], b"-b"),
    (&["mkfset a", "rmfset a", "mkfset a"], b"-a"),
];

/// Which rows a domain of this version has.
fn rows_kept(alloc: Global, version: Version) -> [bool; 4] {
    let mut kept = [false; 4];
    for (place, (lines, names)) in NAMED.iter().enumerate() {
        kept[place] = has_names(alloc, version, lines, names);
    }
    kept
}

#[test]
fn filesets_are_there_in_a_domain_that_is_attached_again(rt: HostRuntime) {
    let kept = [
        rows_kept(rt.alloc(), Version::Three),
        rows_kept(rt.alloc(), Version::Four),
    ];
    assert_eq!(rt; kept, [[true; 4]; 2]);
}
