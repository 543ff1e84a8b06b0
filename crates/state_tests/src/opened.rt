//! Domains that are made, whose history is begun, and in which commands are answered: what they
//! tell of themselves.
ghost use Rattle.std.specs.Prelude.{◌≡◌};
ghost use Rattle.client_commands.specs.page_ways.Frame.{frame_in};
ghost use Rattle.client_commands.specs.staged_pages.Store.{before_of};
ghost use Rattle.client_commands.specs.domain_memory.Staged.{IsSettled};

use crate::answering::answered;
use crate::making::made;
use crate::telling::{all_told, command_in};
use client_commands::from_fileset_values::Command;
use client_commands::limits::PAGE_BYTES;
use client_commands::{
    Attached, Bytes, Domain, Entry, FilesetTable, Home, MakeFault, Opening, Page, Rack, Refusal,
    Reply, Told, Version, VolIx, recover,
};
use memory_disk::MemoryRack;
use std::alloc::Global;
use std::marker::Brand;
use std::test::Fail;

/// What a domain tells of itself, asked by calls that change nothing: whether its history has room
/// for some entries more, whether a job runs, whether a volume has panicked, and whether page 159
/// of its volume is kept in memory; and whether its table names the fileset home, None if no page
/// of a table is kept.
type Looks = ([bool; 4], Option<bool>);

/// Whether the page of a table names the fileset home.
fn names_home(alloc: Global, page: Option<&Page>) -> Option<bool> {
    let table = FilesetTable::read(alloc, page?).ok()?;
    Some(table.find(b"home").is_some())
}

/// What a domain tells of itself, and of room for `room` entries.
fn looks_of<R: Rack, O: Opening>(alloc: Global, domain: &Domain<R, O>, room: usize) -> Looks {
    let vol = VolIx::new(1).unwrap();
    let has_home = names_home(alloc, domain.read_page(Home { vol, page: 132 }));
    let others = [
        domain.spare() >= room,
        domain.job_runs(),
        domain.panicked().is_some(),
        domain.read_page(Home { vol, page: 159 }).is_some(),
    ];
    (others, has_home)
}

/// The count that a reply has.
fn count_of(entry: &Entry) -> Result<u64, &'static str> {
    match &entry.reply {
        Reply::Count(count) => Ok(*count),
        Reply::Refused(Refusal::OutOfMemory) => Err("out of memory"),
        _ => Err("no count"),
    }
}

/// The history of a domain: how many entries there are, how many are committed, and how many are
/// durable; and the stamp of the last one, and the count that it was answered.
#[derive(Clone, Copy)]
struct History {
    entries: [u64; 3],
    stamp: u64,
    count: Result<u64, &'static str>,
}

fn history_of<R: Rack, O: Opening>(domain: &Domain<R, O>) -> History {
    let entries = domain.entries();
    let (stamp, count) = match entries.last() {
        Some(entry) => (entry.stamp, count_of(entry)),
        None => (0, Err("no entry")),
    };
    History {
        entries: [entries.len() as u64, domain.committed(), domain.durable()],
        stamp,
        count,
    }
}

/// The write of `pages` pages to the start of the file a of the fileset home.
fn write_of(alloc: Global, pages: usize) -> Option<Command> {
    let bytes = vec![in alloc; b'w'; pages.saturating_mul(PAGE_BYTES)].ok()?;
    match command_in(alloc, "write home:/a 0 00")? {
        Command::Write { place, offset, .. } => Some(Command::Write {
            place,
            offset,
            bytes: Bytes::from_vec(bytes),
        }),
        _ => None,
    }
}

/// Answers that write, if it has pages; if memory is short nothing is answered.
fn told_write<R: Rack + Drop, O: Opening>(
    domain: Domain<R, O>,
    alloc: Global,
    pages: usize,
) -> Domain<R, O>
    requires rests { ⟦<Domain<R, O> as Told>⟧.rests domain }
    requires settled { IsSettled domain.memory }
{
    if pages == 0 {
        return domain;
    }
    match write_of(alloc, pages) {
        Some(command) => answered(domain, alloc, command),
        None => domain,
    }
}

/// What is seen of a domain before and after commands, and its rack then.
#[derive(Drop)]
struct Seen<R: Rack> {
    looks: [Looks; 2],
    history: History,
    rack: R,
}

/// Answers the commands of lines, and a write of `pages` pages.
fn seen_of<R: Rack + Drop, O: Opening>(
    domain: Domain<R, O>,
    alloc: Global,
    lines: &[&str],
    pages: usize,
) -> Seen<R>
    requires rests { ⟦<Domain<R, O> as Told>⟧.rests domain }
    requires settled { IsSettled domain.memory }
{
    let before = looks_of(alloc, &domain, 3);
    let domain = all_told(domain, alloc, lines);
    let domain = told_write(domain, alloc, pages);
    Seen {
        looks: [before, looks_of(alloc, &domain, 2)],
        history: history_of(&domain),
        rack: domain.into_rack(),
    }
}

/// Begins the history of a domain with room for three entries, discards a change of nothing, and
/// answers the commands of lines, and a write of `pages` pages.
fn opened<R: Rack + Drop, O: Opening>(
    alloc: Global,
    attached: Attached<R>,
    lines: &[&str],
    pages: usize,
) -> Seen<R>
    requires pages { O.pages ≡ before_of attached.memory.pages }
    requires frame { O.frame ≡ frame_in attached.memory.frame }
    requires sizes { O.sizes ≡ (R.disk attached.rack).sizes }
{
    let mut domain: Domain<R, O> = Domain::begin(alloc, attached);
    let _ = domain.reserve_history(3);
    domain.discard();
    seen_of(domain, alloc, lines, pages)
}

/// What is seen of a domain that is made on a volume of a size and a version, with these commands
/// and that write.
fn made_and_opened(
    alloc: Global,
    volume: (u32, Version),
    lines: &[&str],
    pages: usize,
) -> Result<Seen<MemoryRack>, MakeFault> {
    let attached = made(alloc, volume.0, volume.1)?;
    Ok(opened::<MemoryRack, Brand>(alloc, attached, lines, pages))
}

/// The page of the table of the domain that recovery finds on a rack.
fn found_table(alloc: Global, rack: &mut MemoryRack) -> Option<u32> {
    let redone = recover(alloc, rack).ok()?;
    Some(redone.anchor.table?.page)
}

/// The numbers of entries of a domain that answered a sync; whether the stamp of the last one is
/// how many calls the rack has had, at least one; and the page of the table of the domain that
/// recovery finds on its rack.
fn synced(
    alloc: Global,
    pages: u32,
    version: Version,
) -> Result<([u64; 3], bool, Option<u32>), MakeFault> {
    let mut seen = made_and_opened(alloc, (pages, version), &["sync"], 0)?;
    let calls = seen.rack.calls();
    let is_stamped = calls > 0 && seen.history.stamp == calls;
    let table = found_table(alloc, &mut seen.rack);
    Ok((seen.history.entries, is_stamped, table))
}

#[test]
fn a_domain_that_is_made_answers_a_sync(rt: HostRuntime) {
    let first = synced(rt.alloc(), 160, Version::Three);
    assert_eq!(rt; first, Ok(([1, 1, 0], true, Some(132))));
    let second = synced(rt.alloc(), 512, Version::Four);
    assert_eq!(rt; second, Ok(([1, 1, 0], true, Some(132))));
}

#[test]
fn a_small_volume_is_refused(rt: HostRuntime) {
    let seen = synced(rt.alloc(), 159, Version::Four);
    assert_eq!(rt; seen, Err(MakeFault::VolumeSmall { pages: 159 }));
}

/// What a domain that is made on a volume of 160 pages tells of itself before and after a fileset
/// is made in it.
fn looks(alloc: Global) -> Result<[Looks; 2], MakeFault> {
    let seen = made_and_opened(alloc, (160, Version::Four), &["mkfset home"], 0)?;
    Ok(seen.looks)
}

#[test]
fn a_domain_tells_of_its_room_and_of_pages_that_are_kept(rt: HostRuntime) {
    let told = |has_home| ([true, false, false, false], Some(has_home));
    assert_eq!(rt; looks(rt.alloc()), Ok([told(false), told(true)]));
}

/// What the write of `pages` pages to a new file is answered in a new domain with 379 free pages.
fn written(alloc: Global, pages: usize) -> Result<Result<u64, &'static str>, MakeFault> {
    let lines = ["mkfset home", "create home:/a 10 20"];
    let seen = made_and_opened(alloc, (512, Version::Four), &lines, pages)?;
    Ok(seen.history.count)
}

/// At most 24 more pages are held after a command. A script cannot name the bytes of so many.
#[test]
fn a_write_takes_24_pages_at_most(rt: HostRuntime) -> Result<(), Fail> {
    let answers = [
        written(rt.alloc(), 11)?,
        written(rt.alloc(), 24)?,
        written(rt.alloc(), 25)?,
    ];
    assert_eq!(rt; answers, [Ok(90_112), Ok(196_608), Err("out of memory")]);
    Ok(())
}
