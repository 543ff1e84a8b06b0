//! Commands on names, given to a set of files.
ghost use Rattle.std.specs.Prelude.{◌≡◌, ◌≤◌, true, IfOk, OnOk, length};
ghost use Rattle.fileset_lending.specs.directory_pages.Rows.{is_row_name};
ghost use Rattle.fileset_lending.specs.name_space.Changes.{HasOriginal, last_name};
ghost use Rattle.name_tables.specs.Faults.{IsRefusal};

use fileset_lending::{
    BitfileSet, Command, Kind, MemoryBitfiles, NameFault, OutOfMemory, Path, Refusal, Reply,
    StoreFault, create_at, is_row_name, link_at, list_rows, rename_at, rmdir_at, target, unlink_at,
};
use std::alloc::Global;
use std::test::Fail;

/// The root directory alone, with no row. The numbers are those of the changing calls that find no
/// page.
pub fn empty_set(alloc: Global, misses: Vec<u64>) -> Result<MemoryBitfiles, OutOfMemory>
    ensures { IfOk result (λ set.
        HasOriginal (⟦<MemoryBitfiles as BitfileSet>⟧.files set)) }
{
    MemoryBitfiles::new(alloc, misses)
}

/// Whether a path has a last name, and one that a row may have; the commands below answer an error
/// to any other.
pub fn is_good(path: &Path) -> bool
    ensures some { result ≡ true → 1 ≤ length path.now }
    ensures name { result ≡ true → is_row_name (last_name path.now) ≡ true }
{
    match path.as_slice() {
        [.., last] => is_row_name(last.as_slice()),
        [] => false,
    }
}

/// The reply if a call failed: a refusal, or else none.
fn refused(fault: NameFault) -> Result<Reply, StoreFault>
    ensures { OnOk result (IsRefusal fault) }
{
    match fault {
        NameFault::Refused(refusal) => Ok(Reply::Refused(refusal)),
        NameFault::NoPage => Err(StoreFault::NoPage),
        NameFault::OutOfMemory => Err(StoreFault::OutOfMemory),
    }
}

pub fn create<S: BitfileSet>(
    set: &mut S,
    alloc: Global,
    path: &Path,
    kind: Kind,
    uid: u32,
    gid: u32,
) -> Result<Reply, StoreFault>
    requires { HasOriginal (S.files set.old) }
    ensures { OnOk result (HasOriginal (S.files set.new)) }
{
    if !is_good(path) {
        return Err(StoreFault::OutOfMemory);
    }
    match create_at(set, alloc, path, kind, uid, gid) {
        Ok(_) => Ok(Reply::Done),
        Err(fault) => refused(fault),
    }
}

fn unlink<S: BitfileSet>(set: &mut S, alloc: Global, path: &Path) -> Result<Reply, StoreFault>
    requires { HasOriginal (S.files set.old) }
    ensures { OnOk result (HasOriginal (S.files set.new)) }
{
    if !is_good(path) {
        return Err(StoreFault::OutOfMemory);
    }
    match unlink_at(set, alloc, path) {
        Ok(_) => Ok(Reply::Done),
        Err(fault) => refused(fault),
    }
}

fn rmdir<S: BitfileSet>(set: &mut S, alloc: Global, path: &Path) -> Result<Reply, StoreFault>
    requires { HasOriginal (S.files set.old) }
    ensures { OnOk result (HasOriginal (S.files set.new)) }
{
    if !is_good(path) {
        return Err(StoreFault::OutOfMemory);
    }
    match rmdir_at(set, alloc, path) {
        Ok(_) => Ok(Reply::Done),
        Err(fault) => refused(fault),
    }
}

fn link<S: BitfileSet>(
    set: &mut S,
    alloc: Global,
    path: &Path,
    to: &Path,
) -> Result<Reply, StoreFault>
    requires { HasOriginal (S.files set.old) }
    ensures { OnOk result (HasOriginal (S.files set.new)) }
{
    if !is_good(path) || !is_good(to) {
        return Err(StoreFault::OutOfMemory);
    }
    match link_at(set, alloc, path, to) {
        Ok(_) => Ok(Reply::Done),
        Err(fault) => refused(fault),
    }
}

fn rename<S: BitfileSet>(
    set: &mut S,
    alloc: Global,
    path: &Path,
    to: &Path,
) -> Result<Reply, StoreFault>
    requires { HasOriginal (S.files set.old) }
    ensures { OnOk result (HasOriginal (S.files set.new)) }
{
    if !is_good(path) || !is_good(to) {
        return Err(StoreFault::OutOfMemory);
    }
    match rename_at(set, alloc, path, to) {
        Ok(_) => Ok(Reply::Done),
        Err(fault) => refused(fault),
    }
}

/// How many paths the file at a path has.
fn links<S: BitfileSet>(set: &S, path: &Path) -> Reply
    requires { HasOriginal (S.files set.now) }
{
    match target(set, path) {
        Ok((tag, Kind::File)) => Reply::Count(u64::from(set.links(tag))),
        Ok((_, Kind::Directory)) => Reply::Refused(Refusal::IsDirectory),
        Err(refusal) => Reply::Refused(refusal),
    }
}

/// What the directory at a path lists.
fn list<S: BitfileSet>(set: &S, alloc: Global, path: &Path) -> Result<Reply, StoreFault>
    requires { HasOriginal (S.files set.now) }
{
    match target(set, path) {
        Ok((dir, Kind::Directory)) => Ok(Reply::Names(list_rows(set, alloc, dir)?)),
        Ok((_, Kind::File)) => Ok(Reply::Refused(Refusal::NotDirectory)),
        Err(refusal) => Ok(Reply::Refused(refusal)),
    }
}

/// What a set answers to a command on names; to all others it answers that they are done.
pub fn answer<S: BitfileSet>(
    set: &mut S,
    alloc: Global,
    command: &Command,
) -> Result<Reply, StoreFault>
    requires { HasOriginal (S.files set.old) }
    ensures { OnOk result (HasOriginal (S.files set.new)) }
{
    match command {
        Command::Create { place, uid, gid } => {
            create(set, alloc, &place.path, Kind::File, *uid, *gid)
        }
        Command::Mkdir { place, uid, gid } => {
            create(set, alloc, &place.path, Kind::Directory, *uid, *gid)
        }
        Command::Unlink { place } => unlink(set, alloc, &place.path),
        Command::Rmdir { place } => rmdir(set, alloc, &place.path),
        Command::Rename { place, to } => rename(set, alloc, &place.path, to),
        Command::Link { place, to } => link(set, alloc, &place.path, to),
        Command::Links { place } => Ok(links(set, &place.path)),
        Command::List { place } => list(set, alloc, &place.path),
        _ => Ok(Reply::Done),
    }
}

/// Says what a fault of names says.
pub fn fault(word: &str, out: &mut String) -> Result<(), Fail> {
    let fault = match word {
        "refused" => NameFault::Refused(Refusal::NoPath),
        "no page" => NameFault::NoPage,
        "no memory" => NameFault::OutOfMemory,
        _ => return Err(Fail::from("no such fault")),
    };
    Ok(write!(out, "{fault}")?)
}
