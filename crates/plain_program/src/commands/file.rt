//! The commands on files, and on what a path leads to.
ghost use Rattle.std.specs.Prelude.{◌^◌, ◌≡◌, ◌≤◌, IfOk, OnErr};
ghost use Rattle.std.specs.Option.{option_map_or};
ghost use Rattle.legal_histories.specs.fileset_model.Apply.{links_of, read_of, stat_of};
ghost use Rattle.legal_histories.specs.fileset_model.Paths.{node_at};
ghost use Rattle.legal_histories.specs.fileset_values.declared.command.Command.TheVariants.{Chfile, Create, Fsync, Links, Read, Stat, Truncate, Write};
ghost use Rattle.legal_histories.specs.fileset_values.declared.reply.Reply.TheVariants.{Done as DoneReply};
ghost use Rattle.plain_program.specs.Stops.{AnswersOrStops};

use crate::refusals::{
    check_create, check_file, check_read, check_stat, check_target, check_truncate, check_writable,
    check_write, slot_of,
};
use crate::stop::Stop;
use legal_histories::{
    Bytes, FilesetTree, Filesets, Node, OutOfMemory, PageMap, Path, Place, Reply,
};
use std::alloc::Global;

pub(crate) fn create(
    alloc: Global,
    filesets: &mut Filesets,
    place: &Place,
    uid: u32,
    gid: u32,
) -> Result<Reply, Stop>
    ensures { AnswersOrStops filesets.old (Create place.now uid gid) result filesets.new }
{
    let slot = slot_of(filesets, &place.fileset)?;
    check_create(alloc, slot, &place.path, uid, gid)?;
    let number = filesets.unused_number()?;
    let node = Node::File {
        uid,
        gid,
        size: 0,
        logged: false,
        pages: PageMap::new(alloc),
    };
    filesets.add(alloc, place, number, node)?;
    Ok(Reply::Done)
}

pub(crate) fn write(
    alloc: Global,
    filesets: &mut Filesets,
    place: &Place,
    offset: u64,
    bytes: &Bytes,
) -> Result<Reply, Stop>
    ensures { AnswersOrStops filesets.old (Write place.now offset bytes.now) result filesets.new }
{
    let slot = slot_of(filesets, &place.fileset)?;
    let bytes = bytes.as_slice();
    check_write(alloc, slot, &place.path, offset, bytes)?;
    filesets.write(alloc, place, offset, bytes)?;
    Ok(Reply::Count(bytes.len() as u64))
}

pub(crate) fn read(
    alloc: Global,
    filesets: &Filesets,
    place: &Place,
    offset: u64,
    count: u32,
) -> Result<Reply, Stop>
    ensures { AnswersOrStops filesets.now (Read place.now offset count) result filesets.now }
{
    let slot = slot_of(filesets, &place.fileset)?;
    check_read(alloc, slot, &place.path)?;
    let reply = read_file(alloc, &slot.tree, &place.path, offset, count)?;
    Ok(reply)
}

/// The bytes of the file at a path from the offset on, at most `count` of them.
pub(crate) fn read_file(
    alloc: Global,
    tree: &FilesetTree,
    path: &Path,
    offset: u64,
    count: u32,
) -> Result<Reply, OutOfMemory>
    ensures { IfOk result (λ reply. reply ≡ option_map_or (read_of offset count)
        (node_at tree.now path.now) DoneReply) }
{
    match tree.node_at(path) {
        Some(Node::File { size, pages, .. }) => {
            let left = size.saturating_sub(offset);
            let bytes = pages.read(alloc, offset, u64::from(count).min(left))?;
            Ok(Reply::Read(Bytes::from_vec(bytes)))
        }
        _ => Ok(Reply::Done),
    }
}

/// Sets the size of a file. Bytes after the new size are lost: if the file grows again, they read
/// as zeros.
pub(crate) fn truncate(
    alloc: Global,
    filesets: &mut Filesets,
    place: &Place,
    size: u64,
) -> Result<Reply, Stop>
    ensures { AnswersOrStops filesets.old (Truncate place.now size) result filesets.new }
{
    let slot = slot_of(filesets, &place.fileset)?;
    check_truncate(alloc, slot, &place.path, size)?;
    filesets.truncate(alloc, place, size)?;
    Ok(Reply::Done)
}

/// Sets whether the data of a file is logged.
pub(crate) fn chfile(
    alloc: Global,
    filesets: &mut Filesets,
    place: &Place,
    logged: bool,
) -> Result<Reply, Stop>
    ensures { AnswersOrStops filesets.old (Chfile place.now logged) result filesets.new }
{
    let slot = slot_of(filesets, &place.fileset)?;
    check_file(alloc, slot, &place.path)?;
    filesets.set_logged(place, logged);
    Ok(Reply::Done)
}

/// Shows the attributes of a file or directory.
pub(crate) fn stat(alloc: Global, filesets: &Filesets, place: &Place) -> Result<Reply, Stop>
    ensures { AnswersOrStops filesets.now (Stat place.now) result filesets.now }
{
    let slot = slot_of(filesets, &place.fileset)?;
    check_stat(alloc, slot, &place.path)?;
    let reply = attributes(alloc, &slot.tree, &place.path)?;
    Ok(reply)
}

/// The attributes of what stands at a path. A count that does not fit is answered as out of memory.
pub(crate) fn attributes(
    alloc: Global,
    tree: &FilesetTree,
    path: &Path,
) -> Result<Reply, OutOfMemory>
    ensures { IfOk result (λ reply. reply ≡ option_map_or (stat_of tree.now path.now)
        (node_at tree.now path.now) DoneReply) }
{
    match tree.node_at(path) {
        Some(
            Node::File {
                uid,
                gid,
                size,
                logged,
                pages,
            },
        ) => {
            let pages = small_count(pages.len())?;
            Ok(Reply::FileStat {
                uid: *uid,
                gid: *gid,
                size: *size,
                pages,
                logged: *logged,
            })
        }
        Some(Node::Directory { uid, gid }) => {
            let rows = tree.rows(alloc, path)?;
            let rows = small_count(rows.len())?;
            Ok(Reply::DirStat {
                uid: *uid,
                gid: *gid,
                rows,
            })
        }
        None => Ok(Reply::Done),
    }
}

/// A count in 32 bits; one that does not fit is answered as out of memory.
pub(crate) fn small_count(count: usize) -> Result<u32, OutOfMemory>
    ensures ok { IfOk result (λ small. small ≡ count) }
    ensures err { OnErr result (2 ^ 32 ≤ count) }
{
    match u32::try_from(count) {
        Ok(small) => Ok(small),
        Err(_) => Err(OutOfMemory),
    }
}

/// Counts the paths of a file.
pub(crate) fn links(alloc: Global, filesets: &Filesets, place: &Place) -> Result<Reply, Stop>
    ensures { AnswersOrStops filesets.now (Links place.now) result filesets.now }
{
    let slot = slot_of(filesets, &place.fileset)?;
    check_read(alloc, slot, &place.path)?;
    Ok(path_count(&slot.tree, &place.path))
}

/// How many paths lead to what stands at a path.
pub(crate) fn path_count(tree: &FilesetTree, path: &Path) -> Reply
    ensures { result ≡ links_of path.now tree.now }
{
    match tree.number_at(path) {
        Some(number) => Reply::Count(tree.paths_to(number) as u64),
        None => Reply::Done,
    }
}

/// Makes a file durable, which changes nothing that a command shows.
pub(crate) fn fsync(alloc: Global, filesets: &Filesets, place: &Place) -> Result<Reply, Stop>
    ensures { AnswersOrStops filesets.now (Fsync place.now) result filesets.now }
{
    let slot = slot_of(filesets, &place.fileset)?;
    check_writable(slot)?;
    check_target(alloc, slot, &place.path)?;
    Ok(Reply::Done)
}
