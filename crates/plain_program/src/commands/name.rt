//! The commands that make, move, list and remove names.
ghost use Rattle.legal_histories.specs.fileset_values.declared.command.Command.TheVariants.{Link, List as ListNames, Mkdir, Rename, Rmdir, Unlink};
ghost use Rattle.plain_program.specs.Stops.{AnswersOrStops};

use crate::refusals::{
    check_create, check_file, check_link, check_list, check_rename, check_rmdir, slot_of,
};
use crate::stop::Stop;
use legal_histories::{Filesets, NameList, Node, Path, Place, Reply};
use std::alloc::Global;

/// Makes an empty directory.
pub(crate) fn mkdir(
    alloc: Global,
    filesets: &mut Filesets,
    place: &Place,
    uid: u32,
    gid: u32,
) -> Result<Reply, Stop>
    ensures { AnswersOrStops filesets.old (Mkdir place.now uid gid) result filesets.new }
{
    let slot = slot_of(filesets, &place.fileset)?;
    check_create(alloc, slot, &place.path, uid, gid)?;
    let number = filesets.unused_number()?;
    filesets.add(alloc, place, number, Node::Directory { uid, gid })?;
    Ok(Reply::Done)
}

/// Moves a file or directory, and what stands below it, to another path of its fileset; what stands
/// there is replaced. If both paths lead to one file, nothing changes.
pub(crate) fn rename(
    alloc: Global,
    filesets: &mut Filesets,
    place: &Place,
    to: &Path,
) -> Result<Reply, Stop>
    ensures { AnswersOrStops filesets.old (Rename place.now to.now) result filesets.new }
{
    let slot = slot_of(filesets, &place.fileset)?;
    check_rename(alloc, slot, &place.path, to)?;
    filesets.rename(alloc, place, to)?;
    Ok(Reply::Done)
}

/// Gives a file one more path.
pub(crate) fn link(
    alloc: Global,
    filesets: &mut Filesets,
    place: &Place,
    to: &Path,
) -> Result<Reply, Stop>
    ensures { AnswersOrStops filesets.old (Link place.now to.now) result filesets.new }
{
    let slot = slot_of(filesets, &place.fileset)?;
    check_link(alloc, slot, &place.path, to)?;
    filesets.link(alloc, place, to)?;
    Ok(Reply::Done)
}

/// Removes a path of a file, and the file with its last path.
pub(crate) fn unlink(alloc: Global, filesets: &mut Filesets, place: &Place) -> Result<Reply, Stop>
    ensures { AnswersOrStops filesets.old (Unlink place.now) result filesets.new }
{
    let slot = slot_of(filesets, &place.fileset)?;
    check_file(alloc, slot, &place.path)?;
    filesets.remove(place);
    Ok(Reply::Done)
}

/// Removes an empty directory.
pub(crate) fn rmdir(alloc: Global, filesets: &mut Filesets, place: &Place) -> Result<Reply, Stop>
    ensures { AnswersOrStops filesets.old (Rmdir place.now) result filesets.new }
{
    let slot = slot_of(filesets, &place.fileset)?;
    check_rmdir(alloc, slot, &place.path)?;
    filesets.remove(place);
    Ok(Reply::Done)
}

/// Lists the names in a directory.
pub(crate) fn list(alloc: Global, filesets: &Filesets, place: &Place) -> Result<Reply, Stop>
    ensures { AnswersOrStops filesets.now (ListNames place.now) result filesets.now }
{
    let slot = slot_of(filesets, &place.fileset)?;
    check_list(alloc, slot, &place.path)?;
    let rows = slot.tree.rows(alloc, &place.path)?;
    Ok(Reply::Names(NameList::from_vec(rows)))
}
