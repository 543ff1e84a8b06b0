//! The commands on whole filesets, and on the limits of owners.
ghost use Rattle.std.specs.Prelude.{◌≡◌, IfErr, IfOk, OnErr};
ghost use Rattle.legal_histories.specs.fileset_model.Apply.{Answers, refusal_of};
ghost use Rattle.legal_histories.specs.fileset_values.declared.command.Command.TheVariants.{Clonefset, Mkfset, Rmfset, Setquota, Showfsets, Showquota};
ghost use Rattle.plain_program.specs.Stops.{AnswersOrStops};

use crate::refusals::{check_clonefset, check_new_name, check_writable, slot_of};
use crate::stop::{Stop, refuse_if};
use legal_histories::{FilesetList, FilesetName, Filesets, Limits, Owner, Refusal, Reply};
use std::alloc::Global;

pub(crate) fn mkfset(
    alloc: Global,
    filesets: &mut Filesets,
    name: &FilesetName,
) -> Result<Reply, Stop>
    ensures { AnswersOrStops filesets.old (Mkfset name.now) result filesets.new }
{
    check_new_name(filesets, name)?;
    filesets.make(alloc, name)?;
    Ok(Reply::Done)
}

/// Removes a fileset, unless it has a clone.
pub(crate) fn rmfset(filesets: &mut Filesets, name: &FilesetName) -> Result<Reply, Refusal>
    ensures ok { IfOk result (λ reply. Answers filesets.old (Rmfset name.now) reply filesets.new) }
    ensures err { IfErr result (λ why. refusal_of filesets.old (Rmfset name.now) ≡ Some why) }
    ensures same { OnErr result (filesets.new ≡ filesets.old) }
{
    slot_of(filesets, name)?;
    refuse_if(filesets.has_clone(name), Refusal::HasClone)?;
    filesets.remove_fileset(name);
    Ok(Reply::Done)
}

/// Makes a frozen copy of a fileset, unless it is a clone or has one.
pub(crate) fn clonefset(
    alloc: Global,
    filesets: &mut Filesets,
    name: &FilesetName,
    new_name: &FilesetName,
) -> Result<Reply, Stop>
    ensures { AnswersOrStops filesets.old (Clonefset name.now new_name.now) result filesets.new }
{
    check_clonefset(filesets, name, new_name)?;
    filesets.add_clone(alloc, name, new_name)?;
    Ok(Reply::Done)
}

/// Lists the filesets in the byte order of their names.
pub(crate) fn showfsets(alloc: Global, filesets: &Filesets) -> Result<Reply, Stop>
    ensures { AnswersOrStops filesets.now Showfsets result filesets.now }
{
    let items = filesets.items(alloc)?;
    Ok(Reply::Filesets(FilesetList::from_vec(items)))
}

/// Sets an owner's limits, also below what the owner uses.
pub(crate) fn setquota(
    filesets: &mut Filesets,
    name: &FilesetName,
    who: Owner,
    files: u64,
    blocks: u64,
) -> Result<Reply, Stop>
    ensures { AnswersOrStops filesets.old (Setquota name.now who files blocks) result filesets.new }
{
    let slot = slot_of(filesets, name)?;
    check_writable(slot)?;
    filesets.limit(name, who, Limits { files, blocks })?;
    Ok(Reply::Done)
}

/// Shows what an owner uses, and the owner's limits.
pub(crate) fn showquota(
    alloc: Global,
    filesets: &Filesets,
    name: &FilesetName,
    who: Owner,
) -> Result<Reply, Stop>
    ensures { AnswersOrStops filesets.now (Showquota name.now who) result filesets.now }
{
    let slot = slot_of(filesets, name)?;
    check_writable(slot)?;
    let usage = slot.tree.usage(alloc, who)?;
    let limits = slot.tree.limits(who);
    Ok(Reply::Quota {
        files: usage.files,
        files_limit: limits.files,
        blocks: usage.blocks,
        blocks_limit: limits.blocks,
    })
}
