//! The plain slow program that answers commands.
ghost use Rattle.legal_histories.specs.fileset_model.Apply.{AnswersIfMemory, ChangesNothing};
ghost use Rattle.plain_program.specs.Stops.{AnswersOrStops};

use crate::commands::{file, fileset, name};
use crate::stop::Stop;
use legal_histories::{Command, Filesets, Refusal, Reply};
use std::alloc::Global;

/// Answers a command and changes the filesets as it says. After a refusal, including out-of-memory,
/// the filesets are as before. A command on volumes, about which filesets know nothing, is answered
/// as out of memory.
pub fn apply(alloc: Global, filesets: &mut Filesets, command: &Command) -> Reply
    ensures { AnswersIfMemory filesets.old command.now result filesets.new }
{
    match answer(alloc, filesets, command) {
        Ok(reply) => reply,
        Err(Stop::Refused(refusal)) => Reply::Refused(refusal),
        Err(Stop::OutOfMemory) => Reply::Refused(Refusal::OutOfMemory),
    }
}

/// Carries a command out, unless something stops it.
fn answer(alloc: Global, filesets: &mut Filesets, command: &Command) -> Result<Reply, Stop>
    ensures { AnswersOrStops filesets.old command.now result filesets.new }
{
    match command {
        Command::Mkfset { fileset } => fileset::mkfset(alloc, filesets, fileset),
        Command::Rmfset { fileset } => Ok(fileset::rmfset(filesets, fileset)?),
        Command::Clonefset { fileset, new_name } => fileset::clonefset(
            alloc, filesets, fileset, new_name,
        ),
        Command::Setquota {
            fileset,
            who,
            files,
            blocks,
        } => fileset::setquota(filesets, fileset, *who, *files, *blocks),
        Command::Create { place, uid, gid } => file::create(alloc, filesets, place, *uid, *gid),
        Command::Mkdir { place, uid, gid } => name::mkdir(alloc, filesets, place, *uid, *gid),
        Command::Write {
            place,
            offset,
            bytes,
        } => file::write(alloc, filesets, place, *offset, bytes),
        Command::Truncate { place, size } => file::truncate(alloc, filesets, place, *size),
        Command::Rename { place, to } => name::rename(alloc, filesets, place, to),
        Command::Link { place, to } => name::link(alloc, filesets, place, to),
        Command::Unlink { place } => name::unlink(alloc, filesets, place),
        Command::Rmdir { place } => name::rmdir(alloc, filesets, place),
        Command::Chfile { place, logged } => file::chfile(alloc, filesets, place, *logged),
        Command::Showfsets
        | Command::Showquota { .. }
        | Command::Read { .. }
        | Command::Links { .. }
        | Command::List { .. }
        | Command::Stat { .. }
        | Command::Fsync { .. }
        | Command::Sync
        | Command::Cancel => show(alloc, filesets, command),
        _ => Err(Stop::OutOfMemory),
    }
}

/// Answers a command that changes nothing.
fn show(alloc: Global, filesets: &Filesets, command: &Command) -> Result<Reply, Stop>
    requires { ChangesNothing command.now }
    ensures { AnswersOrStops filesets.now command.now result filesets.now }
{
    match command {
        Command::Showfsets => fileset::showfsets(alloc, filesets),
        Command::Showquota { fileset, who } => fileset::showquota(alloc, filesets, fileset, *who),
        Command::Read {
            place,
            offset,
            count,
        } => file::read(alloc, filesets, place, *offset, *count),
        Command::Links { place } => file::links(alloc, filesets, place),
        Command::List { place } => name::list(alloc, filesets, place),
        Command::Stat { place } => file::stat(alloc, filesets, place),
        Command::Fsync { place } => file::fsync(alloc, filesets, place),
        Command::Sync | Command::Cancel => Ok(Reply::Done),
        _ => unreachable!(),
    }
}
