//! Laying a command of a client over a domain's memory.
ghost use Rattle.std.specs.Prelude.{◌≡◌, IfErr};
ghost use Rattle.name_commands.specs.fileset_model.Filesets.{FilesetMap};
ghost use Rattle.name_commands.specs.domain_memory.Kept.{KeepsKept};
ghost use Rattle.name_commands.specs.domain_memory.Memory.{StandsFor};
ghost use Rattle.name_commands.specs.domain_memory.Staged.{IsSettled, MayGoBack};
ghost use Rattle.name_commands.specs.domain_state.History.{StandsForSome};
ghost use Rattle.name_commands.specs.Ending.{EndsAs, IsLaid, LacksPage};
ghost use Rattle.name_commands.specs.declared.stop.Stop.TheVariants.{NoPage};

use crate::beginning::stage_fileset;
use crate::filing::{stage_chfile, stage_truncate};
use crate::lasting::{stage_fsync, stage_nothing};
use crate::limiting::stage_limits;
use crate::looking::{stage_links, stage_read};
use crate::removing::stage_removal;
use crate::showing::{stage_showfsets, stage_showquota};
use crate::writing::stage_write;
use name_commands::{
    Command, DomainMemory, Kind, Limits, Reply, Stop, VolIx, stage_leaving, stage_linking,
    stage_list, stage_making, stage_moving, stage_stat,
};
use std::alloc::Global;

/// Lays a command of a client over a domain's memory, and returns its answer. Pages and cells are
/// taken from the preferred volume first. If the command is stopped, the change may be half made.
pub fn stage(
    memory: DomainMemory,
    alloc: Global,
    command: &Command,
    prefer: VolIx,
) -> (DomainMemory, Result<Reply, Stop>)
    requires settled { IsSettled memory }
    requires stands { ∥ StandsForSome memory ∥₁ }
    requires back { ∥ MayGoBack memory ∥₁ }
    requires served { IsLaid command.now }
    ensures ends { (all : FilesetMap) → StandsFor memory all
        → EndsAs result.0 all command.now result.1 }
    ensures kept { ∥ KeepsKept memory result.0 ∥₁ }
    ensures back { ∥ MayGoBack result.0 ∥₁ }
    ensures cause { IfErr result.1 (λ stop. stop ≡ NoPage → LacksPage command.now memory) }
{
    let mut memory = memory;
    let answer = match command {
        Command::Mkfset { fileset } => stage_fileset(&mut memory, alloc, fileset, prefer),
        Command::Rmfset { fileset } => stage_removal(&mut memory, alloc, fileset),
        Command::Showfsets => return stage_showfsets(memory, alloc),
        Command::Setquota {
            fileset,
            who,
            files,
            blocks,
        } => {
            let limits = Limits {
                files: *files,
                blocks: *blocks,
            };
            stage_limits(&mut memory, alloc, fileset, *who, limits, prefer)
        }
        Command::Showquota { fileset, who } => {
            return stage_showquota(memory, fileset, *who);
        }
        Command::Create { place, uid, gid } => {
            return stage_making(memory, alloc, place, Kind::File, *uid, *gid, prefer);
        }
        Command::Mkdir { place, uid, gid } => {
            return stage_making(memory, alloc, place, Kind::Directory, *uid, *gid, prefer);
        }
        Command::Write {
            place,
            offset,
            bytes,
        } => {
            return stage_write(memory, alloc, place, *offset, bytes, prefer);
        }
        Command::Read {
            place,
            offset,
            count,
        } => {
            return stage_read(memory, alloc, place, *offset, *count, prefer);
        }
        Command::Truncate { place, size } => {
            return stage_truncate(memory, alloc, place, *size, prefer);
        }
        Command::Link { place, to } => return stage_linking(memory, alloc, place, to, prefer),
        Command::Links { place } => return stage_links(memory, place, prefer),
        Command::Unlink { place } => {
            return stage_leaving(memory, alloc, place, Kind::File, prefer);
        }
        Command::Rmdir { place } => {
            return stage_leaving(memory, alloc, place, Kind::Directory, prefer);
        }
        Command::Rename { place, to } => {
            return stage_moving(memory, alloc, place, to, prefer);
        }
        Command::List { place } => return stage_list(memory, alloc, place, prefer),
        Command::Stat { place } => return stage_stat(memory, alloc, place, prefer),
        Command::Fsync { place } => return stage_fsync(memory, place, prefer),
        Command::Chfile { place, logged } => {
            return stage_chfile(memory, alloc, place, *logged, prefer);
        }
        Command::Sync => return stage_nothing(memory),
        Command::Cancel => return stage_nothing(memory),
        _ => unreachable!(),
    };
    (memory, answer)
}
