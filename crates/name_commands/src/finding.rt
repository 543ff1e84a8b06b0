//! Finding the fileset that a command names.
ghost use Rattle.std.specs.Prelude.{◌≡◌, false, true, IfErr, IfOk, IsSomeAnd, slice_get};
ghost use Rattle.std.specs.List.{list_any};
ghost use Rattle.domain_changes.specs.fileset_values.declared.reply.Refusal.TheVariants.{NoFileset};
ghost use Rattle.domain_changes.specs.fileset_table.Table.{has_name};
ghost use Rattle.name_commands.specs.declared.stop.Stop.TheVariants.{Refused};

use crate::stop::Stop;
use domain_changes::{DomainMemory, FilesetName, FilesetNo, Refusal};

/// The slot of the fileset with a name; no-fileset if the domain has no fileset of this name.
pub fn slot_of(memory: &DomainMemory, fileset: &FilesetName) -> Result<FilesetNo, Stop>
    ensures there { IfOk result (λ number. IsSomeAnd (slice_get memory.now.table.slots number)
        (λ item. has_name fileset.now item ≡ true)) }
    ensures none { IfErr result (λ stop. (stop ≡ Refused NoFileset)
        × (list_any (has_name fileset.now) memory.now.table.slots ≡ false)) }
{
    memory
        .table
        .find(fileset.as_slice())
        .ok_or(Stop::Refused(Refusal::NoFileset))
}
