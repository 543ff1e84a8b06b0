//! The settings of calls on the files of a fileset.
ghost use Rattle.std.specs.Prelude.{◌≡◌};
ghost use Rattle.fileset_lending.specs.Chosen.{AreSettingsOf};

use fileset_lending::{CallSettings, DomainMemory, VolIx};

/// The settings of calls on files of a domain: its version, how many clones were made, and the
/// volume from which cells and pages are taken first. Pages that are given back wait for the first
/// group of a log.
pub fn settings_of(memory: &DomainMemory, prefer: VolIx) -> CallSettings
    ensures settings { AreSettingsOf memory.now result }
    ensures prefer { result.prefer ≡ prefer }
    ensures born { result.born ≡ memory.now.table.made }
    ensures group { result.group ≡ 0 }
{
    CallSettings {
        version: memory.frame.version,
        prefer,
        born: memory.table.made(),
        group: 0,
    }
}
