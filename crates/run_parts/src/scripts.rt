//! The script of a run, and the sections of its clients.
ghost use Rattle.std.specs.Prelude.{◌≡◌, ◌≢◌, ◌≤◌, ℕ, Err, IfOk, List, MatchResult};
ghost use Rattle.std.specs.Io.KnownBytes.{Consumes};
ghost use Rattle.domain_faults.specs.domain_base.Counts.{HasRisen};
ghost use Rattle.run_parts.specs.Answering.{SameByNumber};
ghost use Rattle.run_parts.specs.Reading.{GetsNoScript, IsScript};

use crate::sources::Source;
use crate::status::Status;
use crate::transfer::read_all;
use domain_faults::OutOfMemory;
use domain_faults::limits::MAX_SCRIPT_BYTES;
use script_text::{Script, Section, read_script};
use std::alloc::Global;

/// The sections in the order of their numbers. Fails only if memory runs out.
pub fn in_order(mut sections: Vec<Section>) -> Result<Vec<Section>, OutOfMemory>
    ensures { IfOk result (λ sorted. SameByNumber sections.items sorted.items) }
{
    sections.sort_by_key(|section| section.number)?;
    Ok(sections)
}

/// Reads the script that a source has, to its end. Returns `SourceFault` if a call of the source
/// was refused, `TooLong` if the script has more than 33,554,432 bytes, `BadScript` with the first
/// line that the grammar refuses, and `OutOfMemory` if memory ran out.
pub fn take_script<S: Source>(alloc: Global, source: &mut S) -> Result<Script, Status>
    ensures taken { (read : List ℕ) × Consumes (S.left source.old) (S.left source.new) read
        × MatchResult result
        (IsScript (S.left source.new) read) (GetsNoScript (S.left source.new) read) }
    ensures no_usage { (word : ℕ) → result ≢ Err (Status.Usage word) }
    ensures never_falls { S.faults source.old ≤ S.faults source.new }
    ensures source_fault { result ≡ Err Status.SourceFault
        → HasRisen (S.faults source.old) (S.faults source.new) }
{
    let text = read_all(alloc, source, MAX_SCRIPT_BYTES)?;
    let script = read_script(alloc, text.as_slice())?;
    Ok(script)
}
