//! How many pages a file has.
ghost use Rattle.std.specs.Prelude.{◌≡◌, IfOk, slice_get, sum_by, true};
ghost use Rattle.std.specs.FinMap.{len};
ghost use Rattle.domain_memory.specs.extent_maps.Runs.{AreRuns, IsRun};
ghost use Rattle.domain_memory.specs.fileset_model.Filesets.{FilesetMap};
ghost use Rattle.domain_memory.specs.fileset_values.Orders.{Path};
ghost use Rattle.domain_memory.specs.fileset_model.declared.fileset.FilesetSlot.{FilesetSlot};
ghost use Rattle.domain_memory.specs.fileset_table.declared.slot.FilesetEntry.{FilesetEntry};
ghost use Rattle.domain_memory.specs.domain_layout.CellRules.{of_original};
ghost use Rattle.domain_memory.specs.Staged.{IsStagedForSome, MayGoBack};
ghost use Rattle.file_changes.specs.Counting.{count_in as count_there};
ghost use Rattle.file_changes.specs.Reading.{pages_at};
ghost use Rattle.file_changes.specs.Stages.{HasFile, IsFileIn};

use crate::looking::kept_of;
use crate::slots::files_in;
use domain_memory::{DomainMemory, FilesetNo, OutOfMemory, Run, RunPlace, Tag};
use std::alloc::Global;

/// How many of the pages of a run before page `keep` have a home.
fn count_in(run: &Run, keep: u32) -> u32
    requires { IsRun run.now }
    ensures { result ≡ count_there keep run.now }
{
    let end = keep.min(run.page + run.count);
    match run.first {
        RunPlace::At(_) => end.saturating_sub(run.page),
        RunPlace::Holes => 0,
    }
}

/// How many of the pages of runs before page `keep` have a home.
fn count_runs(runs: &[Run], keep: u32) -> u32
    requires { AreRuns runs.now }
    ensures { result ≡ sum_by (count_there keep) runs.now }
{
    let mut count = 0;
    for run in runs {
        count += count_in(run, keep);
    }
    count
}

/// How many pages a file of the fileset in a slot, an original, has. It takes the time of the
/// file's runs. Fails only if memory runs out.
pub fn count_pages(
    memory: &DomainMemory,
    alloc: Global,
    number: FilesetNo,
    tag: Tag,
) -> Result<u32, OutOfMemory>
    requires stands { ∥ IsStagedForSome memory.now ∥₁ }
    requires back { ∥ MayGoBack memory.now ∥₁ }
    requires original { of_original (slice_get memory.now.table.slots number) ≡ true }
    requires file { IsFileIn memory.now number tag }
    ensures { (path : Path) (all : FilesetMap) (entry : FilesetEntry) (fileset : FilesetSlot)
        → HasFile memory.now number tag path all entry fileset
        → IfOk result (λ count. count ≡ len (pages_at fileset.tree path)) }
{
    let slot = files_in(&memory.slots, number);
    let Some(keep) = kept_of(&memory.pages, &slot.files, tag) else {
        unreachable!()
    };
    let runs = slot.files.runs(alloc, &memory.pages, tag)?;
    Ok(count_runs(runs.as_slice(), keep))
}
