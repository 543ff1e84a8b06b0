//! Where the pages of a file stand.
ghost use Rattle.std.specs.Prelude.{◌≡◌, All, IfOk, slice_get, true};
ghost use Rattle.std.specs.List.{filter_map};
ghost use Rattle.domain_memory.specs.fileset_files.Files.{Chains, place_at};
ghost use Rattle.domain_memory.specs.extent_maps.Runs.{AreRuns, IsRun};
ghost use Rattle.domain_memory.specs.fileset_model.Filesets.{FilesetMap};
ghost use Rattle.domain_memory.specs.fileset_values.Orders.{Path};
ghost use Rattle.domain_memory.specs.fileset_model.declared.fileset.FilesetSlot.{FilesetSlot};
ghost use Rattle.domain_memory.specs.fileset_table.declared.slot.FilesetEntry.{FilesetEntry};
ghost use Rattle.domain_memory.specs.legal_histories.State.{MemberMap};
ghost use Rattle.domain_memory.specs.legal_histories.Volumes.{ShowsExtents};
ghost use Rattle.domain_memory.specs.page_ways.Frame.{frame_in};
ghost use Rattle.domain_memory.specs.domain_layout.CellRules.{of_original};
ghost use Rattle.domain_memory.specs.Staged.{IsStagedForSome, MayGoBack};
ghost use Rattle.file_changes.specs.Extents.{HasMembers, StandsThere, extent_of as extent_there};
ghost use Rattle.file_changes.specs.Reading.{pages_at};
ghost use Rattle.file_changes.specs.Stages.{AreFilesIn, HasFile, IsFileIn};

use crate::looking::kept_of;
use crate::slots::files_in;
use domain_memory::{DomainMemory, ExtentItem, FilesetNo, OutOfMemory, Run, RunPlace, Tag};
use std::alloc::Global;

/// The pages of a run before page `keep` that have a home.
fn extent_of(run: &Run, keep: u32) -> Option<ExtentItem>
    requires { IsRun run.now }
    ensures { result ≡ extent_there keep run.now }
{
    let RunPlace::At(home) = run.first else {
        return None;
    };
    let end = keep.min(run.page + run.count);
    if run.page >= end {
        return None;
    }
    Some(ExtentItem {
        page: run.page,
        count: end - run.page,
        vol: home.vol.number(),
        first: home.page,
    })
}

/// The pages of runs before page `keep` that have a home.
fn extents_in(alloc: Global, runs: &[Run], keep: u32) -> Result<Vec<ExtentItem>, OutOfMemory>
    requires { AreRuns runs.now }
    ensures { IfOk result (λ extents. extents.items
        ≡ filter_map (extent_there keep) runs.now) }
{
    let mut extents = Vec::new(alloc);
    for run in runs {
        if let Some(extent) = extent_of(run, keep) {
            extents.push(extent)?;
        }
    }
    Ok(extents)
}

/// Where the pages of a file of the fileset in a slot, an original, stand: in the order of pages,
/// in extents that are as long as possible. It takes the time of the file's runs. Fails only if
/// memory runs out.
pub fn extents_of(
    memory: &DomainMemory,
    alloc: Global,
    number: FilesetNo,
    tag: Tag,
) -> Result<Vec<ExtentItem>, OutOfMemory>
    requires stands { ∥ IsStagedForSome memory.now ∥₁ }
    requires back { ∥ MayGoBack memory.now ∥₁ }
    requires original { of_original (slice_get memory.now.table.slots number) ≡ true }
    requires file { IsFileIn memory.now number tag }
    ensures shown { (path : Path) (all : FilesetMap) (entry : FilesetEntry)
        (fileset : FilesetSlot) (members : MemberMap)
        → HasFile memory.now number tag path all entry fileset
        → HasMembers (frame_in memory.now.frame) members
        → IfOk result (λ extents. ShowsExtents members (pages_at fileset.tree path)
        extents.items) }
    ensures there { (chains : Chains) → AreFilesIn memory.now number chains
        → IfOk result (λ extents. All (StandsThere (place_at chains tag)) extents.items) }
{
    let slot = files_in(&memory.slots, number);
    let Some(keep) = kept_of(&memory.pages, &slot.files, tag) else {
        unreachable!()
    };
    let runs = slot.files.runs(alloc, &memory.pages, tag)?;
    extents_in(alloc, runs.as_slice(), keep)
}
