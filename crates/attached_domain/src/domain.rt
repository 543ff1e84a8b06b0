//! The memory of a domain that is attached.
ghost use Rattle.std.specs.Prelude.{◌≡◌, IfErr, IfOk, Some};
ghost use Rattle.no_faults.specs.domain_base.declared.place.Home.{Home};
ghost use Rattle.no_faults.specs.fileset_model.Filesets.{FilesetMap};
ghost use Rattle.no_faults.specs.staged_pages.Store.{before_of, pages_of};
ghost use Rattle.no_faults.specs.page_ways.Frame.{frame_in};
ghost use Rattle.no_faults.specs.domain_layout.Read.{ReadsFrom};
ghost use Rattle.no_faults.specs.domain_memory.Memory.{StandsFor};
ghost use Rattle.no_faults.specs.domain_memory.Staged.{IsSettled, MayGoBack};
ghost use Rattle.attached_domain.specs.Causes.{IsUnfit, MayBeRead};

use crate::parts::{DomainParts, read_parts};
use crate::read_memory;
use crate::unfit::Unfit;
use no_faults::{DomainFrame, DomainMemory, StagedPages};
use std::alloc::Global;

/// The memory of a domain whose pages break no rule: it stands for the filesets that the pages
/// have, with no change laid over it. But a domain is not attached if it has a clone, or if
/// something is left to be done in it that no working domain leaves undone; each error says which.
pub fn read_domain(
    alloc: Global,
    pages: StagedPages,
    frame: DomainFrame,
) -> Result<DomainMemory, Unfit>
    requires kept { pages_of pages ≡ before_of pages }
    requires may { MayBeRead (pages_of pages) (frame_in frame) }
    ensures stands { IfOk result (λ memory. (home : Home) (all : FilesetMap)
        → frame.anchor.table ≡ Some home → ReadsFrom (before_of pages) home all
        → StandsFor memory all) }
    ensures settled { IfOk result IsSettled }
    ensures back { IfOk result MayGoBack }
    ensures pages { IfOk result (λ memory. memory.pages ≡ pages) }
    ensures frame { IfOk result (λ memory. frame_in memory.frame ≡ frame_in frame) }
    ensures cause { IfErr result (IsUnfit (pages_of pages) (frame_in frame)) }
{
    let parts = read_parts(alloc, &pages, &frame)?;
    let DomainParts {
        table,
        links,
        slots,
    } = parts;
    let memory = read_memory(alloc, pages, frame, table, &links, slots)?;
    Ok(memory)
}
