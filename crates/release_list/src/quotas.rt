//! Letting go of cells of quotas.
ghost use Rattle.std.specs.Prelude.{◌≡◌, ℕ, IfOk, List, OnErr, OnOk, false};
ghost use Rattle.file_release.specs.domain_base.declared.place.Home.{Home as HomeOf};
ghost use Rattle.file_release.specs.domain_base.declared.version.Version.{Version as VersionOf};
ghost use Rattle.file_release.specs.page_store.Pages.{same_home};
ghost use Rattle.file_release.specs.metadata_cells.Cell.{Cell};
ghost use Rattle.file_release.specs.metadata_cells.CellPage.{KeepsHeaders, KeepsWellFormed, home_of as home_there};
ghost use Rattle.file_release.specs.metadata_cells.Chain.{LeavesOthers, StandsAt, is_at};
ghost use Rattle.file_release.specs.free_space.Spaces.{Spaces};
ghost use Rattle.file_release.specs.file_chains.Changes.{IsInUse};
ghost use Rattle.release_list.specs.declared.list.Entry.{Entry as EntryOf};
ghost use Rattle.release_list.specs.Listing.{Listing};
ghost use Rattle.release_list.specs.Standing.{Files};
ghost use Rattle.release_list.specs.Steps.{HasQuotas, Leaves, list_after, now_of};

use crate::entries::end_whole;
use crate::list::Entry;
use crate::went::Went;
use file_release::{
    CellAt, CellHead, FreeCells, MetaPages, OutOfMemory, next_cell, read_used, write_cell,
};
use std::alloc::Global;

/// Makes a cell lead past another one, to the cell that follows that one. After an error nothing
/// has changed.
pub fn lead_past<M: MetaPages>(
    alloc: Global,
    pages: &mut M,
    at: &CellAt,
    next: &CellAt,
) -> Result<(), OutOfMemory>
    requires first { IsInUse (M.pages pages.old) at.now }
    requires next { IsInUse (M.pages pages.old) next.now }
    ensures ok { (first gone : Cell) → StandsAt (M.pages pages.old) at.now first
        → StandsAt (M.pages pages.old) next.now gone
        → OnOk result (StandsAt (M.pages pages.new) at.now (record first {
          head = record first.head { next = gone.head.next };
        })) }
    ensures err { OnErr result (M.pages pages.new ≡ M.pages pages.old) }
    ensures others { LeavesOthers (is_at at.now) (M.pages pages.old) (M.pages pages.new) }
    ensures well_formed { KeepsWellFormed (M.pages pages.old) (M.pages pages.new) }
    ensures headers { KeepsHeaders (M.pages pages.old) (M.pages pages.new) }
    ensures elsewhere { (home : HomeOf) → same_home home (home_there at.now) ≡ false
        → M.pages pages.new home ≡ M.pages pages.old home }
    ensures room { M.room pages.new ≡ M.room pages.old }
    ensures before { M.before pages.new ≡ M.before pages.old }
{
    let used = read_used(alloc, pages, *at)?.unwrap();
    let head = CellHead {
        next: next_cell(pages, next),
        ..used.head
    };
    write_cell(pages, *at, &head, &used.records);
    Ok(())
}

/// Lets go of the second of an entry's quota cells or, if only one is left, ends the reading of a
/// clone through it, or frees it.
pub(crate) fn release_quotas<M: MetaPages>(
    alloc: Global,
    pages: &mut M,
    cells: &mut FreeCells,
    entry: &Entry,
) -> Result<Went, OutOfMemory>
    requires well { (list : Listing) × (front : List EntryOf) × (files : Files) × (space : Spaces)
        × HasQuotas front entry.now (now_of list files space cells.old (M.pages pages.old)) }
    ensures ok { (group : ℕ) (version : VersionOf) (list : Listing) (front : List EntryOf)
        (files : Files) (space : Spaces) → HasQuotas front entry.now (now_of list files
        space cells.old (M.pages pages.old)) → IfOk result (λ went. Leaves group version
        (now_of list files space cells.old (M.pages pages.old)) (list_after went front entry.now
        list) space cells.new (M.pages pages.new)) }
    ensures cells { OnErr result (cells.new ≡ cells.old) }
    ensures pages { OnErr result (M.pages pages.new ≡ M.pages pages.old) }
    ensures room { M.room pages.new ≡ M.room pages.old }
    ensures before { M.before pages.new ≡ M.before pages.old }
{
    match next_cell(pages, &entry.at) {
        Some(next) => {
            lead_past(alloc, pages, &entry.at, &next)?;
            cells.free_cell(pages, next);
            Ok(Went::Part)
        }
        None => end_whole(alloc, pages, cells, entry),
    }
}
