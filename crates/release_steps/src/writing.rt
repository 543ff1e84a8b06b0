//! Quota cells, written.
ghost use Rattle.std.specs.Prelude.{◌≡◌, ◌<◌, ◌≤◌, ◌||◌, IfSome, IsTrue, OnErr, OnOk, Some, false, length};
ghost use Rattle.std.specs.FinMap.Entries.{is_sorted};
ghost use Rattle.release_list.specs.domain_base.declared.place.Home.{Home};
ghost use Rattle.release_list.specs.page_store.Pages.{same_home};
ghost use Rattle.release_list.specs.metadata_cells.Cell.{AreRecords, spellings};
ghost use Rattle.release_list.specs.metadata_cells.CellPage.{HasPlace, KeepsHeaders, KeepsWellFormed, home_of as home_there};
ghost use Rattle.release_list.specs.metadata_cells.Chain.{LeavesOthers, StandsAt, is_at};
ghost use Rattle.release_list.specs.file_chains.Changes.{IsInUse};
ghost use Rattle.quota_book.specs.fileset_values.Orders.{owner_cmp};
ghost use Rattle.release_steps.specs.QuotaChain.{quota_head, records_for};

use crate::records::write_said;
use quota_book::{Limits, Owner};
use release_list::{
    CellAt, CellHead, CellKind, FilesetNo, MetaPages, OutOfMemory, RecordList, write_cell,
};
use std::alloc::Global;

/// The head of a fileset's last quota cell.
pub(crate) fn new_head(fileset: FilesetNo) -> CellHead
    ensures { result ≡ quota_head fileset }
{
    CellHead {
        next: None,
        slot: 0,
        seq: 0,
        fileset: Some(fileset),
        kind: CellKind::Quota,
    }
}

/// Writes a quota cell in use that says this of owners. Every other cell stays, and so do the index
/// and next page of each page. After an error nothing has changed.
pub(crate) fn write_quota<M: MetaPages>(
    alloc: Global,
    pages: &mut M,
    at: &CellAt,
    head: &CellHead,
    said: &[(Owner, Limits)],
) -> Result<(), OutOfMemory>
    requires place { HasPlace (M.pages pages.old) at.now }
    requires next { IfSome head.now.next (λ at. at.cell < 28) }
    requires sorted { IsTrue (is_sorted owner_cmp said.now) }
    requires few { length said.now ≤ 9 }
    ensures ok { OnOk result (StandsAt (M.pages pages.new) at.now (record {
      head = head.now;
      records = records_for said.now;
    })) }
    ensures err { OnErr result (M.pages pages.new ≡ M.pages pages.old) }
    ensures others { LeavesOthers (is_at at.now) (M.pages pages.old) (M.pages pages.new) }
    ensures well_formed { KeepsWellFormed (M.pages pages.old) (M.pages pages.new) }
    ensures headers { KeepsHeaders (M.pages pages.old) (M.pages pages.new) }
    ensures elsewhere { (home : Home) → same_home home (home_there at.now) ≡ false
        → M.pages pages.new home ≡ M.pages pages.old home }
    ensures room { M.room pages.new ≡ M.room pages.old }
    ensures before { M.before pages.new ≡ M.before pages.old }
{
    let records = write_said(alloc, said)?;
    write_cell(pages, *at, head, &records);
    Ok(())
}

/// Writes a quota cell and, linked after it, another one that is the last of its chain.
pub(crate) fn link_behind<M: MetaPages>(
    pages: &mut M,
    last: &CellAt,
    head: &CellHead,
    records: &RecordList,
    at: &CellAt,
    more: &CellHead,
    others: &RecordList,
)
    requires in_use { IsInUse (M.pages pages.old) last.now }
    requires next { IfSome more.now.next (λ at. at.cell < 28) }
    requires place { HasPlace (M.pages pages.old) at.now }
    requires apart { is_at at.now last.now ≡ false }
    requires good { AreRecords records.now }
    requires fits { length (spellings records.now) ≤ 272 }
    requires others_good { AreRecords others.now }
    requires others_fit { length (spellings others.now) ≤ 272 }
    ensures front { StandsAt (M.pages pages.new) last.now (record {
      head = record head.now { next = Some at.now };
      records = records.now;
    }) }
    ensures behind { StandsAt (M.pages pages.new) at.now (record {
      head = more.now;
      records = others.now;
    }) }
    ensures others { LeavesOthers (λ q. is_at at.now q || is_at last.now q)
        (M.pages pages.old) (M.pages pages.new) }
    ensures well_formed { KeepsWellFormed (M.pages pages.old) (M.pages pages.new) }
    ensures headers { KeepsHeaders (M.pages pages.old) (M.pages pages.new) }
    ensures elsewhere { (h : Home) → same_home h (home_there at.now) ≡ false
        → same_home h (home_there last.now) ≡ false → M.pages pages.new h ≡ M.pages pages.old h }
    ensures room { M.room pages.new ≡ M.room pages.old }
    ensures before { M.before pages.new ≡ M.before pages.old }
{
    let front = CellHead {
        next: Some(*at),
        ..*head
    };
    write_cell(pages, *at, more, others);
    write_cell(pages, *last, &front, records);
}
