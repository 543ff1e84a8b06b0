//! What is left to be done with the file of an entry, and the clone's file that reads through it.
ghost use Rattle.std.specs.Prelude.{◌≡◌, IsSome, List, None, Some, false, true};
ghost use Rattle.std.specs.Option.{option_and_then};
ghost use Rattle.file_release.specs.domain_base.declared.place.CellAt.{CellAt as CellAtOf};
ghost use Rattle.file_release.specs.cell_records.declared.record.Leftover.TheVariants.{Trim};
ghost use Rattle.file_release.specs.metadata_cells.Chain.{PlacedCell};
ghost use Rattle.file_release.specs.file_chains.Files.{IsFile};
ghost use Rattle.release_list.specs.Listed.{from_by, left_of};
ghost use Rattle.release_list.specs.Standing.{IsFileOrQuotas, IsQuotas, Source, source_in, source_of};
ghost use Rattle.release_list.specs.Steps.{ReadsFrozen};

use file_release::limits::FILE_PAGES;
use file_release::{CellAt, Leftover, MetaPages, Reader, Record, find_record};

/// Whether the chain that begins there is one of quota cells: its first cell has no attributes.
pub(crate) fn is_of_quotas<M: MetaPages>(pages: &M, at: &CellAt) -> bool
    ensures quotas { (chain : List PlacedCell)
        → IsFileOrQuotas (M.pages pages.now) at.now chain → result ≡ true
        → IsQuotas (M.pages pages.now) at.now chain }
    ensures file { (chain : List PlacedCell)
        → IsFileOrQuotas (M.pages pages.now) at.now chain → result ≡ false
        → IsFile (M.pages pages.now) at.now chain }
{
    find_record(pages, *at, 1).is_none()
}

/// What the first cell of a file says is left to be done.
pub(crate) fn left_at<M: MetaPages>(pages: &M, at: &CellAt) -> Option<Leftover>
    ensures { (chain : List PlacedCell) → IsFile (M.pages pages.now) at.now chain
        → result ≡ left_of chain }
{
    match find_record(pages, *at, 6) {
        Some(Record::Pending { what }) => Some(what),
        _ => None,
    }
}

/// How many of its first pages a file keeps.
fn keep_at<M: MetaPages>(pages: &M, at: &CellAt) -> u32
    ensures { (chain : List PlacedCell) → IsFile (M.pages pages.now) at.now chain
        → result ≡ from_by (Some Trim) chain }
{
    match find_record(pages, *at, 1) {
        Some(Record::Attributes { keep, .. }) => keep,
        _ => FILE_PAGES,
    }
}

/// From which page on pages of the file go.
pub(crate) fn stale_at<M: MetaPages>(pages: &M, at: &CellAt, left: &Option<Leftover>) -> u32
    ensures { (chain : List PlacedCell) → IsFile (M.pages pages.now) at.now chain
        → result ≡ from_by left.now chain }
{
    match left {
        Some(Leftover::Trim) => keep_at(pages, at),
        _ => 0,
    }
}

/// How many pages are frozen for a clone's file, by its record.
fn frozen_in(value: &Option<Record>) -> u32
    ensures { (source : Source) → option_and_then source_in value.now ≡ Some source
        → result ≡ source.frozen }
{
    match value {
        Some(Record::CloneFile { frozen, .. }) => *frozen,
        _ => 0,
    }
}

/// The clone's file that is given with an entry, with what was frozen for it.
pub(crate) fn reader_at<M: MetaPages>(pages: &M, clone: &Option<CellAt>) -> Option<Reader>
    ensures none { clone.now ≡ None → result ≡ None }
    ensures some { (at : CellAtOf) (own : List PlacedCell) → clone.now ≡ Some at
        → IsFile (M.pages pages.now) at own → IsSome (source_of own)
        → ReadsFrozen at own result }
{
    match clone {
        Some(at) => Some(Reader {
            at: *at,
            frozen: frozen_in(&find_record(pages, *at, 2)),
        }),
        None => None,
    }
}
