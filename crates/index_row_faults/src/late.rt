//! Entries that are below an entry before them.
ghost use Rattle.std.specs.Prelude.{◌≡◌, ◌⊎◌, ◌↔◌, OnOk, length};
ghost use Rattle.page_faults.specs.domain_base.declared.place.Home.{Home};
ghost use Rattle.page_faults.specs.directory_pages.Entries.{is_below as below};
ghost use Rattle.page_faults.specs.sorted_sets.Members.{IsIn};
ghost use Rattle.index_row_faults.specs.Entries.{IsLateBefore, is_below_top};

use crate::entries::EntryAt;
use page_faults::{HomeSet, IndexEntry, OutOfMemory};

/// Whether an entry is before another in their order: by its hash, and then by its page.
fn is_below(entry: &IndexEntry, other: &IndexEntry) -> bool
    ensures { result ≡ below entry.now other.now }
{
    entry.hash < other.hash || (entry.hash == other.hash && entry.page < other.page)
}

/// Whether an entry is below the highest of those before it.
fn is_late(top: &Option<IndexEntry>, entry: &IndexEntry) -> bool
    ensures { result ≡ is_below_top top.now entry.now }
{
    match top {
        Some(top) => is_below(entry, top),
        None => false,
    }
}

/// Puts into a set the pages of entries that are below an entry before them.
pub(crate) fn insert_late(entries: &[EntryAt], found: &mut HomeSet) -> Result<(), OutOfMemory>
    ensures { OnOk result ((home : Home) → IsIn found.new home ↔ (IsIn found.old home
        ⊎ IsLateBefore entries.now (length entries.now) home)) }
{
    let mut top = None;
    for at in entries {
        if is_late(&top, &at.entry) {
            found.insert(&at.home)?;
        } else {
            top = Some(at.entry);
        }
    }
    Ok(())
}
