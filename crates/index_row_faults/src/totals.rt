//! Entries that stand more often than their rows, and rows without entries.
ghost use Rattle.std.specs.Prelude.{◌≡◌, ◌⊎◌, ◌↔◌, ◌*◌, ℕ, IfOk, IsTrue, OnOk, Contains, map};
ghost use Rattle.page_faults.specs.domain_base.declared.place.Home.{Home};
ghost use Rattle.page_faults.specs.sorted_sets.Members.{IsIn};
ghost use Rattle.index_row_faults.specs.Totals.{IsLacking, IsSurplusAt, key_of};
ghost use Rattle.index_row_faults.specs.declared.entries.EntryAt.{EntryAt as EntryOf};

use crate::counts::count_of;
use crate::entries::EntryAt;
use page_faults::{HomeSet, OutOfMemory};
use std::alloc::Global;
use std::collections::BTreeMap;

/// The hashes and pages of entries.
pub(crate) fn keys_in(alloc: Global, entries: &[EntryAt]) -> Result<Vec<(u32, u64)>, OutOfMemory>
    ensures { IfOk result (λ keys. keys.items ≡ map key_of entries.now) }
{
    let mut keys = Vec::new(alloc);
    for at in entries {
        keys.push((at.entry.hash, u64::from(at.entry.page)))?;
    }
    Ok(keys)
}

/// Puts the page of an entry into a set, if the entry stands more often than its rows.
fn insert_one(
    in_rows: &BTreeMap<(u32, u64), u64>,
    in_entries: &BTreeMap<(u32, u64), u64>,
    at: &EntryAt,
    found: &mut HomeSet,
) -> Result<(), OutOfMemory>
    ensures { OnOk result ((home : Home) → IsIn found.new home ↔ (IsIn found.old home
        ⊎ IsSurplusAt in_rows.now in_entries.now at.now home)) }
{
    let key = (at.entry.hash, u64::from(at.entry.page));
    if count_of(in_rows, key) < count_of(in_entries, key) {
        found.insert(&at.home)?;
    }
    Ok(())
}

/// Puts into a set the pages of entries that stand more often than their rows.
pub(crate) fn insert_surplus(
    in_rows: &BTreeMap<(u32, u64), u64>,
    in_entries: &BTreeMap<(u32, u64), u64>,
    entries: &[EntryAt],
    found: &mut HomeSet,
) -> Result<(), OutOfMemory>
    ensures { OnOk result ((home : Home) → IsIn found.new home ↔ (IsIn found.old home
        ⊎ ((at : EntryOf) × Contains entries.now at
        × IsSurplusAt in_rows.now in_entries.now at home))) }
{
    for at in entries {
        insert_one(in_rows, in_entries, at, found)?;
    }
    Ok(())
}

/// Whether some rows have fewer entries than there are rows.
pub(crate) fn lacks_entries(
    in_rows: &BTreeMap<(u32, u64), u64>,
    in_entries: &BTreeMap<(u32, u64), u64>,
    keys: &[(u32, u64)],
) -> bool
    ensures { IsTrue result ↔ ((key : ℕ × ℕ) × Contains keys.now key
        × IsLacking in_rows.now in_entries.now key) }
{
    for key in keys {
        if count_of(in_entries, *key) < count_of(in_rows, *key) {
            return true;
        }
    }
    false
}
