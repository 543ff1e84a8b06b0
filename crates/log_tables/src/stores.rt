//! Pages of a store with their homes, as a log takes them.
ghost use Rattle.std.specs.Prelude.{◌≡◌, All, IsSome, IsTrue};
ghost use Rattle.std.specs.List.{list_any};
ghost use Rattle.log_recovery.specs.log_ring.Homes.{IsLoggable};
ghost use Rattle.log_recovery.specs.log_ring.Images.{AreDistinct};
ghost use Rattle.log_recovery.specs.page_store.Pages.{same_home};

use crate::changes::lay_over;
use crate::reading::small;
use log_recovery::{Anchor, Home, MemoryPages, MetaPages, VolIx, is_loggable};
use std::alloc::Global;

/// A store with pages of volume 2 that are full of bytes: pages and bytes by turns, 32 at most.
/// None if memory ran out.
pub fn store_of(alloc: Global, pairs: &[u64]) -> Option<MemoryPages> {
    let mut store = MemoryPages::new(alloc);
    let is_laid = lay_over(alloc, &mut store, pairs.len() as u64, pairs);
    if is_laid { Some(store) } else { None }
}

/// Sets homes to the pages of a volume, pages and bytes by turns, as many as there are.
pub fn set_homes(homes: &mut [Home; 32], vol: VolIx, pairs: &[u64]) {
    for place in 0..32 {
        homes[place] = Home {
            vol,
            page: small(pairs, 2 * place),
        };
    }
}

/// Whether a home is among others.
fn is_among(homes: &[Home], home: &Home) -> bool
    ensures { result ≡ list_any (same_home home.now) homes.now }
{
    homes
        .iter()
        .any(|other| home.vol == other.vol && home.page == other.page)
}

/// Whether no two homes are the same.
pub fn are_distinct(homes: &[Home]) -> bool
    ensures { IsTrue result → AreDistinct homes.now }
{
    for i in 0..homes.len() {
        if is_among(&homes[i + 1..], &homes[i]) {
            return false;
        }
    }
    true
}

/// Whether all homes may be logged.
pub fn may_be_logged(anchor: &Anchor, homes: &[Home]) -> bool
    ensures { IsTrue result → All (IsLoggable anchor.now) homes.now }
{
    for home in homes {
        if !is_loggable(anchor, home) {
            return false;
        }
    }
    true
}

/// Whether a store has a page at a home.
fn has_page<M: MetaPages>(store: &M, home: &Home) -> bool
    ensures { IsTrue result → IsSome (M.pages store.now home.now) }
{
    store.get(*home).is_some()
}

/// Whether a store has a page at each home.
pub fn has_all<M: MetaPages>(store: &M, homes: &[Home]) -> bool
    ensures { IsTrue result → All (λ home. IsSome (M.pages store.now home)) homes.now }
{
    for home in homes {
        if !has_page(store, home) {
            return false;
        }
    }
    true
}
