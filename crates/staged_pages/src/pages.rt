//! Pages by their homes, and a change of them.
ghost use Rattle.std.specs.Prelude.{vec_capacity, vec_len};
ghost use Rattle.staged_pages.specs.Staged.{AreSlots, HaveRoom};

use crate::slot::Slot;
use page_store::{Home, Page};

/// Pages of metadata by their homes, with a change laid over them. The change is kept or taken back
/// as a whole, in time proportional to what it has touched. Each page has room for its earlier
/// content beside it, so changing one takes no memory. When a page goes, its slot stays without a
/// page until one comes there again, so that no other slot is moved.
#[derive(Drop)]
pub struct StagedPages {
    pub(crate) entries: Vec<(u64, Slot)>,
    pub(crate) changed: Vec<Home>,
    pub(crate) spare: Vec<Page>,
    ghost slots: { AreSlots entries.items changed.items },
    ghost fit: { HaveRoom (vec_len entries) (vec_len spare) (vec_capacity entries)
        (vec_capacity changed) },
}
