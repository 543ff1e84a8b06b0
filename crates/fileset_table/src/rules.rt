//! Whether slots are those of a fileset table.
ghost use Rattle.std.specs.Prelude.{◌≡◌, ◌↔◌, IsTrue, count_by, not};
ghost use Rattle.std.specs.List.{list_all};
ghost use Rattle.fileset_table.specs.Table.{AreTogether, HaveOneClone, HaveOwnNames, has_name as names, is_clone_of as clones, is_fileset as has_fileset, is_free as has_none, is_original as has_original, leads_to_original as leads, share_name as names_shared, share_original as originals_shared};

use crate::slot::SlotItem;
use metadata_cells::limits::MAX_FILESETS;

impl SlotItem {
    /// Whether the slot has no fileset, not even one that is being removed.
    pub fn is_free(&self) -> bool
        ensures { result ≡ has_none self.now }
    {
        matches!(self, SlotItem::Free)
    }

    /// Whether the slot has an original.
    fn is_original(&self) -> bool
        ensures { result ≡ has_original self.now }
    {
        matches!(self, SlotItem::Original { .. })
    }

    /// Whether the slot has an original or a clone.
    fn is_fileset(&self) -> bool
        ensures { result ≡ has_fileset self.now }
    {
        matches!(self, SlotItem::Original { .. } | SlotItem::Clone { .. })
    }

    /// Whether the slot has an original or a clone of this name.
    pub(crate) fn has_name(&self, name: &[u8]) -> bool
        ensures { result ≡ names name.now self.now }
    {
        match self {
            SlotItem::Original { entry } => entry.name.as_slice() == name,
            SlotItem::Clone { entry, .. } => entry.name.as_slice() == name,
            SlotItem::Free | SlotItem::Removed { .. } => false,
        }
    }

    /// Whether the slot has a clone of the original in this slot.
    fn is_clone_of(&self, number: u32) -> bool
        ensures { result ≡ clones number self.now }
    {
        match self {
            SlotItem::Clone { original, .. } => original.number() == number,
            _ => false,
        }
    }
}

/// Whether both slots have filesets, of one name.
fn share_name(item: &SlotItem, other: &SlotItem) -> bool
    ensures { result ≡ names_shared item.now other.now }
{
    match item {
        SlotItem::Original { entry } => other.has_name(entry.name.as_slice()),
        SlotItem::Clone { entry, .. } => other.has_name(entry.name.as_slice()),
        _ => false,
    }
}

/// Whether both slots have clones, of one original.
fn share_original(item: &SlotItem, other: &SlotItem) -> bool
    ensures { result ≡ originals_shared item.now other.now }
{
    match item {
        SlotItem::Clone { original, .. } => other.is_clone_of(original.number()),
        _ => false,
    }
}

/// How many slots have filesets that are not being removed.
fn count_filesets(slots: &[SlotItem]) -> usize
    ensures { result ≡ count_by has_fileset slots.now }
{
    let mut count = 0;
    for slot in slots {
        if slot.is_fileset() {
            count += 1;
        }
    }
    count
}

/// Whether none of the other slots has a fileset of the first one's name.
fn has_own_name(first: &SlotItem, others: &[SlotItem]) -> bool
    ensures { result ≡ list_all (λ other. not (names_shared first.now other)) others.now }
{
    others.iter().all(|other| !share_name(first, other))
}

/// Whether no two of the slots have filesets of one name.
fn have_own_names(slots: &[SlotItem]) -> bool
    ensures { IsTrue result ↔ HaveOwnNames slots.now }
{
    match slots {
        [] => true,
        [first, rest @ ..] => has_own_name(first, rest) && have_own_names(rest),
    }
}

/// Whether none of the other slots has a clone of the first one's original.
fn has_other_original(first: &SlotItem, others: &[SlotItem]) -> bool
    ensures { result ≡ list_all (λ other. not (originals_shared first.now other)) others.now }
{
    others.iter().all(|other| !share_original(first, other))
}

/// Whether no two of the slots have clones of one original.
fn have_one_clone(slots: &[SlotItem]) -> bool
    ensures { IsTrue result ↔ HaveOneClone slots.now }
{
    match slots {
        [] => true,
        [first, rest @ ..] => has_other_original(first, rest) && have_one_clone(rest),
    }
}

/// Whether the slot has no clone, or one of an original.
fn leads_to_original(slots: &[SlotItem], item: &SlotItem) -> bool
    ensures { result ≡ leads slots.now item.now }
{
    match item {
        SlotItem::Clone { original, .. } => match slots.get(original.number() as usize) {
            Some(slot) => slot.is_original(),
            None => false,
        },
        _ => true,
    }
}

/// Whether each clone is one of an original.
fn lead_to_originals(slots: &[SlotItem]) -> bool
    ensures { result ≡ list_all (leads slots.now) slots.now }
{
    slots.iter().all(|item| leads_to_original(slots, item))
}

/// Whether the slots keep the rules that no slot can keep by itself.
pub(crate) fn are_slots(slots: &[SlotItem]) -> bool
    ensures { IsTrue result ↔ AreTogether slots.now }
{
    count_filesets(slots) <= MAX_FILESETS as usize
        && have_own_names(slots)
        && lead_to_originals(slots)
        && have_one_clone(slots)
}
