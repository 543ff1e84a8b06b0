//! Changes of single slots.
ghost use Rattle.std.specs.Prelude.{◌≡◌, ◌+◌, ◌<◌, ◌≤◌, Some, None, IsSome, IsSomeAnd, length, vec_capacity, vec_len};
ghost use Rattle.std.specs.Option.{option_and_then};
ghost use Rattle.page_store.specs.domain_base.Page.{overwritten};
ghost use Rattle.page_store.specs.sorted_sets.Homes.{number_of};
ghost use Rattle.page_store.specs.sorted_sets.Rising.{value_at};
ghost use Rattle.staged_pages.specs.Slots.{page_now};
ghost use Rattle.staged_pages.specs.Staged.{AreSlots, EditsSlot};

use crate::slot::Slot;
use page_store::limits::PAGE_BYTES;
use page_store::numbered::place_of;
use page_store::{Home, Page, home_number};

/// Writes these bytes into the page at a home, which is there, from byte `at` on.
pub(crate) fn rewrite_at(
    entries: &mut Vec<(u64, Slot)>,
    changed: &mut Vec<Home>,
    home: Home,
    at: usize,
    bytes: &[u8],
)
    requires slots { AreSlots entries.old.items changed.old.items }
    requires room { vec_len entries.old ≤ vec_capacity changed.old }
    requires there { IsSome (option_and_then page_now (value_at entries.old.items
        (number_of home))) }
    requires fits { at + length bytes.now ≤ PAGE_BYTES }
    ensures edits { IsSomeAnd (option_and_then page_now (value_at entries.old.items
        (number_of home))) (λ page. EditsSlot (number_of home)
        (Some (overwritten page at bytes.now)) entries.old.items entries.new.items) }
    ensures slots { AreSlots entries.new.items changed.new.items }
    ensures len { vec_len entries.new ≡ vec_len entries.old }
    ensures capacity { vec_capacity entries.new ≡ vec_capacity entries.old }
    ensures list_room { vec_capacity changed.new ≡ vec_capacity changed.old }
{
    let Ok(place) = place_of(entries, home_number(&home)) else {
        return;
    };
    let is_new = entries[place].1.is_same();
    entries[place].1.rewrite(at, bytes);
    if is_new {
        changed.push_reserved(home);
    }
}

/// Puts a page at a home that has a slot. If no page is there, another one is given as room for it,
/// which a vacant slot takes.
pub(crate) fn put_at(
    entries: &mut Vec<(u64, Slot)>,
    changed: &mut Vec<Home>,
    home: Home,
    page: Page,
    other: Option<Page>,
)
    requires slots { AreSlots entries.old.items changed.old.items }
    requires room { vec_len entries.old ≤ vec_capacity changed.old }
    requires there { IsSome (value_at entries.old.items (number_of home)) }
    requires page_room { option_and_then page_now (value_at entries.old.items (number_of home))
        ≡ None → IsSome other }
    ensures edits { EditsSlot (number_of home) (Some page) entries.old.items entries.new.items }
    ensures slots { AreSlots entries.new.items changed.new.items }
    ensures len { vec_len entries.new ≡ vec_len entries.old }
    ensures capacity { vec_capacity entries.new ≡ vec_capacity entries.old }
    ensures list_room { vec_capacity changed.new ≡ vec_capacity changed.old }
{
    let Ok(place) = place_of(entries, home_number(&home)) else {
        return;
    };
    let is_new = entries[place].1.is_same();
    entries[place].1.put(page, other);
    if is_new {
        changed.push_reserved(home);
    }
}

/// Forgets the page at a home. Nothing changes if none is there.
pub(crate) fn forget_at(entries: &mut Vec<(u64, Slot)>, changed: &mut Vec<Home>, home: Home)
    requires slots { AreSlots entries.old.items changed.old.items }
    requires room { vec_len entries.old ≤ vec_capacity changed.old }
    ensures edits { EditsSlot (number_of home) None entries.old.items entries.new.items }
    ensures slots { AreSlots entries.new.items changed.new.items }
    ensures len { vec_len entries.new ≡ vec_len entries.old }
    ensures capacity { vec_capacity entries.new ≡ vec_capacity entries.old }
    ensures list_room { vec_capacity changed.new ≡ vec_capacity changed.old }
{
    let Ok(place) = place_of(entries, home_number(&home)) else {
        return;
    };
    let slot = &entries[place].1;
    if slot.page().is_none() {
        return;
    }
    let is_new = slot.is_same();
    entries[place].1.forget();
    if is_new {
        changed.push_reserved(home);
    }
}

/// Puts a page at a home that has no slot, with another page as room for what it will have been.
pub(crate) fn add_at(
    entries: &mut Vec<(u64, Slot)>,
    changed: &mut Vec<Home>,
    home: Home,
    page: Page,
    other: Page,
)
    requires slots { AreSlots entries.old.items changed.old.items }
    requires room { vec_len entries.old < vec_capacity entries.old }
    requires list_room { vec_len entries.old < vec_capacity changed.old }
    requires none { value_at entries.old.items (number_of home) ≡ None }
    ensures edits { EditsSlot (number_of home) (Some page) entries.old.items entries.new.items }
    ensures slots { AreSlots entries.new.items changed.new.items }
    ensures len { vec_len entries.new ≡ vec_len entries.old + 1 }
    ensures capacity { vec_capacity entries.new ≡ vec_capacity entries.old }
    ensures list_room { vec_capacity changed.new ≡ vec_capacity changed.old }
{
    let key = home_number(&home);
    let Err(place) = place_of(entries, key) else {
        return;
    };
    let _ = entries.insert(place, (key, Slot::added(page, other)));
    changed.push_reserved(home);
}
