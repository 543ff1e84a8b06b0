//! Changes kept or taken back, slot by slot.
ghost use Rattle.std.specs.Prelude.{◌≡◌, ℕ, [], vec_capacity, vec_len};
ghost use Rattle.std.specs.Option.{ForSome};
ghost use Rattle.page_store.specs.sorted_sets.Rising.{IsRising, value_at};
ghost use Rattle.staged_pages.specs.Slots.{AreWhole, page_before, page_now};
ghost use Rattle.staged_pages.specs.Staged.{AreSlots, SettlesAll, SettlesSlot};

use crate::slot::Slot;
use page_store::numbered::place_of;
use page_store::{Home, home_number};

/// Keeps the page of a number as it is now.
fn settle_at(entries: &mut Vec<(u64, Slot)>, key: u64)
    requires rising { IsRising entries.old.items }
    requires whole { (q : ℕ) → ForSome (value_at entries.old.items q) AreWhole }
    ensures settles { SettlesSlot page_now key entries.old.items entries.new.items }
    ensures rising { IsRising entries.new.items }
    ensures whole { (q : ℕ) → ForSome (value_at entries.new.items q) AreWhole }
    ensures len { vec_len entries.new ≡ vec_len entries.old }
    ensures capacity { vec_capacity entries.new ≡ vec_capacity entries.old }
{
    let Ok(place) = place_of(entries, key) else {
        return;
    };
    entries[place].1.settle();
}

/// Takes the page of a number back to what it was.
fn take_back_at(entries: &mut Vec<(u64, Slot)>, key: u64)
    requires rising { IsRising entries.old.items }
    requires whole { (q : ℕ) → ForSome (value_at entries.old.items q) AreWhole }
    ensures settles { SettlesSlot page_before key entries.old.items entries.new.items }
    ensures rising { IsRising entries.new.items }
    ensures whole { (q : ℕ) → ForSome (value_at entries.new.items q) AreWhole }
    ensures len { vec_len entries.new ≡ vec_len entries.old }
    ensures capacity { vec_capacity entries.new ≡ vec_capacity entries.old }
{
    let Ok(place) = place_of(entries, key) else {
        return;
    };
    entries[place].1.take_back();
}

/// Keeps all pages as they are now.
pub(crate) fn settle_all(entries: &mut Vec<(u64, Slot)>, changed: &mut Vec<Home>)
    requires slots { AreSlots entries.old.items changed.old.items }
    ensures settles { SettlesAll page_now entries.old.items entries.new.items }
    ensures slots { AreSlots entries.new.items changed.new.items }
    ensures none { changed.new.items ≡ [] }
    ensures len { vec_len entries.new ≡ vec_len entries.old }
    ensures capacity { vec_capacity entries.new ≡ vec_capacity entries.old }
    ensures list_room { vec_capacity changed.new ≡ vec_capacity changed.old }
{
    while let Some(home) = changed.pop() {
        settle_at(entries, home_number(&home));
    }
}

/// Takes all pages back to what they were.
pub(crate) fn take_back_all(entries: &mut Vec<(u64, Slot)>, changed: &mut Vec<Home>)
    requires slots { AreSlots entries.old.items changed.old.items }
    ensures settles { SettlesAll page_before entries.old.items entries.new.items }
    ensures slots { AreSlots entries.new.items changed.new.items }
    ensures none { changed.new.items ≡ [] }
    ensures len { vec_len entries.new ≡ vec_len entries.old }
    ensures capacity { vec_capacity entries.new ≡ vec_capacity entries.old }
    ensures list_room { vec_capacity changed.new ≡ vec_capacity changed.old }
{
    while let Some(home) = changed.pop() {
        take_back_at(entries, home_number(&home));
    }
}
