//! Lists of numbered values in the order of their numbers, searched by halving, and the numbers of
//! homes.
ghost use Rattle.std.specs.Prelude.{◌≡◌, ◌<◌, ◌≤◌, ◌+◌, ◌⊎◌, IfErr, IfOk, IsOk, IsSome, OnErr, OnOk, is_some, vec_capacity, vec_len, if◌then◌else◌};
ghost use Rattle.std.specs.Option.{option_copied};
ghost use Rattle.sorted_sets.specs.Rising.{Drops, IsGapFor, IsPlaceOf, IsRising, Sets, value_at};

use domain_base::OutOfMemory;

/// The place of the entry with this number, or as an error the place where it would stand.
pub fn place_of<V>(entries: &[(u64, V)], key: u64) -> Result<usize, usize>
    requires { IsRising entries.now }
    ensures place { IfOk result (IsPlaceOf entries.now key) }
    ensures gap { IfErr result (IsGapFor entries.now key) }
{
    entries.binary_search_by_key(&key, |entry| entry.0)
}

/// The value of this number.
pub fn find<V>(entries: &[(u64, V)], key: u64) -> Option<&V>
    requires { IsRising entries.now }
    ensures { option_copied result ≡ value_at entries.now key }
{
    match place_of(entries, key) {
        Ok(place) => Some(&entries[place].1),
        Err(_) => None,
    }
}

/// Gives the number this value. Cannot fail if the number already has a value or the vector has
/// room for one more. After an error the entries are as before.
pub fn put<V: Drop>(entries: &mut Vec<(u64, V)>, key: u64, value: V) -> Result<(), OutOfMemory>
    requires { IsRising entries.old.items }
    ensures ok { OnOk result (Sets entries.old.items entries.new.items key value) }
    ensures err { OnErr result (entries.new.items ≡ entries.old.items) }
    ensures there { IsSome (value_at entries.old.items key) → IsOk result }
    ensures room { vec_len entries.old < vec_capacity entries.old → IsOk result }
    ensures len { OnOk result (vec_len entries.new ≡ vec_len entries.old
        + (if is_some (value_at entries.old.items key) then 0 else 1)) }
    ensures kept { IsSome (value_at entries.old.items key)
        → vec_capacity entries.new ≡ vec_capacity entries.old }
    ensures in_place { vec_len entries.old < vec_capacity entries.old
        → vec_capacity entries.new ≡ vec_capacity entries.old }
    ensures rising { IsRising entries.new.items }
{
    match place_of(entries, key) {
        Ok(place) => entries[place] = (key, value),
        Err(place) => entries.insert(place, (key, value))?,
    }
    Ok(())
}

/// Takes the value of this number away.
pub fn take<V: Drop>(entries: &mut Vec<(u64, V)>, key: u64) -> Option<V>
    requires { IsRising entries.old.items }
    ensures taken { result ≡ value_at entries.old.items key }
    ensures items { Drops entries.old.items entries.new.items key }
    ensures rising { IsRising entries.new.items }
    ensures len { vec_len entries.new + (if is_some result then 1 else 0) ≡ vec_len entries.old }
    ensures capacity { vec_capacity entries.new ≡ vec_capacity entries.old }
{
    match place_of(entries, key) {
        Ok(place) => Some(entries.remove(place).1),
        Err(_) => None,
    }
}
