//! Lists of entries in the order of their keys, each list seen as the map from its keys to their
//! values.
ghost use Rattle.std.specs.Prelude.{◌+◌, ◌<◌, ◌≡◌, ◌≤◌, IfErr, IfOk, IsOk, IsTrue, OnErr, OnOk, IsSome, not, option_copied, vec_capacity, vec_len};
ghost use Rattle.std.specs.Ordering.{eq_by_cmp};
ghost use Rattle.std.specs.FinMap.Entries.{find as found_at, is_sorted, put as put_at, where_key};
ghost use Rattle.sorted_sets.specs.Entries.{IsEqualAt, IsGapOf, IsPlaceOf};

use domain_base::OutOfMemory;
use std::cmp::Ordering;

/// The place of the entry with this key, or as an error the place where it would stand, found by
/// halving.
pub fn place_of<K: Ord, V>(entries: &[(K, V)], key: &K) -> Result<usize, usize>
    requires { IsTrue (is_sorted K.cmp entries.now) }
    ensures place { IfOk result (IsPlaceOf K.cmp entries.now key.now) }
    ensures equal { IfOk result (IsEqualAt K.cmp entries.now key.now) }
    ensures gap { IfErr result (IsGapOf K.cmp entries.now key.now) }
{
    let mut low = 0;
    let mut high = entries.len();
    while low < high {
        let middle = low + (high - low) / 2;
        match key.cmp(&entries[middle].0) {
            Ordering::Less => high = middle,
            Ordering::Equal => return Ok(middle),
            Ordering::Greater => low = middle + 1,
        }
    }
    Err(low)
}

/// The value at this key.
pub fn find<'a, K: Ord, V>(entries: &'a [(K, V)], key: &K) -> Option<&'a V>
    requires { IsTrue (is_sorted K.cmp entries.now) }
    ensures { option_copied result ≡ found_at K.cmp key.now entries.now }
{
    let place = place_of(entries, key).ok()?;
    Some(&entries[place].1)
}

/// Sets the value at this key. Cannot fail if the vector has room for one more entry. After an
/// error the entries are as before.
pub fn put<K: Ord + Drop, V: Drop>(
    entries: &mut Vec<(K, V)>,
    key: K,
    value: V,
) -> Result<(), OutOfMemory>
    requires { IsTrue (is_sorted K.cmp entries.old.items) }
    ensures ok { OnOk result (entries.new.items ≡ put_at K.cmp key value entries.old.items) }
    ensures err { OnErr result (entries.new.items ≡ entries.old.items) }
    ensures room { vec_len entries.old < vec_capacity entries.old → IsOk result }
    ensures sorted { IsTrue (is_sorted K.cmp entries.new.items) }
    ensures len { vec_len entries.new ≤ vec_len entries.old + 1 }
    ensures capacity { vec_capacity entries.old ≤ vec_capacity entries.new }
{
    match place_of(entries, &key) {
        Ok(place) => entries[place].1 = value,
        Err(place) => entries.insert(place, (key, value))?,
    }
    Ok(())
}

/// Sets the value at a key that has one. Takes no memory.
pub fn replace<K: Ord + Drop, V: Drop>(entries: &mut Vec<(K, V)>, key: &K, value: V)
    requires sorted { IsTrue (is_sorted K.cmp entries.old.items) }
    requires there { IsSome (found_at K.cmp key.now entries.old.items) }
    ensures items { entries.new.items ≡ put_at K.cmp key.now value entries.old.items }
    ensures sorted { IsTrue (is_sorted K.cmp entries.new.items) }
{
    if let Ok(place) = place_of(entries, key) {
        entries[place].1 = value;
    }
}

/// Takes away the entry with this key, if there is one. Takes no memory.
pub fn take_away<K: Ord + Drop, V: Drop>(entries: &mut Vec<(K, V)>, key: &K)
    requires { IsTrue (is_sorted K.cmp entries.old.items) }
    ensures items { entries.new.items
        ≡ where_key K.cmp (λ other. not (eq_by_cmp K.cmp key.now other)) entries.old.items }
    ensures sorted { IsTrue (is_sorted K.cmp entries.new.items) }
    ensures len { vec_len entries.new ≤ vec_len entries.old }
    ensures capacity { vec_capacity entries.new ≡ vec_capacity entries.old }
{
    if let Ok(place) = place_of(entries, key) {
        entries.remove(place);
    }
}
