//! The homes of dirty frames in the order in which they are written home.
ghost use Rattle.std.specs.Prelude.{◌≡◌, ◌+◌, ◌^◌, ◌<◌, ◌≤◌, None, [], IfErr, IfOk, IfSome, IsSome, slice_get, vec_capacity, vec_len};
ghost use Rattle.std.specs.Option.{ForSome, option_map};
ghost use Rattle.page_store.specs.sorted_sets.Homes.{number_of};
ghost use Rattle.page_store.specs.sorted_sets.Rising.{IsGapFor, IsPlaceOf, IsRising, value_at};
ghost use Rattle.page_cache.specs.Entries.{one_for};
ghost use Rattle.page_cache.specs.Queues.{Enters, Leaves, Moves, place_at, place_of as its_place};

use page_store::{Home, OutOfMemory, home_number};
use std::alloc::Global;

/// Homes in the order of the groups that they wait for, and those of one group in their own order.
/// Its room is taken at the start.
#[derive(Drop)]
pub(crate) struct Queue {
    pub(crate) places: Vec<(u128, Home)>,
    ghost rising: { IsRising places.items },
}

/// The place of a home's number, after those of older groups.
fn place_at(group: u64, number: u64) -> u128
    ensures { result ≡ place_at group number }
{
    (u128::from(group) << 64) + u128::from(number)
}

/// The index of what stands at a place, or as an error the index that it would have.
fn index_of(places: &[(u128, Home)], place: u128) -> Result<usize, usize>
    requires { IsRising places.now }
    ensures place { IfOk result (IsPlaceOf places.now place) }
    ensures gap { IfErr result (IsGapFor places.now place) }
{
    places.binary_search_by_key(&place, |entry| entry.0)
}

impl Queue {
    /// A queue without homes that has room for `room` of them.
    pub(crate) fn with_room(alloc: Global, room: usize) -> Result<Queue, OutOfMemory>
        ensures none { IfOk result (λ queue. queue.places.items ≡ []) }
        ensures len { IfOk result (λ queue. vec_len queue.places ≡ 0) }
        ensures room { IfOk result (λ queue. vec_capacity queue.places ≡ room) }
    {
        let places = Vec::with_capacity(alloc, room)?;
        Ok(Queue { places })
    }

    /// Takes away what stands at the place of a number in a group. Without a group nothing changes.
    pub(crate) fn leave(&mut self, number: u64, group: Option<u64>)
        ensures leaves { Leaves self.old.places.items self.new.places.items number group }
        ensures len { ForSome (its_place group number)
            (λ place. IsSome (value_at self.old.places.items place))
            → vec_len self.new.places + one_for group ≡ vec_len self.old.places }
        ensures fewer { vec_len self.new.places ≤ vec_len self.old.places }
        ensures capacity { vec_capacity self.new.places ≡ vec_capacity self.old.places }
    {
        let Some(group) = group else {
            return;
        };
        if let Ok(index) = index_of(&self.places, place_at(group, number)) {
            self.places.remove(index);
        }
    }

    /// Puts a home at the place of its number in a group. Without a group nothing changes.
    pub(crate) fn enter(&mut self, home: &Home, group: Option<u64>)
        requires room { vec_len self.old.places < vec_capacity self.old.places }
        ensures enters { Enters self.old.places.items self.new.places.items home.now group }
        ensures len { ForSome (its_place group (number_of home.now))
            (λ place. value_at self.old.places.items place ≡ None)
            → vec_len self.new.places ≡ vec_len self.old.places + one_for group }
        ensures capacity { vec_capacity self.new.places ≡ vec_capacity self.old.places }
    {
        let Some(group) = group else {
            return;
        };
        let place = place_at(group, home_number(home));
        match index_of(&self.places, place) {
            Ok(index) => self.places[index] = (place, *home),
            Err(index) => {
                let _ = self.places.insert(index, (place, *home));
            }
        }
    }

    /// Moves the home of a frame that waited for the one group, or for none, to where it stands
    /// when it waits for the other, or for none.
    pub(crate) fn move_home(&mut self, home: &Home, old: Option<u64>, new: Option<u64>)
        requires room { vec_len self.old.places < vec_capacity self.old.places }
        ensures moves { Moves home.now old new self.old.places.items self.new.places.items
            (vec_len self.old.places) (vec_len self.new.places) }
        ensures capacity { vec_capacity self.new.places ≡ vec_capacity self.old.places }
    {
        let number = home_number(home);
        prove!(number <= u64::MAX);
        self.leave(number, old);
        self.enter(home, new);
    }

    /// The home that comes first, if there is one.
    pub(crate) fn first(&self) -> Option<Home>
        ensures value { result ≡ option_map (λ entry. entry.1) (slice_get self.now.places.items 0) }
        ensures width { IfSome result (λ home. home.page < 2 ^ 32) }
        ensures some { 0 < vec_len self.now.places → IsSome result }
        ensures none { vec_len self.now.places ≡ 0 → result ≡ None }
    {
        if self.places.is_empty() {
            return None;
        }
        let home = self.places[0].1;
        prove!(home.page <= u32::MAX);
        Some(home)
    }
}
