//! Which calls of a map in memory find no page.
ghost use Rattle.std.specs.Prelude.{◌≡◌, ◌==◌, ◌≤◌, Err, IfErr, Ok, if◌then◌else◌, ◌+◌, ◌-◌, ◌^◌, min};
ghost use Rattle.std.specs.List.{list_any};
ghost use Rattle.sorted_sets.specs.domain_base.Counts.{HasRisen};
ghost use Rattle.page_store.specs.declared.fault.StoreFault.TheVariants.{NoPage as IsNoPage};

use crate::StoreFault;

/// The numbers of the calls that find no page, how many calls there were, and how many misses.
#[derive(Drop)]
pub(crate) struct Misses {
    told: Vec<u64>,
    calls: u64,
    count: u64,
}

impl Misses {
    /// The state before any call.
    pub(crate) fn new(told: Vec<u64>) -> Misses
        ensures count { result.count ≡ 0 }
        ensures told { result.told.items ≡ told.items }
    {
        Misses {
            told,
            calls: 0,
            count: 0,
        }
    }

    /// How many misses there were.
    pub(crate) fn count(&self) -> u64
        ensures { result ≡ self.now.count }
    {
        self.count
    }

    /// Counts one more call, and a miss if the call is one of those that find no page.
    pub(crate) fn next_call(&mut self) -> Result<(), StoreFault>
        ensures told { result ≡ (if list_any (λ call. call == self.old.calls) self.old.told.items
            then Err IsNoPage else Ok tt) }
        ensures counted { self.new.calls ≡ min (self.old.calls + 1) (2 ^ 64 - 1) }
        ensures same { self.new.told.items ≡ self.old.told.items }
        ensures risen { IfErr result (λ _. HasRisen self.old.count self.new.count) }
        ensures count { self.old.count ≤ self.new.count }
    {
        let call = self.calls;
        self.calls = call.saturating_add(1);
        if self.told.contains(&call) {
            self.count = self.count.saturating_add(1);
            return Err(StoreFault::NoPage);
        }
        Ok(())
    }
}
