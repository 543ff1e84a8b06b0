//! A set of homes.
ghost use Rattle.std.specs.Prelude.{◌≡◌};
ghost use Rattle.sorted_sets.specs.Rising.{IsRising};
ghost use Rattle.sorted_sets.specs.Order.{AreNumbered};

use crate::home_number;
use crate::numbered::{find, put};
use domain_base::{Home, OutOfMemory};
use std::alloc::Global;

/// Homes of pages, each once, in the order of their volumes and pages.
#[derive(Drop)]
pub struct HomeSet {
    homes: Vec<(u64, Home)>,
    ghost rising: { IsRising homes.items },
    ghost numbered: { AreNumbered homes.items },
}

impl HomeSet {
    ghost use Rattle.std.specs.Prelude.{◌↔◌, ◌⊎◌, Contains, IsTrue, OnErr, OnOk};
    ghost use Rattle.domain_base.specs.declared.place.Home.{Home};
    ghost use Rattle.sorted_sets.specs.Members.{IsIn, entries};

    /// The empty set.
    pub fn new(alloc: Global) -> HomeSet
        ensures { (home : Home) → ¬ IsIn result home }
    {
        HomeSet {
            homes: Vec::new(alloc),
        }
    }

    /// Whether a home is in the set.
    pub fn has(&self, home: &Home) -> bool
        ensures { IsTrue result ↔ IsIn self.now home.now }
    {
        find(&self.homes, home_number(home)).is_some()
    }

    /// Puts a home into the set. After an error the set is as before.
    pub fn insert(&mut self, home: &Home) -> Result<(), OutOfMemory>
        ensures ok { OnOk result ((other : Home) → IsIn self.new other
            ↔ (IsIn self.old other ⊎ (other ≡ home.now))) }
        ensures err { OnErr result (entries self.new ≡ entries self.old) }
    {
        put(&mut self.homes, home_number(home), *home)
    }

    /// Puts homes into the set.
    pub fn insert_all(&mut self, homes: &[Home]) -> Result<(), OutOfMemory>
        ensures { OnOk result ((other : Home) → IsIn self.new other
            ↔ (IsIn self.old other ⊎ Contains homes.now other)) }
    {
        for home in homes {
            self.insert(home)?;
        }
        Ok(())
    }

    /// Puts the homes of another set into the set.
    pub fn insert_set(&mut self, other: &HomeSet) -> Result<(), OutOfMemory>
        ensures { OnOk result ((home : Home) → IsIn self.new home
            ↔ (IsIn self.old home ⊎ IsIn other.now home)) }
    {
        for (_, home) in other.as_slice() {
            self.insert(home)?;
        }
        Ok(())
    }

    /// Its homes in their order, each with its number.
    pub fn as_slice(&self) -> &[(u64, Home)]
        ensures value { result.now ≡ entries self.now }
        ensures rising { IsRising result.now }
        ensures numbered { AreNumbered result.now }
    {
        &self.homes
    }
}
