//! A record with a page at another home, parted in two if it has no room for that.
ghost use Rattle.std.specs.Prelude.{◌≡◌, ◌+◌, ◌≤◌, IfOk, IsSome, length};
ghost use Rattle.extent_maps.specs.declared.run.PagePlace.TheVariants.{At};
ghost use Rattle.extent_maps.specs.Runs.{AreRuns, home_at, place_of, with_place};
ghost use Rattle.cell_records.specs.Records.{kind_of};
ghost use Rattle.extent_records.specs.Chains.{ArePartsFor};
ghost use Rattle.extent_records.specs.Writing.{AllSuit, IsMapRecord, chain_kind, most_rows, places_in};

use crate::changes::map_of;
use crate::listing::holding;
use crate::writing::empty_extents;
use cell_records::from_domain_base::Version;
use cell_records::limits::MAX_VOLUMES;
use cell_records::{Home, OutOfMemory, Record};
use extent_maps::Run;
use std::alloc::Global;

/// Two records in place of one: one of its kind, with the first of its rows, and one for a chain
/// cell, with the others.
#[derive(Clone, Copy)]
pub struct Parts {
    pub front: Record,
    pub tail: Record,
}

/// Two records of the kinds of two others that hold these runs, each half of them.
fn part_runs(front: &Record, tail: &Record, runs: &[Run]) -> Parts
    requires front { IsMapRecord front.now }
    requires tail { IsMapRecord tail.now }
    requires runs { AreRuns runs.now }
    requires suits { AllSuit (kind_of front.now) runs.now }
    requires suits_tail { AllSuit (kind_of tail.now) runs.now }
    requires few { length runs.now ≤ most_rows (kind_of front.now) + 2 }
    requires room { 16 ≤ most_rows (kind_of tail.now) }
    ensures { ArePartsFor (place_of runs.now) (kind_of front.now) (kind_of tail.now) result.front
        result.tail }
{
    let middle = runs.len() / 2;
    Parts {
        front: holding(front, &runs[..middle]),
        tail: holding(tail, &runs[middle..]),
    }
}

/// Parts a record in the middle, with a page that has a home at another one. There is always room
/// in both parts, whatever the record had. The second part is for a chain cell, as that version
/// writes it.
pub fn switch_in_parts(
    alloc: Global,
    value: &Record,
    page: u32,
    home: Home,
    version: Version,
) -> Result<Parts, OutOfMemory>
    requires is_map { IsMapRecord value.now }
    requires there { IsSome (home_at (places_in value.now page)) }
    ensures { IfOk result (λ parts. ArePartsFor (with_place page (At home) (places_in value.now))
        (kind_of value.now) (chain_kind version) parts.front parts.tail) }
{
    prove!(home.vol.number() <= MAX_VOLUMES);
    let mut map = map_of(alloc, value)?;
    map.switch(page, home)?;
    Ok(part_runs(value, &empty_extents(version), map.runs()))
}
