//! Homes that are a member's.
ghost use Rattle.std.specs.Prelude.{◌≡◌, ◌↔◌, ℕ, IfOk, Some};
ghost use Rattle.index_row_faults.specs.domain_base.declared.place.Home.{Home as HomeOf};
ghost use Rattle.index_row_faults.specs.domain_layout.Reached.{IsWithin};
ghost use Rattle.index_row_faults.specs.filesets_reading.Seen.{home_in};
ghost use Rattle.index_row_faults.specs.page_ways.Frame.{frame_in};
ghost use Rattle.slot_files.specs.Said.{home_said, said_in};

use crate::said::SaidHome;
use index_row_faults::{DomainFrame, Home, OutOfMemory, VolIx};
use std::alloc::Global;

/// A home, if it is a page of a member.
fn member_home(frame: &DomainFrame, said: &Option<SaidHome>) -> Option<Home>
    ensures { (home : HomeOf) → (result ≡ Some home)
        ↔ ((home_said said.now ≡ Some home) × IsWithin (frame_in frame.now) home) }
{
    let said = said.as_ref()?;
    let vol = VolIx::new(said.vol)?;
    let pages = frame.member(vol).pages;
    if frame.is_member(vol) && said.page < u64::from(pages) {
        Some(Home {
            vol,
            page: said.page as u32,
        })
    } else {
        None
    }
}

/// Those of the homes that are pages of members, each at its place.
pub(crate) fn member_homes(
    alloc: Global,
    frame: &DomainFrame,
    said: &[Option<SaidHome>],
) -> Result<Vec<Option<Home>>, OutOfMemory>
    ensures { IfOk result (λ homes. (page : ℕ) (home : HomeOf)
        → (home_in homes.items page ≡ Some home)
        ↔ ((said_in said.now page ≡ Some home) × IsWithin (frame_in frame.now) home)) }
{
    let mut homes = Vec::new(alloc);
    for page in 0..said.len() {
        homes.push(member_home(frame, &said[page]))?;
    }
    Ok(homes)
}
