//! Domains made on volumes of several sizes, over zeros and over what stood there.

use domain_making::{Anchor, MakeFault, OutOfMemory, Rack, Version, VolIx, make_domain, recover};
use memory_disk::MemoryRack;
use std::alloc::Global;
use std::test::Fail;

/// What a making answers: the first page of the log and the page of the table, or why there is no
/// domain.
#[derive(Clone, Copy, Debug, PartialEq, Eq)]
pub enum Answer {
    Made { log: u32, table: u32 },
    Small { pages: u32 },
    Failed { vol: u32 },
    NoMemory,
    NotAlone,
    /// Another domain is recovered than was made.
    Another,
}

fn fault_of(fault: &MakeFault) -> Answer {
    match fault {
        MakeFault::VolumeSmall { pages } => Answer::Small { pages: *pages },
        MakeFault::Fault { vol } => Answer::Failed { vol: vol.number() },
        MakeFault::OutOfMemory => Answer::NoMemory,
    }
}

/// Makes a domain on a rack of one volume.
pub fn make_alone<R: Rack>(
    alloc: Global,
    rack: &mut R,
    version: Version,
) -> Option<Result<Anchor, MakeFault>> {
    if rack.volumes() != 1 {
        return None;
    }
    Some(make_domain(alloc, rack, version))
}

/// Whether recovery finds this anchor, and no group after it.
pub fn is_found<R: Rack>(alloc: Global, rack: &mut R, anchor: &Anchor) -> bool {
    match recover(alloc, rack) {
        Ok(redone) => {
            redone.anchor == *anchor
                && redone.images.as_slice().is_empty()
                && redone.next_group == 1
                && redone.next_place == 0
        }
        Err(_) => false,
    }
}

/// The page of an anchor's table, and 0 for none.
fn table_page(anchor: &Anchor) -> u32 {
    match anchor.table {
        Some(home) => home.page,
        None => 0,
    }
}

/// Makes a domain, and looks whether it is found.
pub fn made<R: Rack>(alloc: Global, rack: &mut R, version: Version) -> Answer {
    match make_alone(alloc, rack, version) {
        None => Answer::NotAlone,
        Some(Err(fault)) => fault_of(&fault),
        Some(Ok(anchor)) => {
            if !is_found(alloc, rack, &anchor) {
                return Answer::Another;
            }
            Answer::Made {
                log: anchor.log_page,
                table: table_page(&anchor),
            }
        }
    }
}

/// Makes a domain on a volume of `pages` pages of zeros.
fn made_on(alloc: Global, pages: u32, version: Version) -> Result<Answer, OutOfMemory> {
    let mut rack = MemoryRack::new(alloc, &[pages], &[], false)?;
    Ok(made(alloc, &mut rack, version))
}

#[test]
fn domains_are_made_from_160_pages_on(rt: HostRuntime) -> Result<(), Fail> {
    let alloc = rt.alloc();
    let made = [
        made_on(alloc, 159, Version::Three)?,
        made_on(alloc, 160, Version::Three)?,
        made_on(alloc, 512, Version::Three)?,
        made_on(alloc, 159, Version::Four)?,
        made_on(alloc, 160, Version::Four)?,
    ];
    let whole = Answer::Made { log: 4, table: 132 };
    let small = Answer::Small { pages: 159 };
    assert_eq!(rt; made, [small, whole, whole, small, whole]);
    Ok(())
}

#[test]
fn a_larger_volume_has_more_pages_of_bitmap_in_version_4(rt: HostRuntime) -> Result<(), Fail> {
    let alloc = rt.alloc();
    let made = [
        made_on(alloc, 65_537, Version::Three)?,
        made_on(alloc, 65_537, Version::Four)?,
    ];
    let three = Answer::Made { log: 4, table: 132 };
    let four = Answer::Made { log: 5, table: 133 };
    assert_eq!(rt; made, [three, four]);
    Ok(())
}

#[test]
fn a_second_making_leaves_an_empty_domain(rt: HostRuntime) -> Result<(), Fail> {
    let alloc = rt.alloc();
    let mut rack = MemoryRack::new(alloc, &[160], &[], false)?;
    let first = made(alloc, &mut rack, Version::Four);
    let second = made(alloc, &mut rack, Version::Three);
    let whole = Answer::Made { log: 4, table: 132 };
    assert_eq!(rt; (first, second), (whole, whole));
    Ok(())
}
