//! Making a domain in an image.
ghost use Rattle.std.specs.Prelude.{◌≡◌, ◌==◌, ◌<◌, ◌≤◌, false, IfErr, IfOk, OnOk, length};
ghost use Rattle.std.specs.List.{list_all};
ghost use Rattle.domain_faults.specs.domain_base.Limits.{min_first_volume_pages};
ghost use Rattle.domain_faults.specs.volume_disk.Disk.{HasVolume, Tells, volume_pages};
ghost use Rattle.domain_faults.specs.volume_disk.Run.{LeavesOnly, NamesReadFault, OnlyReads, Touches};
ghost use Rattle.domain_faults.specs.disk_label.Fault.{HasPassed};
ghost use Rattle.domain_making.specs.Making.{AreSlotsReady, IsBeforeNoneOrEmpty, IsNoneOrEmpty, IsOnFirst, pages_in_use};
ghost use Rattle.run_parts.specs.Made.{AreZeroPages, FindsUsed, Guards, MakeEnds, Refuses, TellsOfSmall, WritesNone, is_zero_page, status_of_make_fault};

use crate::status::Status;
use domain_faults::limits::{BLOCKS_PER_PAGE, MIN_FIRST_VOLUME_PAGES, PAGE_BYTES};
use domain_faults::{Rack, Version, VolIx};
use domain_making::{MakeFault, NewPages};
use std::alloc::Global;

/// The status if no domain was made.
fn status_of(fault: &MakeFault) -> Status
    ensures { result ≡ status_of_make_fault fault.now }
{
    match fault {
        MakeFault::VolumeSmall { pages } => Status::VolumeSmall { pages: *pages },
        MakeFault::Fault { vol } => Status::VolumeFault { vol: vol.number() },
        MakeFault::OutOfMemory => Status::OutOfMemory,
    }
}

/// The volume on which a domain is made.
fn first_volume() -> VolIx
    ensures { result ≡ 1 }
{
    let Some(vol) = VolIx::new(1) else {
        unreachable!()
    };
    vol
}

fn are_zeros(bytes: &[u8]) -> bool
    ensures { result ≡ list_all (λ byte. byte == 0) bytes.now }
{
    bytes.iter().all(|byte| *byte == 0)
}

/// Whether all bytes of a page of the first volume are zero, for a page that each domain uses. The
/// error is the volume, if its read failed.
fn is_zero_page<R: Rack>(rack: &mut R, page: u32) -> Result<bool, VolIx>
    requires there { HasVolume (R.disk rack.old) 1 }
    requires large { min_first_volume_pages ≤ volume_pages (R.disk rack.old).sizes 1 }
    requires page { page < min_first_volume_pages }
    ensures reads { OnlyReads (R.disk rack.old) (R.disk rack.new) }
    ensures zeros { IfOk result (λ zeros. Tells (R.disk rack.old)
        → zeros ≡ is_zero_page (R.disk rack.old).now.contents page) }
    ensures fault { NamesReadFault (R.disk rack.old) (R.disk rack.new) result }
{
    let mut bytes = [0; PAGE_BYTES];
    match rack.read(first_volume(), BLOCKS_PER_PAGE * page, &mut bytes) {
        Ok(()) => Ok(are_zeros(&bytes)),
        Err(_) => Err(first_volume()),
    }
}

/// The first page of the first volume with a byte other than zero, of the pages that each domain
/// uses. The error is the volume, if its read failed.
fn first_used<R: Rack>(rack: &mut R) -> Result<Option<u32>, VolIx>
    requires there { HasVolume (R.disk rack.old) 1 }
    requires large { min_first_volume_pages ≤ volume_pages (R.disk rack.old).sizes 1 }
    ensures reads { OnlyReads (R.disk rack.old) (R.disk rack.new) }
    ensures found { IfOk result (FindsUsed (R.disk rack.old)) }
    ensures fault { NamesReadFault (R.disk rack.old) (R.disk rack.new) result }
{
    for page in 0..MIN_FIRST_VOLUME_PAGES {
        if !is_zero_page(rack, page)? {
            return Ok(Some(page));
        }
    }
    Ok(None)
}

/// Refuses a volume that holds something, unless it may be overwritten. It is only read.
fn guard<R: Rack>(rack: &mut R, overwrites: bool) -> Result<(), Status>
    requires there { HasVolume (R.disk rack.old) 1 }
    requires large { min_first_volume_pages ≤ volume_pages (R.disk rack.old).sizes 1 }
    ensures none { WritesNone overwrites (R.disk rack.old) (R.disk rack.new) }
    ensures zeros { OnOk result (overwrites ≡ false → Tells (R.disk rack.old)
        → AreZeroPages min_first_volume_pages (R.disk rack.old).now.contents) }
    ensures passed { OnOk result (HasPassed (R.disk rack.old) (R.disk rack.new)) }
    ensures refuses { IfErr result (λ end. (overwrites ≡ false)
        × Refuses (R.disk rack.old) (R.disk rack.new) end) }
{
    if overwrites {
        return Ok(());
    }
    match first_used(rack) {
        Ok(None) => Ok(()),
        Ok(Some(page)) => Err(Status::Occupied { page }),
        Err(vol) => Err(Status::VolumeFault { vol: vol.number() }),
    }
}

/// Makes an empty domain of this version on a rack's only volume. Unless what that held may be
/// overwritten, the pages are read first that each domain uses, and have to be zeros. If no anchor
/// could count before, each image that a stop leaves on the way has no anchor, or is the empty
/// domain. Else it may also be as before, but for the gates of anchors: no page is overwritten
/// while an anchor of before counts.
pub fn make<R: Rack>(alloc: Global, rack: &mut R, version: Version, overwrites: bool) -> Status
    requires { length (R.disk rack.old).sizes ≡ 1 }
    ensures touches { Touches (R.disk rack.old) (R.disk rack.new) IsOnFirst }
    ensures ends { MakeEnds version overwrites (R.disk rack.old) (R.disk rack.new) result }
    ensures guards { Guards overwrites (R.disk rack.old) (R.disk rack.new) }
    ensures small { TellsOfSmall (R.disk rack.old) result }
    ensures any_moment { let old = R.disk rack.old in
        let pages = pages_in_use version old.sizes in Tells old → AreSlotsReady old
        → LeavesOnly old (R.disk rack.new) (IsNoneOrEmpty old.sizes version pages) }
    ensures over { let old = R.disk rack.old in
        let pages = pages_in_use version old.sizes in Tells old
        → LeavesOnly old (R.disk rack.new) (IsBeforeNoneOrEmpty old version pages) }
{
    let new = match NewPages::on_rack(alloc, rack, version) {
        Ok(new) => new,
        Err(fault) => return status_of(&fault),
    };
    if let Err(status) = guard(rack, overwrites) {
        return status;
    }
    match new.write(rack, version) {
        Ok(_) => Status::Ok,
        Err(fault) => status_of(&fault),
    }
}
