//! The groups of a log, read one after the other.
ghost use Rattle.std.specs.Prelude.{
  ◌≡◌,
  ◌+◌,
  ◌%◌,
  ◌^◌,
  ◌<◌,
  ◌≤◌,
  ◌↔◌,
  List,
  IfErr,
  IfOk,
  IsTrue,
  OnOk,
  length,
  slice_get,
};
ghost use Rattle.log_ring.specs.domain_base.Limits.{log_pages, page_bytes};
ghost use Rattle.log_ring.specs.volume_disk.Disk.{Tells, volume_pages};
ghost use Rattle.log_ring.specs.volume_disk.Image.{page_at};
ghost use Rattle.log_ring.specs.volume_disk.Run.{OnlyReads};
ghost use Rattle.log_ring.specs.Header.{IsRead, IsSayable};
ghost use Rattle.log_ring.specs.Groups.{Group};
ghost use Rattle.log_ring.specs.Homes.{AreLoggable, IsLoggable};
ghost use Rattle.log_ring.specs.Ring.{IsRing, place_at, ring_page as page_of_place};
ghost use Rattle.log_recovery.specs.Fault.{HasCause, IfNotADomain};
ghost use Rattle.log_recovery.specs.Groups.{
  AddsImages,
  AreAllLoggable,
  HasScanned,
  HasScannedAll,
  IsFirstNoGroup,
  IsNoGroup,
  IsOneMore,
  IsSaid,
  MayBeNext,
  TakesGroup,
};
ghost use Rattle.log_recovery.specs.declared.fault.RecoverFault.TheVariants.{NotADomain};

use crate::RecoverFault;
use log_ring::limits::{BLOCKS_PER_PAGE, LOG_PAGES, PAGE_BYTES};
use log_ring::{
    ANCHORS_PAGE, Anchor, Header, HeaderRead, Home, OutOfMemory, Page, PageImage, Rack, VolIx,
    is_member, member_of, read_blocks, read_header, ring_page,
};
use std::alloc::Global;

/// What was read of a log so far.
#[derive(Drop)]
pub(crate) struct Scan {
    /// The images of its groups, in their order.
    pub(crate) images: Vec<PageImage>,
    /// The places of the log from its start on that the groups take.
    pub(crate) used: u32,
    /// The number of the next group.
    pub(crate) next: u64,
}

/// A page with these bytes.
fn page_of(alloc: Global, bytes: &[u8]) -> Result<Page, OutOfMemory>
    requires { length bytes.now ≡ PAGE_BYTES }
    ensures { IfOk result (λ page. page ≡ bytes.now) }
{
    let mut page = Page::zeros(alloc)?;
    page.set(0, bytes);
    Ok(page)
}

/// The page at a place of the log, counted from its first place and past the end of the ring.
fn read_place<R: Rack>(
    alloc: Global,
    rack: &mut R,
    anchor: &Anchor,
    place: u32,
) -> Result<Page, RecoverFault>
    requires { IsRing (R.disk rack.old).sizes anchor.now }
    ensures reads { OnlyReads (R.disk rack.old) (R.disk rack.new) }
    ensures page { let old = R.disk rack.old in IfOk result (λ page. Tells old
        → page ≡ place_at old.now.contents anchor.now place) }
    ensures none { IfErr result (λ fault. IfNotADomain fault (λ _ _. ⊥)) }
    ensures cause { IfErr result (HasCause (R.disk rack.old) (R.disk rack.new)) }
    ensures passed { IfOk result (λ _. (R.disk rack.new).read_faults
        ≡ (R.disk rack.old).read_faults) }
{
    let Some(vol) = VolIx::new(anchor.log_vol) else {
        unreachable!()
    };
    let block = BLOCKS_PER_PAGE * ring_page(anchor, place);
    let mut bytes = vec![in alloc; 0; PAGE_BYTES]?;
    match read_blocks(rack, vol, block, &mut bytes) {
        Ok(()) => {}
        Err(vol) => return Err(RecoverFault::Fault { vol }),
    }
    match page_of(alloc, &bytes) {
        Ok(page) => Ok(page),
        Err(_) => Err(RecoverFault::OutOfMemory),
    }
}

/// Whether a page may be logged under an anchor: a page of a member, after its label and anchors
/// and outside of the log.
pub fn is_loggable(anchor: &Anchor, home: &Home) -> bool
    ensures { IsTrue result ↔ IsLoggable anchor.now home.now }
{
    let vol = home.vol;
    let page = home.page;
    let on_log = vol.number() == anchor.log_vol
        && anchor.log_page <= page
        && page - anchor.log_page < LOG_PAGES;
    let inside = ANCHORS_PAGE < page && page < member_of(anchor, vol).pages;
    is_member(anchor, vol) && inside && !on_log
}

/// Whether each of these pages may be logged.
fn are_loggable(anchor: &Anchor, homes: &[Home]) -> bool
    ensures { IsTrue result ↔ AreAllLoggable anchor.now homes.now }
{
    for home in homes {
        if !is_loggable(anchor, home) {
            return false;
        }
    }
    true
}

/// Reads the header at a place of the log.
fn read_next<R: Rack>(
    alloc: Global,
    rack: &mut R,
    anchor: &Anchor,
    place: u32,
) -> Result<HeaderRead, RecoverFault>
    requires { IsRing (R.disk rack.old).sizes anchor.now }
    ensures reads { OnlyReads (R.disk rack.old) (R.disk rack.new) }
    ensures header { let old = R.disk rack.old in IfOk result (λ read. Tells old
        → IsRead (place_at old.now.contents anchor.now place) read) }
    ensures said { IfOk result IsSaid }
    ensures none { IfErr result (λ fault. IfNotADomain fault (λ _ _. ⊥)) }
    ensures cause { IfErr result (HasCause (R.disk rack.old) (R.disk rack.new)) }
    ensures passed { IfOk result (λ _. (R.disk rack.new).read_faults
        ≡ (R.disk rack.old).read_faults) }
{
    match read_place(alloc, rack, anchor, place) {
        Ok(page) => match read_header(alloc, &page) {
            Ok(read) => Ok(read),
            Err(_) => Err(RecoverFault::OutOfMemory),
        },
        Err(fault) => Err(fault),
    }
}

/// Whether a header may be that of the next group.
fn may_be_next(anchor: &Anchor, scan: &Scan, header: &Header) -> bool
    requires { IsSayable header.now }
    ensures { IsTrue result ↔ MayBeNext anchor.now scan.now.used scan.now.next header.now }
{
    let homes = header.homes.as_slice();
    let after = u64::from(scan.used) + homes.len() as u64 + 2;
    header.number == scan.next && after <= u64::from(LOG_PAGES) && are_loggable(anchor, homes)
}

/// Reads the images that have these homes from a place of the log on.
fn read_images<R: Rack>(
    alloc: Global,
    rack: &mut R,
    anchor: &Anchor,
    place: u32,
    homes: &[Home],
    images: &mut Vec<PageImage>,
) -> Result<(), RecoverFault>
    requires ring { IsRing (R.disk rack.old).sizes anchor.now }
    requires place { place + length homes.now < 2 ^ 32 }
    ensures reads { OnlyReads (R.disk rack.old) (R.disk rack.new) }
    ensures added { OnOk result (AddsImages (R.disk rack.old) anchor.now place homes.now
        images.old.items images.new.items) }
    ensures none { IfErr result (λ fault. IfNotADomain fault (λ _ _. ⊥)) }
    ensures cause { IfErr result (HasCause (R.disk rack.old) (R.disk rack.new)) }
    ensures passed { OnOk result ((R.disk rack.new).read_faults ≡ (R.disk rack.old).read_faults) }
{
    for (i, home) in homes.iter().enumerate() {
        let home = *home;
        match read_place(alloc, rack, anchor, place + i as u32) {
            Ok(page) => images.push(PageImage { home, page })?,
            Err(fault) => return Err(fault),
        }
    }
    Ok(())
}

/// Reads the images of the next group, which has this header.
fn take_group<R: Rack>(
    alloc: Global,
    rack: &mut R,
    anchor: &Anchor,
    scan: &mut Scan,
    header: &Header,
) -> Result<(), RecoverFault>
    requires ring { IsRing (R.disk rack.old).sizes anchor.now }
    requires start { anchor.now.start < log_pages }
    requires next { MayBeNext anchor.now scan.old.used scan.old.next header.now }
    requires said { IsSayable header.now }
    ensures reads { OnlyReads (R.disk rack.old) (R.disk rack.new) }
    ensures taken { OnOk result
        (TakesGroup (R.disk rack.old) anchor.now header.now scan.old scan.new) }
    ensures none { IfErr result (λ fault. IfNotADomain fault (λ _ _. ⊥)) }
    ensures cause { IfErr result (HasCause (R.disk rack.old) (R.disk rack.new)) }
    ensures passed { OnOk result ((R.disk rack.new).read_faults ≡ (R.disk rack.old).read_faults) }
{
    let homes = header.homes.as_slice();
    let place = anchor.start + scan.used + 1;
    match read_images(alloc, rack, anchor, place, homes, &mut scan.images) {
        Ok(()) => {}
        Err(fault) => return Err(fault),
    }
    scan.used += 1 + homes.len() as u32;
    scan.next += 1;
    Ok(())
}

/// There is no domain, since a gate at a place of the log is open and no group follows it.
fn no_group(anchor: &Anchor, place: u32) -> RecoverFault
    requires { anchor.now.log_page + log_pages < 2 ^ 32 }
    ensures { result ≡ NotADomain anchor.now.log_vol (page_of_place anchor.now place) }
{
    RecoverFault::NotADomain {
        vol: anchor.log_vol,
        at: ring_page(anchor, place),
    }
}

/// Reads the images of the group with this header, if it may be next. Otherwise there is no domain.
fn next_group<R: Rack>(
    alloc: Global,
    rack: &mut R,
    anchor: &Anchor,
    scan: &mut Scan,
    header: &Header,
) -> Result<(), RecoverFault>
    requires ring { IsRing (R.disk rack.old).sizes anchor.now }
    requires start { anchor.now.start < log_pages }
    requires used { scan.old.used < log_pages }
    requires said { IsSayable header.now }
    ensures reads { OnlyReads (R.disk rack.old) (R.disk rack.new) }
    ensures next { OnOk result (MayBeNext anchor.now scan.old.used scan.old.next header.now) }
    ensures taken { OnOk result
        (TakesGroup (R.disk rack.old) anchor.now header.now scan.old scan.new) }
    ensures wrong { IfErr result (λ fault. IfNotADomain fault (λ vol at.
        (vol ≡ anchor.now.log_vol)
        × (at ≡ page_of_place anchor.now (anchor.now.start + scan.old.used))
        × (¬ MayBeNext anchor.now scan.old.used scan.old.next header.now))) }
    ensures cause { IfErr result (HasCause (R.disk rack.old) (R.disk rack.new)) }
    ensures passed { OnOk result ((R.disk rack.new).read_faults ≡ (R.disk rack.old).read_faults) }
{
    if !may_be_next(anchor, scan, header) {
        return Err(no_group(anchor, anchor.start + scan.used));
    }
    take_group(alloc, rack, anchor, scan, header)
}

/// Reads the next group, and returns whether there was one. There is none if its gate is closed. If
/// the gate is open and the next group does not follow it, there is no domain.
fn read_group<R: Rack>(
    alloc: Global,
    rack: &mut R,
    anchor: &Anchor,
    scan: &mut Scan,
) -> Result<bool, RecoverFault>
    requires ring { IsRing (R.disk rack.old).sizes anchor.now }
    requires start { anchor.now.start < log_pages }
    requires used { scan.old.used < log_pages }
    ensures reads { OnlyReads (R.disk rack.old) (R.disk rack.new) }
    ensures used { OnOk result (scan.new.used < log_pages) }
    ensures longer { IfOk result (λ more. IsTrue more → scan.old.used < scan.new.used) }
    ensures loggable { OnOk result (AreLoggable anchor.now scan.old.images.items
        → AreLoggable anchor.now scan.new.images.items) }
    ensures more { let old = R.disk rack.old in IfOk result (λ more. Tells old
        → (groups : List Group) → HasScanned old.now.contents anchor.now groups scan.old
        → IsOneMore old.now.contents anchor.now groups scan.old scan.new more) }
    ensures wrong { let old = R.disk rack.old in IfErr result (λ fault. IfNotADomain fault
        (λ vol at. (vol ≡ anchor.now.log_vol)
        × (at ≡ page_of_place anchor.now (anchor.now.start + scan.old.used))
        × (Tells old → IsNoGroup old.now.contents anchor.now scan.old.used scan.old.next))) }
    ensures cause { IfErr result (HasCause (R.disk rack.old) (R.disk rack.new)) }
    ensures passed { OnOk result ((R.disk rack.new).read_faults ≡ (R.disk rack.old).read_faults) }
{
    let place = anchor.start + scan.used;
    match read_next(alloc, rack, anchor, place) {
        Ok(HeaderRead::Closed) => Ok(false),
        Ok(HeaderRead::Bad) => Err(no_group(anchor, place)),
        Ok(HeaderRead::Group(header)) => match next_group(alloc, rack, anchor, scan, &header) {
            Ok(()) => Ok(true),
            Err(fault) => Err(fault),
        },
        Err(fault) => Err(fault),
    }
}

/// Reads all groups of the log of an anchor.
pub(crate) fn read_groups<R: Rack>(
    alloc: Global,
    rack: &mut R,
    anchor: &Anchor,
) -> Result<Scan, RecoverFault>
    requires ring { IsRing (R.disk rack.old).sizes anchor.now }
    requires start { anchor.now.start < log_pages }
    ensures reads { OnlyReads (R.disk rack.old) (R.disk rack.new) }
    ensures used { IfOk result (λ scan. scan.used < log_pages) }
    ensures loggable { IfOk result (λ scan. AreLoggable anchor.now scan.images.items) }
    ensures groups { let old = R.disk rack.old in IfOk result (λ scan. Tells old
        → HasScannedAll old.now.contents anchor.now scan) }
    ensures wrong { let old = R.disk rack.old in IfErr result (λ fault. IfNotADomain fault
        (λ vol at. Tells old → IsFirstNoGroup old.now.contents anchor.now vol at)) }
    ensures cause { IfErr result (HasCause (R.disk rack.old) (R.disk rack.new)) }
    ensures passed { IfOk result (λ _. (R.disk rack.new).read_faults
        ≡ (R.disk rack.old).read_faults) }
{
    let mut scan = Scan {
        images: Vec::new(alloc),
        used: 0,
        next: anchor.group,
    };
    loop {
        match read_group(alloc, rack, anchor, &mut scan) {
            Ok(true) => {}
            Ok(false) => return Ok(scan),
            Err(fault) => return Err(fault),
        }
    }
}
