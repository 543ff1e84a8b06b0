//! The pages of a domain's members, as they are once the log is redone.
ghost use Rattle.std.specs.Prelude.{◌≡◌, ◌<◌, ◌≤◌, ◌^◌, length, IfErr, IfOk, OnOk};
ghost use Rattle.slot_files.specs.domain_base.declared.place.Home.{Home};
ghost use Rattle.slot_files.specs.volume_disk.Disk.{Tells, volume_pages};
ghost use Rattle.slot_files.specs.volume_disk.Image.{page_at};
ghost use Rattle.slot_files.specs.volume_disk.Run.{NamesReadFault, OnlyReads};
ghost use Rattle.slot_files.specs.log_ring.Homes.{HasMembers, IsMember, member_of as member_there};
ghost use Rattle.domain_faults.specs.Pages.{HasCause, IsOnRack, IsReadAt, PutsPage, is_redone};

use crate::ReadFault;
use slot_files::limits::{BLOCKS_PER_PAGE, MAX_VOLUMES, PAGE_BYTES};
use slot_files::{
    Anchor, Home, MetaPages, OutOfMemory, Page, Rack, Redone, VolIx, image_of, is_member,
    member_of, read_blocks,
};
use std::alloc::Global;

/// A page with these bytes.
fn page_of(alloc: Global, bytes: &[u8]) -> Result<Page, OutOfMemory>
    requires { length bytes.now ≡ PAGE_BYTES }
    ensures { IfOk result (λ page. page ≡ bytes.now) }
{
    let mut page = Page::zeros(alloc)?;
    page.set(0, bytes);
    Ok(page)
}

/// A page of a rack.
fn read_page<R: Rack>(alloc: Global, rack: &mut R, home: &Home) -> Result<Page, ReadFault>
    requires { IsOnRack (R.disk rack.old).sizes home.now }
    ensures reads { OnlyReads (R.disk rack.old) (R.disk rack.new) }
    ensures page { let old = R.disk rack.old in IfOk result (λ page. Tells old
        → page ≡ page_at old.now.contents home.now.vol home.now.page) }
    ensures cause { IfErr result (HasCause (R.disk rack.old) (R.disk rack.new)) }
    ensures passed { IfOk result (λ _. (R.disk rack.new).read_faults
        ≡ (R.disk rack.old).read_faults) }
{
    let mut bytes = vec![in alloc; 0; PAGE_BYTES]?;
    match read_blocks(rack, home.vol, BLOCKS_PER_PAGE * home.page, &mut bytes) {
        Ok(()) => {}
        Err(vol) => return Err(ReadFault::Fault { vol }),
    }
    match page_of(alloc, &bytes) {
        Ok(page) => Ok(page),
        Err(_) => Err(ReadFault::OutOfMemory),
    }
}

/// A page of a rack as it is once the log is redone: the page of the last image for its home, or
/// the page that stands there.
fn redone_page<R: Rack>(
    alloc: Global,
    rack: &mut R,
    redone: &Redone,
    home: &Home,
) -> Result<Page, ReadFault>
    requires { IsOnRack (R.disk rack.old).sizes home.now }
    ensures reads { OnlyReads (R.disk rack.old) (R.disk rack.new) }
    ensures page { let old = R.disk rack.old in IfOk result (λ page. Tells old
        → is_redone redone.now.images old.now.contents home.now page) }
    ensures cause { IfErr result (HasCause (R.disk rack.old) (R.disk rack.new)) }
    ensures passed { IfOk result (λ _. (R.disk rack.new).read_faults
        ≡ (R.disk rack.old).read_faults) }
{
    match image_of(redone.images.as_slice(), *home) {
        Some(page) => match page.copy(alloc) {
            Ok(page) => Ok(page),
            Err(_) => Err(ReadFault::OutOfMemory),
        },
        None => read_page(alloc, rack, home),
    }
}

/// Puts a page among the pages that were read.
fn put_page<R: Rack, M: MetaPages>(
    alloc: Global,
    rack: &mut R,
    redone: &Redone,
    home: &Home,
    pages: &mut M,
) -> Result<(), ReadFault>
    requires { IsOnRack (R.disk rack.old).sizes home.now }
    ensures reads { OnlyReads (R.disk rack.old) (R.disk rack.new) }
    ensures put { OnOk result (PutsPage (R.disk rack.old) redone.now.images home.now
        (M.pages pages.old) (M.pages pages.new)) }
    ensures cause { IfErr result (HasCause (R.disk rack.old) (R.disk rack.new)) }
    ensures passed { OnOk result ((R.disk rack.new).read_faults ≡ (R.disk rack.old).read_faults) }
{
    let page = match redone_page(alloc, rack, redone, home) {
        Ok(page) => page,
        Err(fault) => return Err(fault),
    };
    match pages.reserve(alloc, 1) {
        Ok(()) => {}
        Err(_) => return Err(ReadFault::OutOfMemory),
    }
    pages.put(*home, page);
    Ok(())
}

/// The pages of a volume, if it is a member.
fn pages_of(anchor: &Anchor, vol: VolIx) -> u32
    ensures member { IsMember anchor.now vol
        → result ≡ (member_there anchor.now vol).pages }
    ensures other { ¬ IsMember anchor.now vol → result ≡ 0 }
{
    if is_member(anchor, vol) {
        member_of(anchor, vol).pages
    } else {
        0
    }
}

/// Puts the pages of a volume among the pages that were read.
fn read_volume<R: Rack, M: MetaPages>(
    alloc: Global,
    rack: &mut R,
    redone: &Redone,
    vol: VolIx,
    count: u32,
    pages: &mut M,
) -> Result<(), ReadFault>
    requires { (home : Home) → home.vol ≡ vol → home.page < count
        → IsOnRack (R.disk rack.old).sizes home }
    ensures reads { OnlyReads (R.disk rack.old) (R.disk rack.new) }
    ensures pages { OnOk result ((home : Home) → home.vol ≡ vol → home.page < count
        → IsReadAt (R.disk rack.old) redone.now.images (M.pages pages.new) home) }
    ensures kept { OnOk result ((home : Home)
        → IsReadAt (R.disk rack.old) redone.now.images (M.pages pages.old) home
        → IsReadAt (R.disk rack.old) redone.now.images (M.pages pages.new) home) }
    ensures cause { IfErr result (HasCause (R.disk rack.old) (R.disk rack.new)) }
    ensures passed { OnOk result ((R.disk rack.new).read_faults ≡ (R.disk rack.old).read_faults) }
{
    for page in 0..count {
        match put_page(alloc, rack, redone, &Home { vol, page }, pages) {
            Ok(()) => {}
            Err(fault) => return Err(fault),
        }
    }
    Ok(())
}

/// Puts each page of each member of a domain among the pages that were read.
pub(crate) fn read_members<R: Rack, M: MetaPages>(
    alloc: Global,
    rack: &mut R,
    redone: &Redone,
    pages: &mut M,
) -> Result<(), ReadFault>
    requires { HasMembers (R.disk rack.old).sizes redone.now.anchor }
    ensures reads { OnlyReads (R.disk rack.old) (R.disk rack.new) }
    ensures pages { OnOk result ((home : Home) → IsMember redone.now.anchor home.vol
        → home.page < (member_there redone.now.anchor home.vol).pages
        → IsReadAt (R.disk rack.old) redone.now.images (M.pages pages.new) home) }
    ensures cause { IfErr result (HasCause (R.disk rack.old) (R.disk rack.new)) }
    ensures passed { OnOk result ((R.disk rack.new).read_faults ≡ (R.disk rack.old).read_faults) }
{
    for number in 1..MAX_VOLUMES + 1 {
        let Some(vol) = VolIx::new(number) else {
            unreachable!()
        };
        let count = pages_of(&redone.anchor, vol);
        match read_volume(alloc, rack, redone, vol, count, pages) {
            Ok(()) => {}
            Err(fault) => return Err(fault),
        }
    }
    Ok(())
}
