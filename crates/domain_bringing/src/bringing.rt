//! Bringing all pages of a domain from the volumes of a rack.
ghost use Rattle.std.specs.Prelude.{◌≡◌, [], List, ℕ, IfErr, IfOk, IsOk, OnOk};
ghost use Rattle.domain_faults.specs.disk_label.Anchor.{IsWhole};
ghost use Rattle.domain_faults.specs.disk_label.FirstPages.{anchors_page};
ghost use Rattle.domain_faults.specs.domain_layout.Faults.{HasNoFault};
ghost use Rattle.domain_faults.specs.log_recovery.Outcome.{HasRecovered, IsSound};
ghost use Rattle.domain_faults.specs.log_ring.Groups.{Group};
ghost use Rattle.domain_faults.specs.log_ring.Homes.{HasMembers};
ghost use Rattle.image_loading.specs.Loading.{Brings, HasWhereRulesLook};
ghost use Rattle.domain_faults.specs.page_store.Pages.{no_pages};
ghost use Rattle.domain_faults.specs.page_ways.Frame.{frame_in};
ghost use Rattle.domain_faults.specs.filesets_reading.Good.{IsNamed};
ghost use Rattle.staged_pages.specs.Store.{before_of, pages_of};
ghost use Rattle.domain_faults.specs.volume_disk.Disk.{Disk, Tells};
ghost use Rattle.domain_faults.specs.volume_disk.Image.{Image};
ghost use Rattle.domain_faults.specs.volume_disk.Run.{OnlyReads};
ghost use Rattle.domain_bringing.specs.Brought.{HasDomainPages, IsBrought, IsBroughtFrom, IsGoodFrame, IsWholeDomain, images_alone};
ghost use Rattle.domain_faults.specs.Rows.{rows_there};
ghost use Rattle.domain_bringing.specs.Fault.{BeginsAt, HasCause, HasFirstRow, IfNotADomain, IsNoDomain, IsWrongOn};
ghost use Rattle.domain_bringing.specs.declared.fault.BringFault.TheVariants.{NotADomain};

use crate::BringFault;
use crate::files::load_files;
use crate::images::lay_images;
use crate::range::is_in_range;
use domain_faults::{
    ANCHORS_PAGE, DomainFrame, FaultRow, MetaPages, OutOfMemory, Rack, Redone, Version, faults,
    read_filesets, recover,
};
use image_loading::load;
use staged_pages::StagedPages;
use std::alloc::Global;

/// The volume that is named if an anchor is wrong.
const FIRST_VOLUME: u32 = 1;

/// The pages of a domain that are brought from a rack, its anchor, and what was recovered of its
/// log.
#[derive(Drop)]
pub struct Brought {
    pub pages: StagedPages,
    pub frame: DomainFrame,
    pub redone: Redone,
}

/// The fault of a rack without a domain, since its anchor is wrong.
fn bad_anchor() -> BringFault
    ensures { result ≡ NotADomain 1 anchors_page }
{
    BringFault::NotADomain {
        vol: FIRST_VOLUME,
        at: ANCHORS_PAGE,
    }
}

/// The anchor that was recovered, with its version. If what it says does not lie within the
/// members, there is no domain. In what is recovered from an image, it does.
fn frame_of(redone: &Redone) -> Result<DomainFrame, BringFault>
    requires { IsWhole redone.now.anchor }
    ensures good { IfOk result (λ frame. IsGoodFrame (frame_in frame)) }
    ensures anchor { IfOk result (λ frame. frame.anchor ≡ redone.now.anchor) }
    ensures whole { (sizes : List ℕ) (image : Image) (groups : List Group)
        → HasRecovered sizes image groups redone.now → IsOk result }
    ensures wrong { (disk : Disk) → IfErr result (IsWrongOn disk redone.now) }
    ensures cause { (disk : Disk) → IfErr result (HasCause disk disk) }
{
    let anchor = redone.anchor;
    let Some(version) = Version::from_number(anchor.version) else {
        unreachable!()
    };
    let frame = DomainFrame { anchor, version };
    if is_in_range(&frame) {
        Ok(frame)
    } else {
        Err(bad_anchor())
    }
}

/// Refuses pages that break a rule: no domain, at the place of the first row of faults.
fn look_at_rows(rows: &[FaultRow]) -> Result<(), BringFault>
    ensures none { OnOk result (rows_there rows.now ≡ []) }
    ensures first { IfErr result (λ fault. IfNotADomain fault (BeginsAt (rows_there rows.now))) }
    ensures cause { (disk : Disk) → IfErr result (HasCause disk disk) }
{
    match rows.first() {
        None => Ok(()),
        Some(row) => Err(BringFault::NotADomain {
            vol: row.home.vol.number(),
            at: row.home.page,
        }),
    }
}

/// Looks for all faults of pages, and refuses them at the first.
fn look_for_faults<M: MetaPages>(
    alloc: Global,
    pages: &M,
    frame: &DomainFrame,
) -> Result<(), BringFault>
    requires { IsNamed frame.now.anchor frame.now.version }
    ensures none { OnOk result (HasNoFault (M.pages pages.now) (frame_in frame.now)) }
    ensures first { IfErr result (λ fault. IfNotADomain fault
        (HasFirstRow (M.pages pages.now) (frame_in frame.now))) }
    ensures cause { (disk : Disk) → IfErr result (HasCause disk disk) }
{
    let rows = faults(alloc, pages, &frame.anchor)?;
    look_at_rows(&rows)
}

/// Lays the images of the log, and then brings the pages at which the rules look. No page is there
/// before.
fn bring_tables<R: Rack, M: MetaPages>(
    alloc: Global,
    rack: &mut R,
    frame: &DomainFrame,
    redone: &Redone,
    pages: &mut M,
) -> Result<(), BringFault>
    requires none { M.pages pages.old ≡ no_pages }
    requires members { HasMembers (R.disk rack.old).sizes frame.now.anchor }
    requires good { IsGoodFrame (frame_in frame.now) }
    ensures reads { OnlyReads (R.disk rack.old) (R.disk rack.new) }
    ensures brings { OnOk result (Brings (R.disk rack.old) (R.disk rack.new)
        (images_alone redone.now.images) (M.pages pages.new)) }
    ensures looked { OnOk result (HasWhereRulesLook (M.pages pages.new) (frame_in frame.now)) }
    ensures no_place { IfErr result (λ fault. IfNotADomain fault (λ vol at. ⊥)) }
    ensures cause { IfErr result (HasCause (R.disk rack.old) (R.disk rack.new)) }
    ensures passed { OnOk result ((R.disk rack.new).read_faults ≡ (R.disk rack.old).read_faults) }
    ensures before { M.before pages.new ≡ M.before pages.old }
{
    lay_images(alloc, redone.images.as_slice(), pages)?;
    load(alloc, rack, frame, pages)?;
    Ok(())
}

/// Lays the images of the log, brings the pages at which the rules look, and looks for their
/// faults.
fn bring_good_tables<R: Rack, M: MetaPages>(
    alloc: Global,
    rack: &mut R,
    frame: &DomainFrame,
    redone: &Redone,
    pages: &mut M,
) -> Result<(), BringFault>
    requires none { M.pages pages.old ≡ no_pages }
    requires members { HasMembers (R.disk rack.old).sizes frame.now.anchor }
    requires good { IsGoodFrame (frame_in frame.now) }
    requires anchor { frame.now.anchor ≡ redone.now.anchor }
    ensures reads { OnlyReads (R.disk rack.old) (R.disk rack.new) }
    ensures brings { OnOk result (Brings (R.disk rack.old) (R.disk rack.new)
        (images_alone redone.now.images) (M.pages pages.new)) }
    ensures looked { OnOk result (HasWhereRulesLook (M.pages pages.new) (frame_in frame.now)) }
    ensures none { OnOk result (HasNoFault (M.pages pages.new) (frame_in frame.now)) }
    ensures wrong { IfErr result (IsWrongOn (R.disk rack.old) redone.now) }
    ensures cause { IfErr result (HasCause (R.disk rack.old) (R.disk rack.new)) }
    ensures passed { OnOk result ((R.disk rack.new).read_faults ≡ (R.disk rack.old).read_faults) }
    ensures before { M.before pages.new ≡ M.before pages.old }
{
    match bring_tables(alloc, rack, frame, redone, pages) {
        Ok(()) => {}
        Err(fault) => return Err(fault),
    }
    look_for_faults(alloc, pages, frame)
}

/// Brings all pages of a domain. No page is there before. After an error some may have been
/// brought.
fn bring_pages<R: Rack, M: MetaPages>(
    alloc: Global,
    rack: &mut R,
    frame: &DomainFrame,
    redone: &Redone,
    pages: &mut M,
) -> Result<(), BringFault>
    requires none { M.pages pages.old ≡ no_pages }
    requires members { HasMembers (R.disk rack.old).sizes frame.now.anchor }
    requires good { IsGoodFrame (frame_in frame.now) }
    requires anchor { frame.now.anchor ≡ redone.now.anchor }
    ensures reads { OnlyReads (R.disk rack.old) (R.disk rack.new) }
    ensures brings { OnOk result (Brings (R.disk rack.old) (R.disk rack.new)
        (images_alone redone.now.images) (M.pages pages.new)) }
    ensures has { OnOk result (HasDomainPages (M.pages pages.new) (frame_in frame.now)) }
    ensures wrong { IfErr result (IsWrongOn (R.disk rack.old) redone.now) }
    ensures cause { IfErr result (HasCause (R.disk rack.old) (R.disk rack.new)) }
    ensures passed { OnOk result ((R.disk rack.new).read_faults ≡ (R.disk rack.old).read_faults) }
    ensures before { M.before pages.new ≡ M.before pages.old }
{
    match bring_good_tables(alloc, rack, frame, redone, pages) {
        Ok(()) => {}
        Err(fault) => return Err(fault),
    }
    load_files(alloc, rack, frame, pages)?;
    Ok(())
}

/// Reads the filesets that the pages have, to make sure that they have some.
fn look_at_filesets(
    alloc: Global,
    pages: &StagedPages,
    frame: &DomainFrame,
) -> Result<(), OutOfMemory>
    requires good { IsGoodFrame (frame_in frame.now) }
    requires has { HasDomainPages (pages_of pages.now) (frame_in frame.now) }
    ensures { OnOk result (IsWholeDomain (pages_of pages.now) (frame_in frame.now)) }
{
    let _all = read_filesets(alloc, pages, &frame.anchor, frame.version)?;
    Ok(())
}

/// All pages of a domain with this anchor, whose log was recovered.
fn bring_all<R: Rack>(
    alloc: Global,
    rack: &mut R,
    frame: &DomainFrame,
    redone: &Redone,
) -> Result<StagedPages, BringFault>
    requires members { HasMembers (R.disk rack.old).sizes frame.now.anchor }
    requires good { IsGoodFrame (frame_in frame.now) }
    requires anchor { frame.now.anchor ≡ redone.now.anchor }
    ensures reads { OnlyReads (R.disk rack.old) (R.disk rack.new) }
    ensures settled { IfOk result (λ pages. pages_of pages ≡ before_of pages) }
    ensures whole { IfOk result (λ pages.
        IsWholeDomain (before_of pages) (frame_in frame.now)) }
    ensures same { let old = R.disk rack.old in IfOk result (λ pages. Tells old
        → (groups : List Group) → HasRecovered old.sizes old.now.contents groups redone.now
        → IsBroughtFrom old.sizes old.now.contents (before_of pages) redone.now) }
    ensures wrong { IfErr result (IsWrongOn (R.disk rack.old) redone.now) }
    ensures cause { IfErr result (HasCause (R.disk rack.old) (R.disk rack.new)) }
    ensures passed { IfOk result (λ _. (R.disk rack.new).read_faults
        ≡ (R.disk rack.old).read_faults) }
{
    let mut pages = StagedPages::new(alloc);
    match bring_pages(alloc, rack, frame, redone, &mut pages) {
        Ok(()) => {}
        Err(fault) => return Err(fault),
    }
    pages.keep();
    look_at_filesets(alloc, &pages, frame)?;
    Ok(pages)
}

/// The anchor of a domain whose log was recovered, and all its pages.
fn bring_recovered<R: Rack>(
    alloc: Global,
    rack: &mut R,
    redone: &Redone,
) -> Result<(DomainFrame, StagedPages), BringFault>
    requires { IsSound (R.disk rack.old).sizes redone.now }
    ensures reads { OnlyReads (R.disk rack.old) (R.disk rack.new) }
    ensures anchor { IfOk result (λ found. found.0.anchor ≡ redone.now.anchor) }
    ensures settled { IfOk result (λ found. pages_of found.1 ≡ before_of found.1) }
    ensures whole { IfOk result (λ found.
        IsWholeDomain (before_of found.1) (frame_in found.0)) }
    ensures same { let old = R.disk rack.old in IfOk result (λ found. Tells old
        → (groups : List Group) → HasRecovered old.sizes old.now.contents groups redone.now
        → IsBroughtFrom old.sizes old.now.contents (before_of found.1) redone.now) }
    ensures wrong { IfErr result (IsWrongOn (R.disk rack.old) redone.now) }
    ensures cause { IfErr result (HasCause (R.disk rack.old) (R.disk rack.new)) }
    ensures passed { IfOk result (λ _. (R.disk rack.new).read_faults
        ≡ (R.disk rack.old).read_faults) }
{
    let frame = match frame_of(redone) {
        Ok(frame) => frame,
        Err(fault) => return Err(fault),
    };
    match bring_all(alloc, rack, &frame, redone) {
        Ok(pages) => Ok((frame, pages)),
        Err(fault) => Err(fault),
    }
}

/// Brings the pages of a domain from a rack: recovers its log, lays the images of that over no
/// pages, brings each page at which the rules look and looks for faults, and brings the pages of
/// files. It writes nothing. All that the result says is true of the domain that the rack has, once
/// its log is redone.
///
/// Returns `NotADomain` with the first place at which a rule of a domain is broken: label, anchors
/// and log come first, in the order of `recover`, and then the pages in the order of the list of
/// faults. Returns `Fault` only if a read of that volume failed.
pub fn bring_domain<R: Rack>(alloc: Global, rack: &mut R) -> Result<Brought, BringFault>
    ensures reads { OnlyReads (R.disk rack.old) (R.disk rack.new) }
    ensures brought { IfOk result (IsBrought (R.disk rack.old).sizes) }
    ensures same { let old = R.disk rack.old in IfOk result (λ brought. Tells old
        → IsBroughtFrom old.sizes old.now.contents (before_of brought.pages) brought.redone) }
    ensures wrong { let old = R.disk rack.old in IfErr result (λ fault. IfNotADomain fault
        (λ vol at. Tells old → IsNoDomain old.sizes old.now.contents vol at)) }
    ensures cause { IfErr result (HasCause (R.disk rack.old) (R.disk rack.new)) }
    ensures passed { IfOk result (λ _. (R.disk rack.new).read_faults
        ≡ (R.disk rack.old).read_faults) }
{
    let redone = match recover(alloc, rack) {
        Ok(redone) => redone,
        Err(fault) => return Err(BringFault::from(fault)),
    };
    match bring_recovered(alloc, rack, &redone) {
        Ok((frame, pages)) => Ok(Brought {
            pages,
            frame,
            redone,
        }),
        Err(fault) => Err(fault),
    }
}
