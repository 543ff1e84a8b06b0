//! What the volumes of a rack mean.
ghost use Rattle.std.specs.Prelude.{◌≡◌, ◌↔◌, [], IfErr, IfOk, IsTrue};
ghost use Rattle.domain_faults.specs.Rows.{rows_there};
ghost use Rattle.slot_files.specs.volume_disk.Disk.{Tells};
ghost use Rattle.slot_files.specs.volume_disk.Run.{OnlyReads};
ghost use Rattle.slot_files.specs.filesets_reading.Good.{IsNamed, frame_at};
ghost use Rattle.slot_files.specs.fileset_shapes.Found.{HasAllPages};
ghost use Rattle.slot_files.specs.log_recovery.Outcome.{IsSound};
ghost use Rattle.domain_faults.specs.Meaning.{HasMeaning, IsMeaningOf, IsToldBy, Recovered};
ghost use Rattle.domain_faults.specs.Pages.{HasCause};

use crate::members::read_members;
use crate::{FaultRow, ReadFault, faults};
use slot_files::{
    Anchor, Filesets, MemoryPages, MetaPages, OutOfMemory, Rack, RecoverFault, Redone, Version,
    read_filesets, recover,
};
use std::alloc::Global;

/// What the volumes of a rack mean.
#[derive(Drop)]
pub enum Meaning {
    /// There is no domain: this page of this volume is the first that does not belong to one. Its
    /// label, its anchors, or a group of the log is wrong, in this order.
    NoDomain { vol: u32, at: u32 },
    /// There is a domain whose pages break rules once its log is redone: which rules, and where.
    /// There is at least one row, and each stands once, in the order of rules, volumes and pages.
    Faulty { rows: Vec<FaultRow> },
    /// There is a domain whose pages break no rule, and these are its filesets.
    Filesets { all: Filesets },
}

/// Whether there is no row.
fn is_none(rows: &[FaultRow]) -> bool
    ensures { IsTrue result ↔ (rows_there rows.now ≡ []) }
{
    rows.is_empty()
}

/// What the pages of a domain's members mean.
fn meaning_of_pages<M: MetaPages>(
    alloc: Global,
    pages: &M,
    anchor: &Anchor,
    version: Version,
) -> Result<Meaning, OutOfMemory>
    requires named { IsNamed anchor.now version }
    requires all { HasAllPages (M.pages pages.now) (frame_at anchor.now version) }
    ensures { IfOk result (HasMeaning (M.pages pages.now) anchor.now version) }
{
    let rows = faults(alloc, pages, anchor)?;
    if !is_none(&rows) {
        return Ok(Meaning::Faulty { rows });
    }
    let all = read_filesets(alloc, pages, anchor, version)?;
    Ok(Meaning::Filesets { all })
}

/// What a domain whose log was recovered means.
fn meaning_of_domain<R: Rack>(
    alloc: Global,
    rack: &mut R,
    redone: &Redone,
) -> Result<Meaning, ReadFault>
    requires { IsSound (R.disk rack.old).sizes redone.now }
    ensures reads { OnlyReads (R.disk rack.old) (R.disk rack.new) }
    ensures meaning { let old = R.disk rack.old in IfOk result (λ meaning. Tells old
        → Recovered old redone.now → IsMeaningOf old.sizes old.now.contents meaning) }
    ensures cause { IfErr result (HasCause (R.disk rack.old) (R.disk rack.new)) }
    ensures passed { IfOk result (λ _. (R.disk rack.new).read_faults
        ≡ (R.disk rack.old).read_faults) }
{
    let Some(version) = Version::from_number(redone.anchor.version) else {
        unreachable!()
    };
    let mut pages = MemoryPages::new(alloc);
    match read_members(alloc, rack, redone, &mut pages) {
        Ok(()) => {}
        Err(fault) => return Err(fault),
    }
    match meaning_of_pages(alloc, &pages, &redone.anchor, version) {
        Ok(meaning) => Ok(meaning),
        Err(_) => Err(ReadFault::OutOfMemory),
    }
}

/// What is known of the meaning if no log was recovered.
fn meaning_of_fault(fault: &RecoverFault) -> Result<Meaning, ReadFault>
    ensures { IsToldBy fault.now result }
{
    match fault {
        RecoverFault::NotADomain { vol, at } => Ok(Meaning::NoDomain { vol: *vol, at: *at }),
        RecoverFault::Fault { vol } => Err(ReadFault::Fault { vol: *vol }),
        RecoverFault::OutOfMemory => Err(ReadFault::OutOfMemory),
    }
}

/// Tells what the volumes of a rack mean as they stand there, by what they hold alone. It writes
/// nothing.
///
/// Returns `Fault` only if a read of that volume failed: its count of read faults has risen then,
/// and no other has. Nothing is known of the meaning then, nor if memory ran out.
pub fn read_image<R: Rack>(alloc: Global, rack: &mut R) -> Result<Meaning, ReadFault>
    ensures reads { OnlyReads (R.disk rack.old) (R.disk rack.new) }
    ensures meaning { let old = R.disk rack.old in IfOk result (λ meaning. Tells old
        → IsMeaningOf old.sizes old.now.contents meaning) }
    ensures cause { IfErr result (HasCause (R.disk rack.old) (R.disk rack.new)) }
    ensures passed { IfOk result (λ _. (R.disk rack.new).read_faults
        ≡ (R.disk rack.old).read_faults) }
{
    match recover(alloc, rack) {
        Ok(redone) => meaning_of_domain(alloc, rack, &redone),
        Err(fault) => meaning_of_fault(&fault),
    }
}
