//! Printing the faults of an image.
ghost use Rattle.std.specs.Prelude.{◌≡◌, ◌≤◌, ◌++◌, IfOk, IfSome, OnOk, length};
ghost use Rattle.domain_faults.specs.volume_disk.Disk.{Tells};
ghost use Rattle.domain_faults.specs.domain_base.Counts.{HasRisen};
ghost use Rattle.domain_faults.specs.volume_disk.Run.{OnlyReads};
ghost use Rattle.domain_faults.specs.Rows.{rows_there};
ghost use Rattle.run_parts.specs.Verified.{HasCounts, HasFiles, MeansCounts, PrintEnds, VerifyEnds, fault_line, faults_text, first_code, rows_of, status_of_read_fault};

use crate::sinks::Sink;
use crate::status::Status;
use crate::transfer::write_all;
use domain_faults::{FaultRow, Meaning, OutOfMemory, Rack, ReadFault, push_number, read_image};
use script_text::Owner;
use std::alloc::Global;

/// What is counted of a domain without a fault.
#[derive(Clone, Copy, Debug, PartialEq, Eq)]
pub struct DomainCounts {
    /// Its filesets.
    pub filesets: u64,
    /// Their files and directories, without the roots.
    pub files: u64,
}

/// How verifying ended. If the domain has no fault, also its counts, if there is memory for them.
#[derive(Clone, Copy, Debug, PartialEq, Eq)]
pub struct Findings {
    pub status: Status,
    pub counts: Option<DomainCounts>,
}

/// The code of the fault at the first page that does not belong to a domain: 1 for a label, 2 for
/// the anchors, 3 for a group of the log.
fn first_code(at: u32) -> u32
    ensures { result ≡ first_code at }
{
    match at {
        0 => 1,
        1 => 2,
        _ => 3,
    }
}

/// Adds the line of a fault.
fn push_fault(out: &mut Vec<u8>, vol: u32, page: u32, code: u32) -> Result<(), OutOfMemory>
    ensures { OnOk result (out.new.items ≡ out.old.items ++ fault_line (record {
      code = code;
      home = record { vol = vol; page = page };
    })) }
{
    out.extend_from_slice(b"fault ")?;
    push_number(out, u64::from(vol))?;
    out.push(b' ')?;
    push_number(out, u64::from(page))?;
    out.push(b' ')?;
    push_number(out, u64::from(code))?;
    out.push(b'\n')?;
    Ok(())
}

/// Adds the lines of these faults.
fn push_faults(out: &mut Vec<u8>, rows: &[FaultRow]) -> Result<(), OutOfMemory>
    ensures { OnOk result (out.new.items
        ≡ out.old.items ++ faults_text (rows_there rows.now)) }
{
    for row in rows {
        push_fault(out, row.home.vol.number(), row.home.page, row.rule.code())?;
    }
    Ok(())
}

/// The lines that tell the faults of what an image means, and how many there are.
fn lines_of(alloc: Global, meaning: &Meaning) -> Result<(Vec<u8>, u64), OutOfMemory>
    ensures { IfOk result (λ told. (told.0.items ≡ faults_text (rows_of meaning.now))
        × (told.1 ≡ length (rows_of meaning.now))) }
{
    let mut lines = Vec::new(alloc);
    let count = match meaning {
        Meaning::NoDomain { vol, at } => {
            push_fault(&mut lines, *vol, *at, first_code(*at))?;
            1
        }
        Meaning::Faulty { rows } => {
            push_faults(&mut lines, rows)?;
            rows.len() as u64
        }
        Meaning::Filesets { .. } => 0,
    };
    Ok((lines, count))
}

/// The status if it is not known what an image means.
fn status_of(fault: &ReadFault) -> Status
    ensures { result ≡ status_of_read_fault fault.now }
{
    match fault {
        ReadFault::Fault { vol } => Status::VolumeFault { vol: vol.number() },
        ReadFault::OutOfMemory => Status::OutOfMemory,
    }
}

/// Prints the lines of the faults of what an image means.
fn print_faults<K: Sink>(alloc: Global, sink: &mut K, meaning: &Meaning) -> Status
    ensures ends { PrintEnds (rows_of meaning.now) result (K.held sink.old) (K.held sink.new) }
    ensures sink_fault { result ≡ Status.SinkFault
        → HasRisen (K.faults sink.old) (K.faults sink.new) }
    ensures never_falls { K.faults sink.old ≤ K.faults sink.new }
{
    let Ok((lines, faults)) = lines_of(alloc, meaning) else {
        return Status::OutOfMemory;
    };
    match write_all(sink, lines.as_slice()) {
        Ok(()) if faults == 0 => Status::Ok,
        Ok(()) => Status::Found { faults },
        Err(_) => Status::SinkFault,
    }
}

/// How many files and directories are in the filesets that an image means.
fn count_files(alloc: Global, meaning: &Meaning) -> Result<u64, OutOfMemory>
    ensures { IfOk result (HasFiles meaning.now) }
{
    let Meaning::Filesets { all } = meaning else {
        return Ok(0);
    };
    let items = all.items(alloc)?;
    let mut files: u64 = 0;
    for item in &items {
        if let Some(slot) = all.slot(&item.fileset) {
            let usage = slot.tree.usage(alloc, Owner::Fileset)?;
            files = files.checked_add(usage.files).ok_or(OutOfMemory)?;
        }
    }
    Ok(files)
}

/// What is counted of what an image means; None if it means no filesets, or memory runs out.
fn counts_of(alloc: Global, meaning: &Meaning) -> Option<DomainCounts>
    ensures { IfSome result (HasCounts meaning.now) }
{
    let Meaning::Filesets { all } = meaning else {
        return None;
    };
    let Ok(files) = count_files(alloc, meaning) else {
        return None;
    };
    Some(DomainCounts {
        filesets: all.len() as u64,
        files,
    })
}

/// Prints a line for each fault of the domain on a rack, which is only read. The status is `Found`
/// with the number of faults, or `Ok` if there are none. Nothing is printed if a read failed.
pub fn verify<R: Rack, K: Sink>(alloc: Global, rack: &mut R, sink: &mut K) -> Findings
    ensures reads { OnlyReads (R.disk rack.old) (R.disk rack.new) }
    ensures ends { VerifyEnds (R.disk rack.old) (R.disk rack.new) result.status
        (K.held sink.old) (K.held sink.new) }
    ensures counted { let old = R.disk rack.old in IfSome result.counts
        (λ counts. Tells old → MeansCounts old.sizes old.now.contents counts) }
    ensures sink_fault { result.status ≡ Status.SinkFault
        → HasRisen (K.faults sink.old) (K.faults sink.new) }
    ensures never_falls { K.faults sink.old ≤ K.faults sink.new }
{
    match read_image(alloc, rack) {
        Ok(meaning) => Findings {
            status: print_faults(alloc, sink, &meaning),
            counts: counts_of(alloc, &meaning),
        },
        Err(fault) => Findings {
            status: status_of(&fault),
            counts: None,
        },
    }
}
