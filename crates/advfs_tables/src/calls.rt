//! Runs of the program over sources and sinks in memory, and how they come out.
ghost use Rattle.std.specs.Prelude.{◌≡◌, IfOk, map, string_bytes};
ghost use Rattle.advfs_run.specs.memory_disk.Memory.{memory_disk};
ghost use Rattle.advfs_run.specs.run_parts.Usage.{FitsForm, form_of};

use crate::image::{Image, image_on};
use crate::recorder::Recorder;
use advfs_run::{
    Ended, Form, MemoryRack, MemorySink, MemorySource, Rack, Status, form_asked, new_rack, run,
};
use std::alloc::{AllocError, Global};

/// What a run is given.
#[derive(Drop)]
pub struct Call {
    pub words: Vec<String>,
    pub script: Vec<u8>,
    /// Which calls of the source and of the sink are refused.
    pub source_fails: Vec<u64>,
    pub sink_fails: Vec<u64>,
}

/// How a run comes out.
#[derive(Drop)]
pub struct Outcome {
    /// A line with the status and the exit number, and then the text that was printed.
    pub told: Vec<u8>,
    /// Who passed the gate.
    pub passed: u64,
    /// How many calls of the rack it made.
    pub calls: u64,
}

/// A line with the status and the exit number of a run, and what the sink has.
fn told(alloc: Global, status: Status, sink: &MemorySink) -> Result<Vec<u8>, AllocError> {
    let number = status.exit_number();
    let line = format!(in alloc; "{status} {number}\n")?;
    let mut told = Vec::from_slice(alloc, line.as_bytes())?;
    told.extend_from_slice(sink.bytes())?;
    Ok(told)
}

/// How a run ends over a rack, and the rack after it.
fn ended(alloc: Global, rack: MemoryRack, call: Call) -> Result<(MemoryRack, Outcome), AllocError>
    requires { let form = form_of (map string_bytes call.words.items) in
        IfOk form (FitsForm (memory_disk rack).sizes) }
{
    let before = rack.calls();
    let gate = Recorder::new();
    let mut source = MemorySource::new(call.script, call.source_fails);
    let mut sink = MemorySink::new(alloc, call.sink_fails);
    let ended = run(alloc, &call.words, &mut source, rack, &mut sink, &gate);
    let Ended { status, rack, .. } = ended;
    let outcome = Outcome {
        told: told(alloc, status, &sink)?,
        passed: gate.digits(),
        calls: rack.calls().saturating_sub(before),
    };
    Ok((rack, outcome))
}

/// How a call ends, over a new domain if it asks for one or else over an image, and the image after
/// it.
pub fn run_on(alloc: Global, image: Image, call: Call) -> Result<(Image, Outcome), AllocError> {
    if let Ok(Form::Try { pages }) = form_asked(&call.words) {
        let (_, outcome) = ended(alloc, new_rack(alloc, pages)?, call)?;
        return Ok((image, outcome));
    }
    let Image { rack, .. } = image;
    let (rack, outcome) = ended(alloc, rack, call)?;
    Ok((image_on(alloc, rack)?, outcome))
}
