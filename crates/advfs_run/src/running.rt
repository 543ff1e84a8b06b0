//! The whole of a run: the words, the script, its commands over a domain, and the printing. Also
//! the making of a domain, and the verifying of an image.
ghost use Rattle.std.specs.Prelude.{◌≡◌, ◌≢◌, ◌≤◌, ℕ, [], List, All, Err, IfErr, IfOk, MatchResult, None, Ok, Option, Some, flat_map, map, string_bytes};
ghost use Rattle.std.specs.Io.KnownBytes.{Appends, Consumes};
ghost use Rattle.domain_attaching.specs.domain_base.Counts.{HasRisen};
ghost use Rattle.domain_attaching.specs.log_recovery.Settling.{Anywhere};
ghost use Rattle.domain_attaching.specs.volume_disk.Run.{Touches};
ghost use Rattle.run_parts.specs.script_text.History.{history_text};
ghost use Rattle.run_parts.specs.script_text.Turns.{turn_of, turns_of};
ghost use Rattle.client_commands.specs.name_commands.Ending.{IsServed};
ghost use Rattle.advfs_run.specs.Quiet.{TellNoFault};
ghost use Rattle.run_parts.specs.Reading.{GetsNoScript, HasRead};
ghost use Rattle.run_parts.specs.Transfer.{AppendsFront};
ghost use Rattle.run_parts.specs.Usage.{FitsForm, form_of};
ghost use Rattle.run_parts.specs.declared.words.Form.TheVariants.{Run};
ghost use Rattle.advfs_run.specs.Runs.{AreStampedWithin, ClosesAs};
ghost use Rattle.advfs_run.specs.Run.{
  CountsFor,
  EndsFor,
  HasReadFor,
  HasSections,
  IsCutShort,
  IsLargeFor,
  IsLostBehind,
  IsPrinted,
  IsRun,
  IsTold,
  LacksScript,
  LeadsFor,
  LeavesRackFor,
  MakeEndsFor,
  NotBegun,
  PrintsAs,
  PrintsFor,
  RunsFor,
  StopsFor,
  VerifyEndsFor,
};

use crate::{Gate, NoGate, Ran, run_new, run_on};
use domain_attaching::{Entry, Rack, Version};
use run_parts::{
    DomainCounts, Findings, Form, MemorySource, Section, Sink, Source, Status, form_asked,
    in_order, make, print_history, take_script, verify,
};
use std::alloc::Global;

/// How a run ended: its status, the rack that it was given, the history of its commands, and what
/// was counted of a domain that was verified.
#[derive(Drop)]
pub struct Ended<R> {
    pub status: Status,
    pub rack: R,
    pub history: Vec<Entry>,
    pub counts: Option<DomainCounts>,
}

impl<R> Ended<R> {
    /// The end of a run in which no command was answered.
    fn unanswered(alloc: Global, status: Status, rack: R) -> Ended<R>
        ensures status { result.status ≡ status }
        ensures rack { result.rack ≡ rack }
        ensures history { result.history.items ≡ [] }
        ensures counts { result.counts ≡ None }
    {
        Ended {
            status,
            rack,
            history: Vec::new(alloc),
            counts: None,
        }
    }
}

/// The sections of the script that a source has, in the order of their clients.
fn take_sections<S: Source>(alloc: Global, source: &mut S) -> Result<Vec<Section>, Status>
    ensures taken { (read : List ℕ) × Consumes (S.left source.old) (S.left source.new) read
        × MatchResult result (λ sections. HasSections (S.left source.new) read sections.items)
        (GetsNoScript (S.left source.new) read) }
    ensures served { IfOk result (λ sections.
        All (λ section. All IsServed section.commands) sections.items) }
    ensures no_usage { (word : ℕ) → result ≢ Err (Status.Usage word) }
    ensures never_falls { S.faults source.old ≤ S.faults source.new }
    ensures source_fault { result ≡ Err Status.SourceFault
        → HasRisen (S.faults source.old) (S.faults source.new) }
{
    let script = take_script(alloc, source)?;
    let sections = in_order(script.clients.into_vec())?;
    Ok(sections)
}

/// Answers the commands of sections over a new domain, or over the domain that the rack holds.
fn answer<R: Rack, G: Gate>(
    alloc: Global,
    form: Form,
    rack: R,
    sections: Vec<Section>,
    gate: &G,
) -> Result<Ran<R>, (R, Status)>
    requires run { IsRun (Ok form) }
    requires fits { FitsForm (R.disk rack).sizes form }
    requires served { All (λ section. All IsServed section.commands) sections.items }
    ensures turns { IfOk result
        (λ ran. map turn_of ran.history.items ≡ flat_map turns_of sections.items) }
    ensures quiet { IfOk result (λ ran. TellNoFault ran.history.items) }
    ensures stamps { IfOk result (λ ran. AreStampedWithin (R.disk rack) (R.disk ran.rack)
        ran.history.items) }
    ensures leads { IfOk result (λ ran. LeadsFor form (R.disk rack) (R.disk ran.rack)
        ran.history.items (ran.end ≡ Status.Ok)) }
    ensures touches { IfOk result (λ ran. Touches (R.disk rack) (R.disk ran.rack) Anywhere) }
    ensures touches_at_fault { IfErr result (λ back.
        Touches (R.disk rack) (R.disk back.0) Anywhere) }
    ensures large { IfOk result (λ _. IsLargeFor form (R.disk rack)) }
    ensures ends { IfOk result (λ ran. ClosesAs (R.disk rack) (R.disk ran.rack) ran.end) }
    ensures none { IfErr result (λ back. NotBegun form (R.disk rack) (R.disk back.0) back.1) }
{
    match form {
        Form::Try { .. } => run_new(alloc, rack, Version::Four, sections, gate),
        _ => run_on(alloc, rack, sections, gate),
    }
}

/// Prints the history of a run that has begun, and tells how it ended.
fn print_ran<R: Rack, K: Sink>(alloc: Global, ran: Ran<R>, sink: &mut K) -> Ended<R>
    requires closed { ran.end ≢ Status.SinkFault }
    requires kept { ran.end ≢ Status.OutOfMemory }
    ensures status { PrintsAs ran.history.items ran.end result.status }
    ensures rack { result.rack ≡ ran.rack }
    ensures history { result.history.items ≡ ran.history.items }
    ensures counts { result.counts ≡ None }
    ensures printed { IsPrinted result.status
        → Appends (K.held sink.old) (K.held sink.new) (history_text ran.history.items) }
    ensures printed_front { AppendsFront (K.held sink.old) (K.held sink.new)
        (history_text ran.history.items) }
    ensures cut_short { IsCutShort result.status ran.history.items (K.held sink.old)
        (K.held sink.new) }
    ensures sink_fault { result.status ≡ Status.SinkFault
        → HasRisen (K.faults sink.old) (K.faults sink.new) }
    ensures sink_count { K.faults sink.old ≤ K.faults sink.new }
{
    let Ran { rack, history, end } = ran;
    let status = match print_history(alloc, sink, history.as_slice()) {
        Ok(()) => end,
        Err(error) => Status::from(error),
    };
    Ended {
        status,
        rack,
        history,
        counts: None,
    }
}

/// Reads a script, answers its commands over a new domain or the domain that the rack holds, and
/// prints the history.
fn run_script<S: Source, R: Rack, K: Sink, G: Gate>(
    alloc: Global,
    form: Form,
    script: &mut S,
    rack: R,
    sink: &mut K,
    gate: &G,
) -> Ended<R>
    requires run { IsRun (Ok form) }
    requires fits { FitsForm (R.disk rack).sizes form }
    ensures read { (read : List ℕ) × Consumes (S.left script.old) (S.left script.new) read
        × HasRead (S.left script.new) read result.status result.history.items }
    ensures runs { RunsFor (Ok form) (R.disk rack) (R.disk result.rack) result.status
        result.history.items }
    ensures touches { Touches (R.disk rack) (R.disk result.rack) Anywhere }
    ensures quiet { TellNoFault result.history.items }
    ensures stamps { AreStampedWithin (R.disk rack) (R.disk result.rack) result.history.items }
    ensures ends { EndsFor (Ok form) (R.disk rack) (R.disk result.rack) result.status }
    ensures lost { IsLostBehind (R.disk rack) (R.disk result.rack) result.status
        result.history.items }
    ensures rack { LacksScript result.status → result.rack ≡ rack }
    ensures counts { result.counts ≡ None }
    ensures printed { IsPrinted result.status
        → Appends (K.held sink.old) (K.held sink.new) (history_text result.history.items) }
    ensures printed_front { AppendsFront (K.held sink.old) (K.held sink.new)
        (history_text result.history.items) }
    ensures cut_short { IsCutShort result.status result.history.items (K.held sink.old)
        (K.held sink.new) }
    ensures no_usage { (word : ℕ) → result.status ≢ Status.Usage word }
    ensures source_fault { result.status ≡ Status.SourceFault
        → HasRisen (S.faults script.old) (S.faults script.new) }
    ensures sink_fault { result.status ≡ Status.SinkFault
        → HasRisen (K.faults sink.old) (K.faults sink.new) }
    ensures source_count { S.faults script.old ≤ S.faults script.new }
    ensures sink_count { K.faults sink.old ≤ K.faults sink.new }
{
    let sections = match take_sections(alloc, script) {
        Ok(sections) => sections,
        Err(status) => return Ended::unanswered(alloc, status, rack),
    };
    match answer(alloc, form, rack, sections, gate) {
        Ok(ran) => print_ran(alloc, ran, sink),
        Err((rack, status)) => Ended::unanswered(alloc, status, rack),
    }
}

/// Answers a script that is given as a text, as `run` does over the domain that the rack holds.
pub fn run_text<R: Rack, K: Sink>(alloc: Global, script: Vec<u8>, rack: R, sink: &mut K) -> Ended<R>
    ensures read { (left : Option (List ℕ)) × (read : List ℕ)
        × Consumes (Some script.items) left read
        × HasRead left read result.status result.history.items }
    ensures touches { Touches (R.disk rack) (R.disk result.rack) Anywhere }
    ensures stamps { AreStampedWithin (R.disk rack) (R.disk result.rack) result.history.items }
    ensures lost { IsLostBehind (R.disk rack) (R.disk result.rack) result.status
        result.history.items }
    ensures runs { RunsFor (Ok Run) (R.disk rack) (R.disk result.rack) result.status
        result.history.items }
    ensures quiet { TellNoFault result.history.items }
    ensures ends { EndsFor (Ok Run) (R.disk rack) (R.disk result.rack) result.status }
    ensures printed { IsPrinted result.status
        → Appends (K.held sink.old) (K.held sink.new) (history_text result.history.items) }
    ensures printed_front { AppendsFront (K.held sink.old) (K.held sink.new)
        (history_text result.history.items) }
    ensures cut_short { IsCutShort result.status result.history.items (K.held sink.old)
        (K.held sink.new) }
{
    let mut source = MemorySource::new(script, Vec::new(alloc));
    run_script(alloc, Form::Run, &mut source, rack, sink, &NoGate)
}

/// Does what the words ask for. `try` and `run` read a script, answer each of its commands over a
/// domain, and print the history: `try` over a new domain of version 4 that is made on the rack's
/// volume, `run` over the domain that the rack has. The domain is closed before the history is
/// printed. The gate is passed before each turn of a client and after its last, with the client's
/// number less one. `mkfdmn` makes an empty domain on the rack's volume and prints nothing; if the
/// volume holds something, only `mkfdmn -o` does.
/// `verify` prints the faults of the domain on the rack, and writes nothing to it.
pub fn run<S: Source, R: Rack + Send, K: Sink, G: Gate + Sync>(
    alloc: Global,
    words: &[String],
    script: &mut S,
    rack: R,
    sink: &mut K,
    gate: &G,
) -> Ended<R>
    requires { IfOk (form_of (map string_bytes words.now)) (FitsForm (R.disk rack).sizes) }

    // What was read. The history has each command of the script once, in order.
    ensures read { (read : List ℕ) × Consumes (S.left script.old) (S.left script.new) read
        × HasReadFor (form_of (map string_bytes words.now)) (S.left script.new) read
        result.status result.history.items }

    // The history is legal: it leads from what the rack held to what it holds.
    ensures legal { RunsFor (form_of (map string_bytes words.now)) (R.disk rack)
        (R.disk result.rack) result.status result.history.items }
    ensures stamps { AreStampedWithin (R.disk rack) (R.disk result.rack) result.history.items }
    ensures touches { Touches (R.disk rack) (R.disk result.rack) Anywhere }

    // No reply tells of a volume: no command is answered as if a call of a device had failed.
    ensures quiet { TellNoFault result.history.items }

    // The text that is printed for a history.
    ensures printed { IsTold (form_of (map string_bytes words.now)) result.status
        → Appends (K.held sink.old) (K.held sink.new) (history_text result.history.items) }
    ensures printed_front { PrintsFor (form_of (map string_bytes words.now))
        (K.held sink.old) (K.held sink.new) result.history.items }
    ensures cut_short { IsCutShort result.status result.history.items (K.held sink.old)
        (K.held sink.new) }

    // The faults that are printed for an image, what is counted of it, and the domain that is made.
    ensures counted { CountsFor (form_of (map string_bytes words.now)) (R.disk rack)
        result.counts }
    ensures verified { VerifyEndsFor (form_of (map string_bytes words.now)) (R.disk rack)
        (R.disk result.rack) result.status (K.held sink.old) (K.held sink.new) }
    ensures made { MakeEndsFor (form_of (map string_bytes words.now)) (R.disk rack)
        (R.disk result.rack) result.status }
    ensures any_moment { StopsFor (form_of (map string_bytes words.now)) (R.disk rack)
        (R.disk result.rack) }
    ensures rack { LeavesRackFor (form_of (map string_bytes words.now)) result.status rack
        result.rack }

    // The causes of the other statuses.
    ensures ends { EndsFor (form_of (map string_bytes words.now)) (R.disk rack)
        (R.disk result.rack) result.status }
    ensures lost { IsLostBehind (R.disk rack) (R.disk result.rack) result.status
        result.history.items }
    ensures usage { MatchResult (form_of (map string_bytes words.now))
        (λ _. (word : ℕ) → result.status ≢ Status.Usage word)
        (λ word. result.status ≡ Status.Usage word) }
    ensures source_fault { result.status ≡ Status.SourceFault
        → HasRisen (S.faults script.old) (S.faults script.new) }
    ensures sink_fault { result.status ≡ Status.SinkFault
        → HasRisen (K.faults sink.old) (K.faults sink.new) }
    ensures source_count { S.faults script.old ≤ S.faults script.new }
    ensures sink_count { K.faults sink.old ≤ K.faults sink.new }
{
    let mut rack = rack;
    let (status, counts) = match form_asked(words) {
        Err(word) => (Status::Usage { word }, None),
        Ok(
            Form::Make {
                version,
                overwrites,
            },
        ) => (make(alloc, &mut rack, version, overwrites), None),
        Ok(Form::Verify) => {
            let Findings { status, counts } = verify(alloc, &mut rack, sink);
            (status, counts)
        }
        Ok(form) => return run_script(alloc, form, script, rack, sink, gate),
    };
    Ended {
        status,
        rack,
        history: Vec::new(alloc),
        counts,
    }
}
