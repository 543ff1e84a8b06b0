//! Runs of clients' commands over a domain.
ghost use Rattle.std.specs.Prelude.{◌≡◌, ◌≤◌, ◌<◌, [], Err, IfErr, IfOk, IfSome, None, All, flat_map, length, map, sum_by};
ghost use Rattle.domain_attaching.specs.volume_disk.Disk.{HasVolume, Tells, volume_pages};
ghost use Rattle.domain_attaching.specs.volume_disk.Run.{Touches};
ghost use Rattle.domain_attaching.specs.log_recovery.Settling.{Anywhere};
ghost use Rattle.domain_attaching.specs.page_ways.Frame.{frame_in};
ghost use Rattle.domain_attaching.specs.staged_pages.Store.{before_of};
ghost use Rattle.domain_attaching.specs.domain_base.Limits.{min_first_volume_pages};
ghost use Rattle.domain_attaching.specs.domain_making.Making.{HasNoOtherAnchor};
ghost use Rattle.domain_attaching.specs.Closing.{HasRoomFor};
ghost use Rattle.domain_attaching.specs.domain_memory.Staged.{IsSettled};
ghost use Rattle.client_commands.specs.name_commands.Ending.{IsServed};
ghost use Rattle.advfs_run.specs.Quiet.{TellNoFault};
ghost use Rattle.run_parts.specs.script_text.Turns.{turn_of, turns_of};
ghost use Rattle.advfs_run.specs.Runs.{AreStampedWithin, BeginsNot, ClosesAs, LeadsFrom, LeadsFromNew, MakesNone, RunsFrom};
ghost use Rattle.run_parts.specs.declared.status.Status.TheVariants as status;

use crate::statuses::{status_of_attaching, status_of_making};
use crate::{Gate, answer_sections};
use domain_attaching::{
    Attached, Closed, ClosingRoom, Domain, Entry, Opening, Rack, Told, Version, VolIx, attach,
    close, make,
};
use run_parts::{Section, Status};
use std::alloc::Global;
use std::marker::Brand;

/// A run that has begun and ended: the rack as it is at its end, the commands with their replies,
/// and how the domain was closed.
#[derive(Drop)]
pub struct Ran<R> {
    pub rack: R,
    pub history: Vec<Entry>,
    pub end: Status,
}

/// How many commands the sections have; None if there are 2^64 or more.
fn count_commands(sections: &[Section]) -> Option<usize>
    ensures { IfSome result
        (λ count. count ≡ sum_by (λ section. length section.commands) sections.now) }
{
    let mut count: usize = 0;
    for section in sections {
        count = count.checked_add(section.commands.as_slice().len())?;
    }
    Some(count)
}

/// Closes a domain in which commands were answered, in the room that was taken for that.
fn end_run<R: Rack, O: Opening>(domain: Domain<R, O>, room: ClosingRoom) -> Ran<R>
    requires room { HasRoomFor O.frame.anchor room }
    requires settled { IsSettled domain.memory }
    requires begun { ⟦<Domain<R, O> as Told>⟧.begun domain ≡ None }
    ensures history { result.history.items ≡ ⟦<Domain<R, O> as Told>⟧.history domain }
    ensures legal { ∥ LeadsFrom O.pages O.frame O.sizes (⟦<Domain<R, O> as Told>⟧.history domain)
        (R.disk result.rack) (Tells (R.disk domain.history.rack) × (result.end ≡ status.Ok)) ∥₁ }
    ensures touches { Touches (R.disk domain.history.rack) (R.disk result.rack) Anywhere }
    ensures ends { ClosesAs (R.disk domain.history.rack) (R.disk result.rack) result.end }
{
    match close(domain, room) {
        Ok(Closed { rack, history }) => Ran {
            rack,
            history,
            end: Status::Ok,
        },
        Err((Closed { rack, history }, vol)) => Ran {
            rack,
            history,
            end: Status::VolumeFault { vol: vol.number() },
        },
    }
}

/// Answers the commands of sections in a domain whose history has begun with room for all of them,
/// and closes it in the room that was taken for that.
fn run_begun<R: Rack, O: Opening, G: Gate>(
    alloc: Global,
    domain: Domain<R, O>,
    closing: ClosingRoom,
    sections: Vec<Section>,
    gate: &G,
) -> Ran<R>
    requires closing { HasRoomFor O.frame.anchor closing }
    requires rests { ⟦<Domain<R, O> as Told>⟧.rests domain }
    requires room { sum_by (λ section. length section.commands) sections.items
        ≤ ⟦<Domain<R, O> as Told>⟧.room domain }
    requires settled { IsSettled domain.memory }
    requires first { ⟦<Domain<R, O> as Told>⟧.history domain ≡ [] }
    requires begun { ⟦<Domain<R, O> as Told>⟧.begun domain ≡ None }
    requires served { All (λ section. All IsServed section.commands) sections.items }
    ensures turns { map turn_of result.history.items ≡ flat_map turns_of sections.items }
    ensures quiet { TellNoFault result.history.items }
    ensures stamps { AreStampedWithin (R.disk domain.history.rack) (R.disk result.rack)
        result.history.items }
    ensures legal { ∥ LeadsFrom O.pages O.frame O.sizes result.history.items (R.disk result.rack)
        (Tells (R.disk domain.history.rack) × (result.end ≡ status.Ok)) ∥₁ }
    ensures touches { Touches (R.disk domain.history.rack) (R.disk result.rack) Anywhere }
    ensures ends { ClosesAs (R.disk domain.history.rack) (R.disk result.rack) result.end }
{
    let Some(first) = VolIx::new(1) else {
        unreachable!();
    };
    let domain = answer_sections(domain, alloc, sections, first, gate);
    end_run(domain, closing)
}

/// Begins the history of a domain that was attached or made, with room for `count` entries, and
/// takes the room in which it is closed. If memory runs out for either, the rack is given back.
fn begin_run<R: Rack, O: Opening>(
    alloc: Global,
    attached: Attached<R>,
    count: usize,
) -> Result<(Domain<R, O>, ClosingRoom), R>
    requires pages { O.pages ≡ before_of attached.memory.pages }
    requires frame { O.frame ≡ frame_in attached.memory.frame }
    requires sizes { O.sizes ≡ (R.disk attached.rack).sizes }
    ensures closing { IfOk result (λ begun. HasRoomFor O.frame.anchor begun.1) }
    ensures rests { IfOk result (λ begun. ⟦<Domain<R, O> as Told>⟧.rests begun.0) }
    ensures room { IfOk result (λ begun. count ≤ ⟦<Domain<R, O> as Told>⟧.room begun.0) }
    ensures settled { IfOk result (λ begun. IsSettled begun.0.memory) }
    ensures first { IfOk result (λ begun. ⟦<Domain<R, O> as Told>⟧.history begun.0 ≡ []) }
    ensures begun { IfOk result (λ begun. ⟦<Domain<R, O> as Told>⟧.begun begun.0 ≡ None) }
    ensures rack { IfOk result (λ begun. begun.0.history.rack ≡ attached.rack) }
    ensures back { IfErr result (λ rack. rack ≡ attached.rack) }
{
    let mut domain: Domain<R, O> = Domain::begin(alloc, attached);
    domain.discard();
    let Ok(closing) = ClosingRoom::take(alloc, &domain.memory().frame) else {
        return Err(domain.into_rack());
    };
    match domain.reserve_history(count) {
        Ok(()) => Ok((domain, closing)),
        Err(_) => Err(domain.into_rack()),
    }
}

/// Answers the commands of sections over a domain that was attached or made, and closes it. Room
/// for all of them and for closing is taken before the first; if memory runs out for that, the rack
/// is given back.
fn run_attached<R: Rack, O: Opening, G: Gate>(
    alloc: Global,
    attached: Attached<R>,
    sections: Vec<Section>,
    gate: &G,
) -> Result<Ran<R>, R>
    requires pages { O.pages ≡ before_of attached.memory.pages }
    requires frame { O.frame ≡ frame_in attached.memory.frame }
    requires sizes { O.sizes ≡ (R.disk attached.rack).sizes }
    requires served { All (λ section. All IsServed section.commands) sections.items }
    ensures turns { IfOk result
        (λ ran. map turn_of ran.history.items ≡ flat_map turns_of sections.items) }
    ensures quiet { IfOk result (λ ran. TellNoFault ran.history.items) }
    ensures stamps { IfOk result (λ ran. AreStampedWithin (R.disk attached.rack) (R.disk ran.rack)
        ran.history.items) }
    ensures legal { IfOk result (λ ran. ∥ LeadsFrom O.pages O.frame O.sizes ran.history.items
        (R.disk ran.rack) (Tells (R.disk attached.rack) × (ran.end ≡ status.Ok)) ∥₁) }
    ensures touches { IfOk result (λ ran.
        Touches (R.disk attached.rack) (R.disk ran.rack) Anywhere) }
    ensures ends { IfOk result (λ ran. ClosesAs (R.disk attached.rack) (R.disk ran.rack) ran.end) }
    ensures back { IfErr result (λ rack. rack ≡ attached.rack) }
{
    let Some(count) = count_commands(sections.as_slice()) else {
        return Err(attached.into_rack());
    };
    match begin_run::<R, O>(alloc, attached, count) {
        Ok((domain, closing)) => Ok(run_begun(alloc, domain, closing, sections, gate)),
        Err(rack) => Err(rack),
    }
}

/// Runs the commands of sections over the domain that a rack has: attaches it, answers the
/// commands, one section after another, and closes it. All commands are served ones.
///
/// If the domain is not attached, no command is answered and the status tells why: `NotADomain`,
/// `Unfit`, `VolumeFault` or `OutOfMemory`. `OutOfMemory` is also returned if there is no room for
/// the history or for closing.
///
/// Once the commands are answered, the end is `Ok`, or `VolumeFault` if a write or a sync failed as
/// the domain was closed. A page that cannot be read while closing is written.
pub fn run_on<R: Rack, G: Gate>(
    alloc: Global,
    rack: R,
    sections: Vec<Section>,
    gate: &G,
) -> Result<Ran<R>, (R, Status)>
    requires served { All (λ section. All IsServed section.commands) sections.items }
    ensures turns { IfOk result
        (λ ran. map turn_of ran.history.items ≡ flat_map turns_of sections.items) }
    ensures quiet { IfOk result (λ ran. TellNoFault ran.history.items) }
    ensures stamps { IfOk result (λ ran. AreStampedWithin (R.disk rack) (R.disk ran.rack)
        ran.history.items) }
    ensures legal { IfOk result (λ ran. RunsFrom (R.disk rack) (R.disk ran.rack) ran.history.items
        (ran.end ≡ status.Ok)) }
    ensures touches { IfOk result (λ ran. Touches (R.disk rack) (R.disk ran.rack) Anywhere) }
    ensures touches_at_fault { IfErr result (λ back.
        Touches (R.disk rack) (R.disk back.0) Anywhere) }
    ensures ends { IfOk result (λ ran. ClosesAs (R.disk rack) (R.disk ran.rack) ran.end) }
    ensures none { IfErr result (λ back. BeginsNot (R.disk rack) (R.disk back.0) back.1) }
{
    match attach(alloc, rack) {
        Ok(attached) => match run_attached::<R, Brand, G>(alloc, attached, sections, gate) {
            Ok(ran) => Ok(ran),
            Err(rack) => Err((rack, Status::OutOfMemory)),
        },
        Err((rack, fault)) => Err((rack, status_of_attaching(&fault))),
    }
}

/// Makes an empty domain of this version on a rack's first volume, whatever that held, and runs the
/// commands of sections over it as `run_on` does.
///
/// If no domain is made, the status tells why: `VolumeSmall` if and only if the volume has fewer
/// than 160 pages, `VolumeFault`, or `OutOfMemory`, which is also returned if there is no room for
/// the history or for closing.
pub fn run_new<R: Rack, G: Gate>(
    alloc: Global,
    rack: R,
    version: Version,
    sections: Vec<Section>,
    gate: &G,
) -> Result<Ran<R>, (R, Status)>
    requires there { HasVolume (R.disk rack) 1 }
    requires others { Tells (R.disk rack) → HasNoOtherAnchor (R.disk rack) }
    requires served { All (λ section. All IsServed section.commands) sections.items }
    ensures turns { IfOk result
        (λ ran. map turn_of ran.history.items ≡ flat_map turns_of sections.items) }
    ensures quiet { IfOk result (λ ran. TellNoFault ran.history.items) }
    ensures stamps { IfOk result (λ ran. AreStampedWithin (R.disk rack) (R.disk ran.rack)
        ran.history.items) }
    ensures legal { IfOk result (λ ran. ∥ LeadsFromNew version (R.disk rack).sizes
        ran.history.items (R.disk ran.rack) (Tells (R.disk rack) × (ran.end ≡ status.Ok)) ∥₁) }
    ensures touches { IfOk result (λ ran. Touches (R.disk rack) (R.disk ran.rack) Anywhere) }
    ensures touches_at_fault { IfErr result (λ back.
        Touches (R.disk rack) (R.disk back.0) Anywhere) }
    ensures ends { IfOk result (λ ran. ClosesAs (R.disk rack) (R.disk ran.rack) ran.end) }
    ensures small { let pages = volume_pages (R.disk rack).sizes 1 in
        pages < min_first_volume_pages → result ≡ Err (rack, status.VolumeSmall pages) }
    ensures none { IfErr result (λ back. MakesNone (R.disk rack) (R.disk back.0) back.1) }
{
    match make(alloc, rack, version) {
        Ok(made) => match run_attached::<R, Brand, G>(alloc, made, sections, gate) {
            Ok(ran) => Ok(ran),
            Err(rack) => Err((rack, Status::OutOfMemory)),
        },
        Err((rack, fault)) => Err((rack, status_of_making(&fault))),
    }
}
