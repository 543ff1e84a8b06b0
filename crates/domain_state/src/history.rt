//! The commands of a domain since it was opened.
ghost use Rattle.std.specs.Prelude.{◌≡◌, ◌+◌, ◌-◌, ◌≤◌, ◌∷◌, ◌++◌, [], None, OnOk, false, true, if◌then◌else◌, length, vec_capacity};
ghost use Rattle.no_faults.specs.legal_histories.GoingOn.{job_left};
ghost use Rattle.domain_state.specs.History.{AreStamped, IsCalm, NonePanicked, with_last_stamped};

use no_faults::{Actor, Command, Entry, OutOfMemory, Rack};
use std::alloc::Global;

/// The commands of a domain since it was opened, with their replies, how many of them last, the
/// mover's job that runs, and the domain's rack. No reply tells that a volume panicked.
#[derive(Drop)]
pub struct History<R: Rack> {
    pub(crate) rack: R,
    pub(crate) entries: Vec<Entry>,
    pub(crate) durable: u64,
    pub(crate) job: Option<Command>,
    /// Whether the event that goes on has added an entry.
    pub(crate) added: bool,
    ghost lasts: { durable ≤ length entries.items },
    ghost stamps: { AreStamped added (R.disk rack).calls entries.items },
    ghost calm: { NonePanicked entries.items },
}

/// Ends the mover's job, if the entry is the mover's own.
fn end_job(job: &mut Option<Command>, actor: &Actor)
    ensures { job.new ≡ job_left actor.now job.old }
{
    if let Actor::Mover = actor {
        *job = None;
    }
}

/// Gives the last entry a stamp, if there is one.
fn stamp_last(entries: &mut Vec<Entry>, stamp: u64)
    ensures items { entries.new.items ≡ with_last_stamped stamp entries.old.items }
    ensures room { vec_capacity entries.new ≡ vec_capacity entries.old }
{
    let count = entries.len();
    if count > 0 {
        entries[count - 1].stamp = stamp;
    }
}

impl<R: Rack> History<R> {
    /// The history of a domain that was just opened.
    pub(crate) fn begin(alloc: Global, rack: R) -> History<R>
        ensures entries { result.entries.items ≡ [] }
        ensures durable { result.durable ≡ 0 }
        ensures job { result.job ≡ None }
        ensures added { result.added ≡ false }
        ensures rack { result.rack ≡ rack }
    {
        History {
            rack,
            entries: Vec::new(alloc),
            durable: 0,
            job: None,
            added: false,
        }
    }

    /// The rack as it is. Nothing is written.
    pub fn into_rack(self) -> R
        ensures { result ≡ self.rack }
    {
        let History { rack, .. } = self;
        rack
    }

    /// The rack as it is, and the entries. Nothing is written.
    pub fn into_parts(self) -> (R, Vec<Entry>)
        ensures rack { result.0 ≡ self.rack }
        ensures entries { result.1 ≡ self.entries }
    {
        let History { rack, entries, .. } = self;
        (rack, entries)
    }

    /// Makes room for `more` more entries. Nothing else changes, even at an error, and room that
    /// was there stays. Fails only if memory runs out.
    pub(crate) fn reserve(&mut self, more: usize) -> Result<(), OutOfMemory>
        ensures room { OnOk result (more
            ≤ vec_capacity self.new.entries - length self.new.entries.items) }
        ensures least { vec_capacity self.old.entries - length self.old.entries.items
            ≤ vec_capacity self.new.entries - length self.new.entries.items }
        ensures entries { self.new.entries.items ≡ self.old.entries.items }
        ensures durable { self.new.durable ≡ self.old.durable }
        ensures job { self.new.job ≡ self.old.job }
        ensures added { self.new.added ≡ self.old.added }
        ensures rack { self.new.rack ≡ self.old.rack }
    {
        self.entries.reserve(more)?;
        Ok(())
    }

    /// Adds the entry of the event that goes on, which has added none yet. It takes no memory.
    pub(crate) fn add(&mut self, entry: Entry)
        requires first { self.old.added ≡ false }
        requires calm { IsCalm entry.reply }
        requires room { 1 ≤ vec_capacity self.old.entries - length self.old.entries.items }
        ensures entries { self.new.entries.items ≡ self.old.entries.items ++ entry ∷ [] }
        ensures room { vec_capacity self.old.entries - length self.old.entries.items
            ≤ vec_capacity self.new.entries - length self.new.entries.items + 1 }
        ensures durable { self.new.durable ≡ self.old.durable }
        ensures job { self.new.job ≡ job_left entry.actor self.old.job }
        ensures added { self.new.added ≡ true }
        ensures rack { self.new.rack ≡ self.old.rack }
    {
        end_job(&mut self.job, &entry.actor);
        self.entries.push_reserved(entry);
        self.added = true;
    }

    /// Ends an event: if it has added an entry, that gets its stamp. It takes no memory.
    pub(crate) fn end_event(&mut self)
        ensures entries { self.new.entries.items ≡ if self.old.added
            then with_last_stamped (R.disk self.old.rack).calls self.old.entries.items
            else self.old.entries.items }
        ensures room { vec_capacity self.new.entries - length self.new.entries.items
            ≡ vec_capacity self.old.entries - length self.old.entries.items }
        ensures durable { self.new.durable ≡ self.old.durable }
        ensures job { self.new.job ≡ self.old.job }
        ensures added { self.new.added ≡ false }
        ensures rack { self.new.rack ≡ self.old.rack }
    {
        if self.added {
            stamp_last(&mut self.entries, self.rack.calls());
            self.added = false;
        }
    }
}
