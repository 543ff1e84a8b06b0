//! A value that stands for a history: entries numbered one after the other from a named number on.
ghost use Rattle.std.specs.Prelude.{◌≡◌, ◌+◌, ◌-◌, ◌<◌, ◌≤◌, ◌++◌, ◌∷◌, ℕ, [], List, None, Some, IfOk, MatchBool, length, false, true, vec_capacity, vec_len};
ghost use Rattle.fileset_values.specs.declared.entry.Entry.{Entry as EntryOf};
ghost use Rattle.domain_turn.specs.Ledgers.{counts_from};

use fileset_values::{Actor, Command, Entry, OutOfMemory, Reply, Told};
use std::alloc::Global;
use std::marker::{Brand, PhantomData};

/// The number of the first entry.
pub trait Named {
    ghost start: { ℕ };
}

impl Named for Brand {
    ghost start = { 0 };
}

/// Entries numbered from the named number on, and how many of them last.
#[derive(Drop)]
pub struct Ledger<N: Named> {
    pub entries: Vec<Entry>,
    pub next: u64,
    pub kept: u64,
    pub job: Option<Command>,
    of: PhantomData<N>,
    ghost counted: { counts_from N.start entries.items ≡ true },
    ghost numbered: { next ≡ N.start + length entries.items },
    ghost lasts: { kept ≤ length entries.items },
}

impl<N: Named> Told for Ledger<N> {
    ghost history = { λ ledger. ledger.entries.items };

    ghost lasting = { λ ledger. ledger.kept };

    ghost rests = { λ ledger. Unit {0} };

    ghost room = { λ ledger. vec_capacity ledger.entries - length ledger.entries.items };

    ghost begun = { λ ledger. ledger.job };

    fn committed(&self) -> u64 {
        self.entries.len() as u64
    }

    fn durable(&self) -> u64 {
        self.kept
    }

    ghost bounded = { λ ledger. ledger.lasts };
}

impl<N: Named> Ledger<N> {
    /// A ledger without entries that has room for `room` of them.
    pub fn new(alloc: Global, start: u64, room: usize) -> Result<Ledger<N>, OutOfMemory>
        requires { start ≡ N.start }
        ensures none { IfOk result (λ ledger. ledger.entries.items ≡ []) }
        ensures room { IfOk result (λ ledger. room ≤ vec_capacity ledger.entries) }
    {
        Ok(Ledger {
            entries: Vec::with_capacity(alloc, room)?,
            next: start,
            kept: 0,
            job: None,
            of: PhantomData,
        })
    }

    /// Adds an entry of an actor with the next number, if there is room and numbers are left. Its
    /// reply is a count.
    pub fn add(&mut self, actor: Actor, count: u64) -> bool
        ensures added { result ≡ true → (entry : EntryOf) × (entry.actor ≡ actor)
            × (self.new.entries.items ≡ self.old.entries.items ++ entry ∷ []) }
        ensures none { result ≡ false → self.new.entries.items ≡ self.old.entries.items }
        ensures capacity { vec_capacity self.old.entries ≤ vec_capacity self.new.entries }
        ensures kept { self.new.kept ≡ self.old.kept }
        ensures job { self.new.job ≡ self.old.job }
    {
        if self.next == u64::MAX || self.entries.len() >= self.entries.capacity() {
            return false;
        }
        let entry = Entry {
            actor,
            command: Command::Showfsets,
            reply: Reply::Count(count),
            stamp: self.next,
        };
        match self.entries.push(entry) {
            Ok(()) => {}
            Err(_) => unreachable!(),
        }
        self.next += 1;
        true
    }

    /// Makes all entries that are there last.
    pub fn keep_all(&mut self)
        ensures kept { self.new.kept ≡ length self.new.entries.items }
        ensures same { self.new.entries ≡ self.old.entries }
        ensures job { self.new.job ≡ self.old.job }
    {
        self.kept = self.entries.len() as u64;
    }

    /// Records that a job runs from now on.
    pub fn begin(&mut self, job: Command)
        ensures job { self.new.job ≡ Some job }
        ensures same { (self.new.entries ≡ self.old.entries) × (self.new.kept ≡ self.old.kept) }
    {
        self.job = Some(job);
    }
}
