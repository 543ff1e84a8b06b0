//! A domain with the history of its commands.
ghost use Rattle.std.specs.Prelude.{◌≡◌, ◌+◌, ◌-◌, ◌≤◌, ◌∷◌, ◌++◌, ℕ, [], All, Contains, List, None, Some, OnOk, false, true, if◌then◌else◌, is_some, length, map, vec_capacity};
ghost use Rattle.std.specs.Option.{option_copied};
ghost use Rattle.no_faults.specs.domain_base.declared.version.Version.TheVariants.{Four};
ghost use Rattle.no_faults.specs.page_store.Pages.{Pages, no_pages};
ghost use Rattle.no_faults.specs.domain_layout.Reached.{Frame};
ghost use Rattle.no_faults.specs.page_ways.Frame.{frame_in};
ghost use Rattle.no_faults.specs.staged_pages.Store.{before_of};
ghost use Rattle.no_faults.specs.domain_making.Making.{new_frame};
ghost use Rattle.no_faults.specs.fileset_model.Filesets.{FilesetMap};
ghost use Rattle.no_faults.specs.fileset_values.declared.reply.Refusal.TheVariants.{Panicked};
ghost use Rattle.no_faults.specs.fileset_values.declared.reply.Reply.TheVariants.{Refused};
ghost use Rattle.no_faults.specs.domain_memory.Memory.{StandsFor, books_in, kept_in};
ghost use Rattle.no_faults.specs.domain_memory.Staged.{IsSettled, MayBeKept, MayGoBack};
ghost use Rattle.no_faults.specs.legal_histories.GoingOn.{job_left};
ghost use Rattle.domain_state.specs.History.{
  GoesOn,
  IsCalm,
  MayCommit,
  MayCommitUnchanged,
  StandsForSome,
  with_last_stamped,
};
ghost use Rattle.domain_state.specs.Rest.{IsAtRest};
ghost use Rattle.domain_state.specs.Room.{HoldsFew};
ghost use Rattle.domain_state.specs.Short.{HadPages, HasCause};

use crate::Attached;
use crate::history::History;
use no_faults::{DomainMemory, Entry, Home, OutOfMemory, Page, Rack, Told, VolIx};
use std::alloc::Global;
use std::marker::{Brand, PhantomData};

/// The pages of a domain when it was opened, its anchor, and the sizes of the rack's volumes. They
/// tell the histories of two openings apart.
pub trait Opening {
    ghost pages: { Pages };

    ghost frame: { Frame };

    ghost sizes: { List ℕ };
}

impl Opening for Brand {
    ghost pages = { no_pages };

    ghost frame = { new_frame Four 160 };

    ghost sizes = { [] };
}

/// A domain that was opened. The commands since then, with their replies, lead from each state that
/// its pages meant then to the filesets for which it stands now, and no more pages are held than
/// that state and these commands have room for. Its rack is at rest: no change has been written
/// yet.
#[derive(Drop)]
pub struct Domain<R: Rack, O: Opening> {
    memory: DomainMemory,
    history: History<R>,
    of: PhantomData<O>,
    ghost stands: { ∥ GoesOn O.pages O.frame O.sizes memory history.entries.items history.job ∥₁ },
    ghost back: { ∥ MayGoBack memory ∥₁ },
    ghost rest: { ∥ IsAtRest (R.disk history.rack) memory.frame.anchor ∥₁ },
}

impl<R: Rack, O: Opening> Told for Domain<R, O> {
    ghost history = { λ domain. domain.history.entries.items };

    ghost lasting = { λ domain. domain.history.durable };

    ghost rests = { λ domain. domain.history.added ≡ false };

    ghost room = { λ domain. vec_capacity domain.history.entries
        - length domain.history.entries.items };

    ghost begun = { λ domain. domain.history.job };

    fn committed(&self) -> u64 {
        self.history.entries.len() as u64
    }

    fn durable(&self) -> u64 {
        self.history.durable
    }

    ghost bounded = { λ domain. domain.history.lasts };
}

impl<R: Rack, O: Opening> Domain<R, O> {
    /// Begins the history of a domain that was just made or attached.
    pub fn begin(alloc: Global, attached: Attached<R>) -> Domain<R, O>
        requires pages { O.pages ≡ before_of attached.memory.pages }
        requires frame { O.frame ≡ frame_in attached.memory.frame }
        requires sizes { O.sizes ≡ (R.disk attached.rack).sizes }
        ensures history { ⟦<Domain<R, O> as Told>⟧.history result ≡ [] }
        ensures rests { ⟦<Domain<R, O> as Told>⟧.rests result }
        ensures begun { ⟦<Domain<R, O> as Told>⟧.begun result ≡ None }
        ensures rack { result.history.rack ≡ attached.rack }
        ensures memory { result.memory ≡ attached.memory }
    {
        let Attached { rack, memory, .. } = attached;
        // called for its contract: what always holds of free space, by which pages are counted
        let _ = memory.space.misses();
        Domain {
            memory,
            history: History::begin(alloc, rack),
            of: PhantomData,
        }
    }

    /// Makes room for `more` more entries. Nothing else changes, even at an error, and room that
    /// was there stays. Fails only if memory runs out.
    pub fn reserve_history(&mut self, more: usize) -> Result<(), OutOfMemory>
        ensures room { OnOk result (more ≤ ⟦<Domain<R, O> as Told>⟧.room self.new) }
        ensures least { ⟦<Domain<R, O> as Told>⟧.room self.old
            ≤ ⟦<Domain<R, O> as Told>⟧.room self.new }
        ensures history { ⟦<Domain<R, O> as Told>⟧.history self.new
            ≡ ⟦<Domain<R, O> as Told>⟧.history self.old }
        ensures begun { ⟦<Domain<R, O> as Told>⟧.begun self.new
            ≡ ⟦<Domain<R, O> as Told>⟧.begun self.old }
        ensures rack { self.new.history.rack ≡ self.old.history.rack }
        ensures memory { self.new.memory ≡ self.old.memory }
        ensures durable { self.new.history.durable ≡ self.old.history.durable }
        ensures added { self.new.history.added ≡ self.old.history.added }
    {
        self.history.reserve(more)
    }

    /// Keeps the change that is laid over the domain, and adds the command whose change it is, with
    /// its reply. The reply tells neither of a volume that panicked, nor of a read that failed, nor
    /// of want of pages. An event adds one entry at most, which gets its stamp when the event ends.
    /// With the change at most 24 more pages are held than before it. The mover's own entry ends
    /// its job.
    ///
    /// It takes no memory. It takes the time of what the change has changed, and a look through
    /// what waits to be let go of for each file that the change lists.
    pub fn commit(&mut self, entry: Entry)
        requires first { ⟦<Domain<R, O> as Told>⟧.rests self.old }
        requires room { 1 ≤ ⟦<Domain<R, O> as Told>⟧.room self.old }
        requires calm { IsCalm entry.reply }
        requires pages { HadPages entry.reply }
        requires few { HoldsFew self.old.memory }
        requires step { (all : FilesetMap) → StandsFor self.old.memory all → MayCommit O.pages
            O.frame O.sizes self.old.memory (⟦<Domain<R, O> as Told>⟧.history self.old)
            (⟦<Domain<R, O> as Told>⟧.begun self.old) entry all }
        ensures history { ⟦<Domain<R, O> as Told>⟧.history self.new
            ≡ ⟦<Domain<R, O> as Told>⟧.history self.old ++ entry ∷ [] }
        ensures begun { ⟦<Domain<R, O> as Told>⟧.begun self.new
            ≡ job_left entry.actor (⟦<Domain<R, O> as Told>⟧.begun self.old) }
        ensures stands { (all : FilesetMap) → MayBeKept self.old.memory all
            → StandsFor self.new.memory all }
        ensures settled { IsSettled self.new.memory }
        ensures room { ⟦<Domain<R, O> as Told>⟧.room self.old
            ≤ ⟦<Domain<R, O> as Told>⟧.room self.new + 1 }
        ensures rack { self.new.history.rack ≡ self.old.history.rack }
        ensures frame { self.new.memory.frame ≡ self.old.memory.frame }
        ensures durable { self.new.history.durable ≡ self.old.history.durable }
        ensures added { self.new.history.added ≡ true }
    {
        self.memory.keep();
        self.history.add(entry);
    }

    /// Adds a command that changed nothing, with its reply. The reply tells neither of a volume
    /// that panicked, nor of a read that failed. It tells of want of pages only if memory is as
    /// short of them as it tells, no page waits, and nothing may be given up. An event adds one
    /// entry at most, which gets its stamp when the event ends. What is kept in memory stays, with
    /// the change that is laid over it. It takes no memory.
    pub fn commit_unchanged(&mut self, entry: Entry)
        requires first { ⟦<Domain<R, O> as Told>⟧.rests self.old }
        requires room { 1 ≤ ⟦<Domain<R, O> as Told>⟧.room self.old }
        requires calm { IsCalm entry.reply }
        requires cause { HasCause self.old.memory entry.reply }
        requires step { (all : FilesetMap) → StandsFor self.old.memory all → MayCommitUnchanged
            O.pages O.frame O.sizes (⟦<Domain<R, O> as Told>⟧.history self.old)
            (⟦<Domain<R, O> as Told>⟧.begun self.old) entry all }
        ensures history { ⟦<Domain<R, O> as Told>⟧.history self.new
            ≡ ⟦<Domain<R, O> as Told>⟧.history self.old ++ entry ∷ [] }
        ensures begun { ⟦<Domain<R, O> as Told>⟧.begun self.new
            ≡ job_left entry.actor (⟦<Domain<R, O> as Told>⟧.begun self.old) }
        ensures room { ⟦<Domain<R, O> as Told>⟧.room self.old
            ≤ ⟦<Domain<R, O> as Told>⟧.room self.new + 1 }
        ensures rack { self.new.history.rack ≡ self.old.history.rack }
        ensures memory { self.new.memory ≡ self.old.memory }
        ensures durable { self.new.history.durable ≡ self.old.history.durable }
        ensures added { self.new.history.added ≡ true }
    {
        self.history.add(entry);
    }

    /// Takes back the change that is laid over the domain. It takes no memory, and the time of what
    /// the change has changed.
    pub fn discard(&mut self)
        ensures kept { kept_in self.new.memory ≡ kept_in self.old.memory }
        ensures books { books_in self.new.memory ≡ books_in self.old.memory }
        ensures settled { IsSettled self.new.memory }
        ensures history { ⟦<Domain<R, O> as Told>⟧.history self.new
            ≡ ⟦<Domain<R, O> as Told>⟧.history self.old }
        ensures begun { ⟦<Domain<R, O> as Told>⟧.begun self.new
            ≡ ⟦<Domain<R, O> as Told>⟧.begun self.old }
        ensures room { ⟦<Domain<R, O> as Told>⟧.room self.new
            ≡ ⟦<Domain<R, O> as Told>⟧.room self.old }
        ensures rack { self.new.history.rack ≡ self.old.history.rack }
        ensures frame { self.new.memory.frame ≡ self.old.memory.frame }
        ensures durable { self.new.history.durable ≡ self.old.history.durable }
        ensures added { self.new.history.added ≡ self.old.history.added }
    {
        self.memory.take_back();
    }

    /// Ends an event. If it has added an entry, the stamp of that entry becomes how many calls the
    /// rack has had. It takes no memory.
    pub fn end_event(&mut self)
        requires settled { IsSettled self.old.memory }
        ensures history { ⟦<Domain<R, O> as Told>⟧.history self.new ≡ if self.old.history.added
            then with_last_stamped (R.disk self.old.history.rack).calls
            (⟦<Domain<R, O> as Told>⟧.history self.old)
            else ⟦<Domain<R, O> as Told>⟧.history self.old }
        ensures rests { ⟦<Domain<R, O> as Told>⟧.rests self.new }
        ensures begun { ⟦<Domain<R, O> as Told>⟧.begun self.new
            ≡ ⟦<Domain<R, O> as Told>⟧.begun self.old }
        ensures room { ⟦<Domain<R, O> as Told>⟧.room self.new
            ≡ ⟦<Domain<R, O> as Told>⟧.room self.old }
        ensures rack { self.new.history.rack ≡ self.old.history.rack }
        ensures memory { self.new.memory ≡ self.old.memory }
        ensures durable { self.new.history.durable ≡ self.old.history.durable }
    {
        self.history.end_event();
    }

    /// The commands since the domain was opened, with their replies.
    pub fn entries(&self) -> &[Entry]
        ensures { result.now ≡ ⟦<Domain<R, O> as Told>⟧.history self.now }
    {
        self.history.entries.as_slice()
    }

    /// How many more entries the history has room for.
    pub fn spare(&self) -> usize
        ensures { result ≡ ⟦<Domain<R, O> as Told>⟧.room self.now }
    {
        self.history.entries.capacity() - self.history.entries.len()
    }

    /// Whether a job of the mover has begun and has no entry yet.
    pub fn job_runs(&self) -> bool
        ensures { result ≡ is_some (⟦<Domain<R, O> as Told>⟧.begun self.now) }
    {
        self.history.job.is_some()
    }

    /// The volume that panicked, if one did. If a reply of the history tells of a volume that
    /// panicked, it is this one. A write or a sync of it has failed. It is None as long as events
    /// make no calls to devices.
    pub fn panicked(&self) -> Option<VolIx>
        ensures told { (volume : ℕ) → Contains (map (λ before. before.reply)
            (⟦<Domain<R, O> as Told>⟧.history self.now)) (Refused (Panicked volume))
            → result ≡ Some volume }
        ensures cause { (volume : ℕ) → result ≡ Some volume
            → ¬ (R.disk self.now.history.rack).write_faults volume ≡ 0 }
    {
        None
    }

    /// The page of 8,192 bytes at a home, if it is kept in memory: as it was before the change that
    /// is laid over the domain.
    pub fn read_page(&self, home: Home) -> Option<&Page>
        ensures { option_copied result ≡ before_of self.now.memory.pages home }
    {
        self.memory.pages.before(home)
    }

    /// What is kept in memory of the domain, with the change that is laid over it.
    pub fn memory(&self) -> &DomainMemory
        ensures memory { result.now ≡ self.now.memory }
        ensures stands { ∥ StandsForSome self.now.memory ∥₁ }
    {
        &self.memory
    }

    /// How many calls the rack has had. No entry has a greater stamp, unless an event that has
    /// added an entry still goes on.
    pub fn calls(&self) -> u64
        ensures is { result ≡ (R.disk self.now.history.rack).calls }
        ensures stamps { ⟦<Domain<R, O> as Told>⟧.rests self.now
            → All (λ before. before.stamp ≤ result) (⟦<Domain<R, O> as Told>⟧.history self.now) }
    {
        self.history.rack.calls()
    }

    /// The rack as it is. Nothing is written.
    pub fn into_rack(self) -> R
        ensures { result ≡ self.history.rack }
    {
        let Domain { history, .. } = self;
        let History { rack, .. } = history;
        rack
    }

    /// Takes a domain apart, so that a change may be laid over its memory.
    pub fn apart(self) -> (DomainMemory, History<R>)
        ensures stands { ∥ GoesOn O.pages O.frame O.sizes result.0 result.1.entries.items
            result.1.job ∥₁ }
        ensures back { ∥ MayGoBack result.0 ∥₁ }
        ensures rest { ∥ IsAtRest (R.disk result.1.rack) result.0.frame.anchor ∥₁ }
        ensures memory { result.0 ≡ self.memory }
        ensures history { result.1 ≡ self.history }
    {
        let Domain {
            memory,
            history,
            ..
        } = self;
        (memory, history)
    }

    /// Puts a domain together again, with the change that is by now laid over its memory.
    pub fn together(memory: DomainMemory, history: History<R>) -> Domain<R, O>
        requires stands { ∥ GoesOn O.pages O.frame O.sizes memory history.entries.items
            history.job ∥₁ }
        requires back { ∥ MayGoBack memory ∥₁ }
        requires rest { ∥ IsAtRest (R.disk history.rack) memory.frame.anchor ∥₁ }
        ensures memory { result.memory ≡ memory }
        ensures history { result.history ≡ history }
    {
        Domain {
            memory,
            history,
            of: PhantomData,
        }
    }
}
