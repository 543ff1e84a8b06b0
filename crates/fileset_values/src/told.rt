//! What a value tells about the history that it stands for.
ghost use Rattle.std.specs.Prelude.{◌≡◌, ◌≤◌, ℕ, List, Option, length};
ghost use Rattle.fileset_values.specs.declared.command.Command.{Command};
ghost use Rattle.fileset_values.specs.declared.entry.Entry.{Entry};

/// A value that stands for a history, as a domain does. Threads hand it from one to the next, and
/// see how long its history is and how much of that a stop leaves.
pub trait Told {
    /// The commands so far with their replies, in order.
    ghost history: { Self → List Entry };

    /// How many entries, from the first one on, a stop leaves at least.
    ghost lasting: { Self → ℕ };

    /// Nothing has begun that must end before another thread may continue with the value.
    ghost rests: { Self → Type 0 };

    /// How many more entries it has room for.
    ghost room: { Self → ℕ };

    /// The command of the running job, or None.
    ghost begun: { Self → Option Command };

    /// The length of the history.
    fn committed(&self) -> u64
        ensures { result ≡ length (history self.now) };

    /// How many entries, from the first one on, a stop leaves at least.
    fn durable(&self) -> u64
        ensures { result ≡ lasting self.now };

    /// No more entries last than there are.
    ghost bounded: { (value : Self) → lasting value ≤ length (history value) };
}
