//! What the turns of a run pass through.

/// Where an actor waits before each turn, and once after its last.
pub trait Gate {
    /// Lets an actor go on. `turn` is the length of the history that the actor has seen committed.
    fn pass(&self, actor: u32, turn: u64);
}

/// A gate at which nobody waits.
#[derive(Clone, Copy, Debug)]
pub struct NoGate;

impl Gate for NoGate {
    fn pass(&self, _actor: u32, _turn: u64) {}
}
