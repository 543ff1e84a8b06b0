//! A gate that tells who passes it.
use advfs_run::Gate;
use std::sync::atomic::{AtomicU64, Ordering};

/// A gate that writes down who passes, two digits for each: the actor, and the length that it
/// gives.
#[derive(Drop)]
pub struct Recorder {
    digits: AtomicU64,
}

impl Recorder {
    /// One that nobody has passed: a 9, which the digits follow.
    pub fn new() -> Recorder {
        Recorder {
            digits: AtomicU64::new(9),
        }
    }

    /// A 9, and then the digits of all that passed.
    pub fn digits(&self) -> u64 {
        self.digits.load(Ordering::Relaxed)
    }
}

impl Gate for Recorder {
    fn pass(&self, actor: u32, turn: u64) {
        let digits = self.digits.load(Ordering::Relaxed).wrapping_mul(100);
        let passed = u64::from(actor % 10) * 10 + turn % 10;
        self.digits
            .store(digits.wrapping_add(passed), Ordering::Relaxed);
    }
}
