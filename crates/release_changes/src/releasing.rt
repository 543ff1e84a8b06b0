//! Giving up things on a domain's list and in its slots, keeping that, and freeing pages that wait.
ghost use Rattle.std.specs.Prelude.{◌≡◌, ◌≤◌, ◌↔◌, ◌⊎◌, ℕ, true, IfOk, OnOk, sum_by};
ghost use Rattle.domain_changes.specs.fileset_model.Filesets.{FilesetMap};
ghost use Rattle.domain_changes.specs.free_space.Spaces.{free_pages};
ghost use Rattle.domain_changes.specs.release_list.Listing.{IsEmpty};
ghost use Rattle.domain_changes.specs.domain_memory.Held.{held_open};
ghost use Rattle.domain_changes.specs.domain_memory.Memory.{StandsFor};
ghost use Rattle.domain_changes.specs.domain_memory.Staged.{IsSettled, MayGoBack};
ghost use Rattle.domain_changes.specs.domain_memory.Going.{MayEmpty, MayLetGo, NoneWaits, NothingGoes};
ghost use Rattle.release_changes.specs.Emptying.{Empties};
ghost use Rattle.release_changes.specs.LettingGo.{StandsForAny};

use crate::emptying::empty_some;
use crate::letting_go::let_go;
use domain_changes::{DomainMemory, OutOfMemory};
use std::alloc::Global;

/// The group of a log that pages wait for once no file has them any more: no log has a group yet.
const GROUP: u64 = 0;

/// How many pages of metadata one release changes at most, not counting bitmaps.
const MOST_PAGES: u32 = 32;

/// Lets go of some of the things on a domain's list, sixteen at most, and keeps that. If nothing on
/// it may be let go of, makes one change to what is being removed from a slot, and then less of it
/// is left. No clause says what is left on the list. The domain stands for the same filesets, even
/// at an error, and no more pages are held. Returns how many things were given up: 0 if and only if
/// nothing is left to be given up now, and then nothing changes. Fails only if memory runs out.
pub fn release(memory: &mut DomainMemory, alloc: Global) -> Result<u32, OutOfMemory>
    requires settled { IsSettled memory.old }
    requires stands { ∥ StandsForAny memory.old ∥₁ }
    requires back { ∥ MayGoBack memory.old ∥₁ }
    ensures stands { (all : FilesetMap) → StandsFor memory.old all → StandsFor memory.new all }
    ensures held { held_open memory.new.space ≤ held_open memory.old.space }
    ensures some { IfOk result (λ count. (count ≡ 0) ↔ NothingGoes memory.old) }
    ensures goes { IfOk result (λ count. ¬ count ≡ 0 → MayLetGo memory.old
        ⊎ ((number : ℕ) × MayEmpty memory.old number × Empties number memory.old memory.new)) }
    ensures none { IfOk result (λ count. count ≡ 0 → memory.new ≡ memory.old) }
    ensures most { IfOk result (λ count. count ≤ 16) }
    ensures settled { IsSettled memory.new }
    ensures back { ∥ MayGoBack memory.new ∥₁ }
    ensures frame { memory.new.frame ≡ memory.old.frame }
{
    let count = let_go(memory, alloc, GROUP, MOST_PAGES)?;
    if count == 0 {
        let is_emptied = empty_some(memory, alloc, GROUP)?;
        return Ok(if is_emptied { 1 } else { 0 });
    }
    memory.keep();
    Ok(count)
}

/// Frees all pages that wait, since no log has a group that names one: the domain stands for the
/// same filesets. It takes no memory.
fn free_waiting(memory: &mut DomainMemory)
    requires settled { IsSettled memory.old }
    ensures stands { (all : FilesetMap) → StandsFor memory.old all → StandsFor memory.new all }
    ensures held { held_open memory.new.space ≤ held_open memory.old.space }
    ensures none { NoneWaits memory.new.space }
    ensures settled { IsSettled memory.new }
    ensures same { memory.new ≡ record memory.old { space = memory.new.space } }
{
    // called for its contract: what always holds of free space, by which no more pages are held
    let _ = memory.space.misses();
    memory.space.free_waiting();
}

/// What is left after a domain was drained.
#[derive(Clone, Copy, Debug, PartialEq, Eq)]
pub struct Drained {
    /// How many pages are free, on all volumes that are open.
    pub free: u32,
    /// Whether nothing is on the list any more.
    pub is_done: bool,
}

/// Frees all pages that wait, and returns what is left.
fn tell_drained(memory: &mut DomainMemory) -> Drained
    requires settled { IsSettled memory.old }
    ensures stands { (all : FilesetMap) → StandsFor memory.old all → StandsFor memory.new all }
    ensures held { held_open memory.new.space ≤ held_open memory.old.space }
    ensures none { NoneWaits memory.new.space }
    ensures free { result.free ≡ sum_by free_pages memory.new.space.volumes }
    ensures done { (result.is_done ≡ true) ↔ IsEmpty memory.new.list.list }
    ensures settled { IsSettled memory.new }
    ensures same { memory.new ≡ record memory.old { space = memory.new.space } }
{
    free_waiting(memory);
    Drained {
        free: memory.space.free_now(),
        is_done: memory.list.is_empty(),
    }
}

/// Lets go of what is on a domain's list, and of what is being removed from slots, one release
/// after the other, until nothing may be given up. Then it frees all pages that wait. So if
/// `is_done` is false, something that cannot be let go of yet is on the list. The domain stands for
/// the same filesets, and no more pages are held, even after an error.
///
/// Returns `OutOfMemory` if memory ran out for a release, or if 2^64 - 1 releases were not enough;
/// no domain has that much to let go of.
pub fn drain(memory: &mut DomainMemory, alloc: Global) -> Result<Drained, OutOfMemory>
    requires settled { IsSettled memory.old }
    requires stands { ∥ StandsForAny memory.old ∥₁ }
    requires back { ∥ MayGoBack memory.old ∥₁ }
    ensures stands { (all : FilesetMap) → StandsFor memory.old all → StandsFor memory.new all }
    ensures held { held_open memory.new.space ≤ held_open memory.old.space }
    ensures ends { OnOk result (NothingGoes memory.new) }
    ensures none { IfOk result (λ drained. NoneWaits memory.new.space) }
    ensures free { IfOk result (λ drained. drained.free
        ≡ sum_by free_pages memory.new.space.volumes) }
    ensures done { IfOk result (λ drained. (drained.is_done ≡ true)
        ↔ IsEmpty memory.new.list.list) }
    ensures settled { IsSettled memory.new }
    ensures back { ∥ MayGoBack memory.new ∥₁ }
    ensures frame { memory.new.frame ≡ memory.old.frame }
{
    for _ in 0..u64::MAX {
        let count = release(memory, alloc)?;
        if count == 0 {
            return Ok(tell_drained(memory));
        }
    }
    Err(OutOfMemory)
}
