//! Giving up things on a domain's list, and in its slots, between commands.
ghost use Rattle.std.specs.Prelude.{◌≡◌, ◌↔◌, true, IfOk, OnOk, sum_by};
ghost use Rattle.file_commands.specs.fileset_model.Filesets.{FilesetMap};
ghost use Rattle.file_commands.specs.free_space.Spaces.{free_pages};
ghost use Rattle.file_commands.specs.release_list.Listing.{IsEmpty};
ghost use Rattle.file_commands.specs.domain_memory.Memory.{StandsFor};
ghost use Rattle.file_commands.specs.domain_memory.Staged.{IsSettled};
ghost use Rattle.file_commands.specs.domain_memory.Going.{NoneWaits, NothingGoes};

use file_commands::{Domain, Opening, OutOfMemory, Rack};
use release_changes::Drained;
use std::alloc::Global;

/// Lets go of some of the things on a domain's list, or empties some of what is being removed from
/// a slot, and keeps that without an entry in its history: the domain stands for the same filesets.
/// Returns how many things were given up. This is 0 if and only if nothing may be given up: the
/// list is empty or holds something that cannot be let go of yet, and nothing can be emptied. Fails
/// only if memory runs out, and then nothing was given up.
pub fn release<R: Rack, O: Opening>(
    domain: Domain<R, O>,
    alloc: Global,
) -> (Domain<R, O>, Result<u32, OutOfMemory>)
    requires settled { IsSettled domain.memory }
    ensures stands { (all : FilesetMap) → StandsFor domain.memory all
        → StandsFor result.0.memory all }
    ensures some { IfOk result.1 (λ count. (count ≡ 0) ↔ NothingGoes domain.memory) }
    ensures settled { IsSettled result.0.memory }
    ensures history { result.0.history ≡ domain.history }
    ensures frame { result.0.memory.frame ≡ domain.memory.frame }
{
    let (mut memory, history) = domain.apart();
    let released = release_changes::release(&mut memory, alloc);
    (Domain::together(memory, history), released)
}

/// Lets go of what is on a domain's list, and of what is being removed from its slots, as far as
/// possible. Each release is kept by itself, and all pages that wait at the end are freed. The
/// domain stands for the same filesets, and no entry is added to its history. Returns how many
/// pages are free then, and whether the list is empty. If it is not, what is on it cannot be let go
/// of yet. If memory runs out for a release, those before it are kept.
pub fn drain<R: Rack, O: Opening>(
    domain: Domain<R, O>,
    alloc: Global,
) -> (Domain<R, O>, Result<Drained, OutOfMemory>)
    requires settled { IsSettled domain.memory }
    ensures stands { (all : FilesetMap) → StandsFor domain.memory all
        → StandsFor result.0.memory all }
    ensures ends { OnOk result.1 (NothingGoes result.0.memory) }
    ensures none { IfOk result.1 (λ drained. NoneWaits result.0.memory.space) }
    ensures free { IfOk result.1 (λ drained. drained.free
        ≡ sum_by free_pages result.0.memory.space.volumes) }
    ensures done { IfOk result.1 (λ drained. (drained.is_done ≡ true)
        ↔ IsEmpty result.0.memory.list.list) }
    ensures settled { IsSettled result.0.memory }
    ensures history { result.0.history ≡ domain.history }
    ensures frame { result.0.memory.frame ≡ domain.memory.frame }
{
    let (mut memory, history) = domain.apart();
    let drained = release_changes::drain(&mut memory, alloc);
    (Domain::together(memory, history), drained)
}
