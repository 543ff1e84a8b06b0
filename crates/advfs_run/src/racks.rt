//! Racks for runs over new domains.
ghost use Rattle.std.specs.Prelude.{◌≡◌, ◌∷◌, [], false, IfOk};
ghost use Rattle.memory_disk.specs.Memory.{memory_disk, started};

use domain_attaching::OutOfMemory;
use memory_disk::MemoryRack;
use std::alloc::Global;

/// A new rack in memory with one volume of `pages` pages of 8,192 bytes. Nothing is pending on it,
/// no call has been counted yet, and no call fails. An error is returned only if memory runs out.
pub fn new_rack(alloc: Global, pages: u32) -> Result<MemoryRack, OutOfMemory>
    ensures { IfOk result (λ rack. memory_disk rack
        ≡ started (pages ∷ []) (λ _ _. 0) [] false) }
{
    MemoryRack::new(alloc, &[pages], &[], false)
}
