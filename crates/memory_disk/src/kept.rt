//! The calls that a rack in memory keeps, so that it can tell what a stop at an earlier moment may
//! have left.
ghost use Rattle.std.specs.Prelude.{◌≡◌, ◌*◌, IsTrue, length, OnOk, OnErr};
ghost use Rattle.memory_disk.specs.Kept.{Adds, block_of, size_of, effect_on};
ghost use Rattle.memory_disk.specs.Moment.{torn, written};

use std::alloc::Global;
use volume_disk::{OutOfMemory, VolIx};

/// What a call changed in what a stop may leave. Blocks have 512 bytes.
#[derive(Drop)]
pub enum Effect {
    /// These bytes were written from a block on.
    Wrote { block: u32, bytes: Vec<u8> },
    /// A write of these bytes from a block on failed.
    Tore { block: u32, bytes: Vec<u8> },
    /// The volume was synced.
    Synced,
}

/// A call that changed what a stop may leave: its number, from 1, its volume and what it did.
#[derive(Drop)]
pub struct KeptCall {
    pub number: u64,
    pub vol: VolIx,
    pub effect: Effect,
}

/// Keeps a call, if calls are kept.
pub fn keep(
    keeps: bool,
    kept: &mut Vec<KeptCall>,
    number: u64,
    vol: VolIx,
    effect: Effect,
) -> Result<(), OutOfMemory>
    ensures ok { let block = block_of effect in let size = size_of effect in
        OnOk result (Adds keeps kept.old.items kept.new.items number vol block size
        (λ moment. effect_on moment vol effect)) }
    ensures err { OnErr result (kept.new.items ≡ kept.old.items) }
    ensures short { OnErr result (IsTrue keeps) }
{
    if keeps {
        kept.push(KeptCall {
            number,
            vol,
            effect,
        })?;
    }
    Ok(())
}

/// Keeps a write with a copy of its bytes, if calls are kept.
pub fn keep_write(
    alloc: Global,
    keeps: bool,
    kept: &mut Vec<KeptCall>,
    number: u64,
    vol: VolIx,
    block: u32,
    bytes: &[u8],
) -> Result<(), OutOfMemory>
    ensures ok { let size = length bytes.now in
        OnOk result (Adds keeps kept.old.items kept.new.items number vol block size
        (λ moment. written moment vol (512 * block) bytes.now)) }
    ensures err { OnErr result (kept.new.items ≡ kept.old.items) }
    ensures short { OnErr result (IsTrue keeps) }
{
    if !keeps {
        return Ok(());
    }
    let bytes = bytes.to_vec(alloc)?;
    keep(keeps, kept, number, vol, Effect::Wrote { block, bytes })
}

/// Keeps a write that failed with a copy of its bytes, if calls are kept.
pub fn keep_failed_write(
    alloc: Global,
    keeps: bool,
    kept: &mut Vec<KeptCall>,
    number: u64,
    vol: VolIx,
    block: u32,
    bytes: &[u8],
) -> Result<(), OutOfMemory>
    ensures ok { let size = length bytes.now in
        OnOk result (Adds keeps kept.old.items kept.new.items number vol block size
        (λ moment. torn moment vol (512 * block) size)) }
    ensures err { OnErr result (kept.new.items ≡ kept.old.items) }
    ensures short { OnErr result (IsTrue keeps) }
{
    if !keeps {
        return Ok(());
    }
    let bytes = bytes.to_vec(alloc)?;
    keep(keeps, kept, number, vol, Effect::Tore { block, bytes })
}
