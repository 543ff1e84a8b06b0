//! Gates on the volumes of a rack. A gate is a block, and what follows it counts only if the gate
//! is open.
ghost use Rattle.std.specs.Prelude.{◌*◌, ◌↔◌, IsTrue, IfOk, OnOk};
ghost use Rattle.domain_base.specs.Gate.{closed, opened};
ghost use Rattle.volume_disk.specs.Disk.{AreBlocks, Tells};
ghost use Rattle.volume_disk.specs.Gate.{IsOpenAt};
ghost use Rattle.volume_disk.specs.Image.{IsIn};
ghost use Rattle.volume_disk.specs.Run.{
  IsAtMost,
  IsLaterBy,
  NamesReadFault,
  NamesWriteFault,
  OnlyReads,
  OnlyWrites,
  Settles,
};

use crate::{Rack, read_blocks, write_synced};
use domain_base::VolIx;
use domain_base::gate::{closed_block, is_open, open_block};
use domain_base::limits::BLOCK_BYTES;

/// Whether the gate at a block of a volume is open. The error is the volume, if its read failed.
pub fn read_gate<R: Rack>(rack: &mut R, vol: VolIx, block: u32) -> Result<bool, VolIx>
    requires { AreBlocks (R.disk rack.old) vol block BLOCK_BYTES }
    ensures reads { OnlyReads (R.disk rack.old) (R.disk rack.new) }
    ensures gate { let held = (R.disk rack.old).now.contents in IfOk result (λ found.
        Tells (R.disk rack.old) → (IsTrue found ↔ IsOpenAt held vol (512 * block))) }
    ensures few { IsAtMost 1 (R.disk rack.old) (R.disk rack.new) }
    ensures fault { NamesReadFault (R.disk rack.old) (R.disk rack.new) result }
{
    let mut gate = [0; BLOCK_BYTES];
    read_blocks(rack, vol, block, &mut gate)?;
    Ok(is_open(&gate))
}

/// Writes the gate at a block of a volume open, and syncs the volume. The error is the volume, if
/// its write or sync failed.
pub fn open_gate<R: Rack>(rack: &mut R, vol: VolIx, block: u32) -> Result<(), VolIx>
    requires { AreBlocks (R.disk rack.old) vol block BLOCK_BYTES }
    ensures writes { let places = IsIn vol (512 * block) BLOCK_BYTES in
        OnlyWrites (R.disk rack.old) (R.disk rack.new) places }
    ensures settled { let old = R.disk rack.old in let new = R.disk rack.new in
        OnOk result (Tells old → Settles vol (512 * block) opened old.now new.now) }
    ensures later { OnOk result (IsLaterBy 2 (R.disk rack.old) (R.disk rack.new)) }
    ensures few { IsAtMost 2 (R.disk rack.old) (R.disk rack.new) }
    ensures fault { NamesWriteFault (R.disk rack.old) (R.disk rack.new) result }
{
    write_synced(rack, vol, block, &open_block())
}

/// Writes the gate at a block of a volume closed, and syncs the volume. The error is the volume, if
/// its write or sync failed.
pub fn close_gate<R: Rack>(rack: &mut R, vol: VolIx, block: u32) -> Result<(), VolIx>
    requires { AreBlocks (R.disk rack.old) vol block BLOCK_BYTES }
    ensures writes { let places = IsIn vol (512 * block) BLOCK_BYTES in
        OnlyWrites (R.disk rack.old) (R.disk rack.new) places }
    ensures settled { let old = R.disk rack.old in let new = R.disk rack.new in
        OnOk result (Tells old → Settles vol (512 * block) closed old.now new.now) }
    ensures later { OnOk result (IsLaterBy 2 (R.disk rack.old) (R.disk rack.new)) }
    ensures few { IsAtMost 2 (R.disk rack.old) (R.disk rack.new) }
    ensures fault { NamesWriteFault (R.disk rack.old) (R.disk rack.new) result }
{
    write_synced(rack, vol, block, &closed_block())
}
