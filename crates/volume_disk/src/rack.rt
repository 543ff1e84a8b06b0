//! The calls of a rack of volumes, and what each does to what a stop may leave.
ghost use Rattle.std.specs.Prelude.{◌≡◌, ◌*◌, length, OnOk, OnErr};
ghost use Rattle.volume_disk.specs.Disk.{
  Disk,
  AreBlocks,
  HasVolume,
  PendsWithin,
  ReadDone,
  ReadFailed,
  SyncDone,
  SyncFailed,
  Tells,
  WriteDone,
  WriteFailed,
  volume_pages,
};
ghost use Rattle.volume_disk.specs.Image.{AreBytes};

use domain_base::{Failed, VolIx};

/// Volumes, numbered from 1, of whole pages of 8,192 bytes. The power may fail at any moment.
///
/// A write shows in reads at once. It lasts from the next sync of its volume that answers Ok. A
/// stop before that may turn its bytes into any others, and spares the bytes that no such write
/// touched. Only a read can tell what a write that answers Err left in its range: any bytes. Those
/// that it changed last no sooner than if it had answered Ok. A rack is free to choose whether a
/// stop may also change the others of the range.
///
/// The clock of a rack counts the calls of `read`, `write` and `sync`, whatever they answer. It has
/// 64 bits, and once it is at its end each call answers Err.
pub trait Rack {
    /// What the rack holds and what a stop may leave, as far as it tells them, and its counts.
    ghost disk: { Self → Disk };

    /// How many volumes there are.
    fn volumes(&self) -> u32
        ensures { result ≡ length (disk self.now).sizes };

    /// The pages of a volume, or 0 if the rack has no such volume.
    fn pages(&self, vol: VolIx) -> u32
        ensures { result ≡ volume_pages (disk self.now).sizes vol };

    /// Fills `out` from a volume, beginning at a block of 512 bytes. It asks for one or more whole
    /// blocks. After an error one more read fault is counted for the volume, and `out` must not be
    /// used.
    fn read(&mut self, vol: VolIx, block: u32, out: &mut [u8]) -> Result<(), Failed>
        requires { AreBlocks (disk self.old) vol block (length out.old) }
        ensures done { let n = length out.old in
            OnOk result (ReadDone (disk self.old) (disk self.new) vol (512 * block) n out.new) }
        ensures failed { OnErr result (ReadFailed (disk self.old) (disk self.new) vol) };

    /// Puts one or more whole blocks on a volume, beginning at a block of 512 bytes. After an error
    /// one more write fault is counted for the volume.
    fn write(&mut self, vol: VolIx, block: u32, bytes: &[u8]) -> Result<(), Failed>
        requires { AreBlocks (disk self.old) vol block (length bytes.now) }
        ensures done { OnOk result
            (WriteDone (disk self.old) (disk self.new) vol (512 * block) bytes.now) }
        ensures failed { OnErr result
            (WriteFailed (disk self.old) (disk self.new) vol (512 * block) (length bytes.now)) };

    /// Makes all that a volume shows to reads last. After an error one more write fault is counted
    /// for the volume, and nothing lasts that did not last before.
    fn sync(&mut self, vol: VolIx) -> Result<(), Failed>
        requires { HasVolume (disk self.old) vol }
        ensures done { OnOk result (SyncDone (disk self.old) (disk self.new) vol) }
        ensures failed { OnErr result (SyncFailed (disk self.old) (disk self.new) vol) };

    /// The clock: how often `read`, `write` and `sync` were called.
    fn calls(&self) -> u64
        ensures { result ≡ (disk self.now).calls };

    /// How many reads of a volume failed.
    fn read_faults(&self, vol: VolIx) -> u64
        ensures { result ≡ (disk self.now).read_faults vol };

    /// How many writes and syncs of a volume failed.
    fn write_faults(&self, vol: VolIx) -> u64
        ensures { result ≡ (disk self.now).write_faults vol };

    /// A read gives bytes.
    ghost holds_bytes: { (rack : Self) → Tells (disk rack) → AreBytes (disk rack).now.contents };

    /// Nothing is pending except on the rack's volumes. A domain has at most eight of these, so a
    /// rack on which each of them was synced has nothing pending.
    ghost pends_within: { (rack : Self) → Tells (disk rack) → PendsWithin (disk rack) };
}
