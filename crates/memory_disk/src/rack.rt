//! A rack whose volumes are files.
ghost use Rattle.std.specs.Prelude.{◌≡◌, ◌*◌, ◌-◌, ◌<◌, ◌≤◌, ◌^◌, length, true, vec_len};

use crate::counts::{count, raise};
use std::fs::File;
use std::os::unix::fs::FileExt;
use volume_disk::limits::BLOCK_BYTES;
use volume_disk::{Failed, Rack, VolIx};

/// A rack of one file for each volume, in the order of their numbers, which are counted from 1. The
/// first byte of a volume is that of its file.
///
/// A read or a write that the operating system does in parts continues until it is whole, and
/// returns Err if it cannot. A sync answers Ok once the operating system says that the file's bytes
/// are on the device. No contract tells what the files hold: they are the operating system's, and
/// other programs may write them too.
#[derive(Drop)]
pub struct FileRack {
    files: Vec<File>,
    sizes: Vec<u32>,
    read_faults: [u64; 8],
    write_faults: [u64; 8],
    calls: u64,
    ghost same: { vec_len files ≡ vec_len sizes },
    ghost few: { vec_len sizes ≤ 8 },
}

/// The byte with which a block begins.
fn first_byte(block: u32) -> u64
    ensures { result ≡ 512 * block }
{
    BLOCK_BYTES as u64 * u64::from(block)
}

impl FileRack {
    ghost use Rattle.memory_disk.specs.Files.{file_disk, opened, ticked};

    /// A rack of these files, with the number of whole pages of 8,192 bytes that each has. No call
    /// was made yet and no fault counted.
    pub fn new(files: Vec<File>, sizes: Vec<u32>) -> FileRack
        requires same { length files.items ≡ length sizes.items }
        requires few { length sizes.items ≤ 8 }
        ensures { file_disk result ≡ opened sizes.items }
    {
        FileRack {
            files,
            sizes,
            read_faults: [0; 8],
            write_faults: [0; 8],
            calls: 0,
        }
    }

    /// Gives the files back, in the order of their volumes.
    pub fn into_files(self) -> Vec<File>
        ensures { length result.items ≡ length (file_disk self).sizes }
    {
        let FileRack { files, .. } = self;
        files
    }

    /// Counts a call, and returns whether the clock was not yet at its end.
    fn tick(&mut self) -> bool
        ensures counted { file_disk self.new ≡ ticked (file_disk self.old) }
        ensures files { length self.new.files.items ≡ length self.old.files.items }
        ensures passes { result ≡ true → self.old.calls < 2 ^ 64 - 1 }
    {
        let passes = self.calls < u64::MAX;
        self.calls = self.calls.saturating_add(1);
        passes
    }

    /// Whether a file gave all of these bytes, from a block on.
    fn read_whole(&self, vol: VolIx, block: u32, out: &mut [u8]) -> bool
        requires { vol ≤ length self.now.files.items }
    {
        self.files[vol.index()]
            .read_exact_at(out, first_byte(block))
            .is_ok()
    }

    /// Whether a file took all of these bytes, from a block on.
    fn write_whole(&self, vol: VolIx, block: u32, bytes: &[u8]) -> bool
        requires { vol ≤ length self.now.files.items }
    {
        self.files[vol.index()]
            .write_all_at(bytes, first_byte(block))
            .is_ok()
    }

    /// Makes what a file shows to reads reach its device, and returns whether it did.
    fn reach_device(&self, vol: VolIx) -> bool
        requires { vol ≤ length self.now.files.items }
    {
        self.files[vol.index()].sync_data().is_ok()
    }
}

impl Rack for FileRack {
    ghost use Rattle.memory_disk.specs.Files.{file_disk};

    ghost disk = { file_disk };

    ghost holds_bytes = { λ rack told. Prim.cc };

    ghost pends_within = { λ rack told. Prim.cc };

    fn volumes(&self) -> u32 {
        self.sizes.len() as u32
    }

    fn pages(&self, vol: VolIx) -> u32 {
        match self.sizes.get(vol.index()) {
            Some(pages) => *pages,
            None => 0,
        }
    }

    fn read(&mut self, vol: VolIx, block: u32, out: &mut [u8]) -> Result<(), Failed> {
        if self.tick() && self.read_whole(vol, block, out) {
            return Ok(());
        }
        raise(&mut self.read_faults, vol);
        Err(Failed)
    }

    fn write(&mut self, vol: VolIx, block: u32, bytes: &[u8]) -> Result<(), Failed> {
        if self.tick() && self.write_whole(vol, block, bytes) {
            return Ok(());
        }
        raise(&mut self.write_faults, vol);
        Err(Failed)
    }

    fn sync(&mut self, vol: VolIx) -> Result<(), Failed> {
        if self.tick() && self.reach_device(vol) {
            return Ok(());
        }
        raise(&mut self.write_faults, vol);
        Err(Failed)
    }

    fn calls(&self) -> u64 {
        self.calls
    }

    fn read_faults(&self, vol: VolIx) -> u64 {
        count(&self.read_faults, vol)
    }

    fn write_faults(&self, vol: VolIx) -> u64 {
        count(&self.write_faults, vol)
    }
}
