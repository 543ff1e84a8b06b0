//! Racks of one volume, and its blocks.
ghost use Rattle.std.specs.Prelude.{◌≡◌, true};
ghost use Rattle.domain_making.specs.volume_disk.Disk.{AreBlocks};

use domain_making::{OutOfMemory, Rack, VolIx};
use memory_disk::MemoryRack;
use std::alloc::Global;

/// Whether `size` bytes from a block on are whole blocks of a volume.
fn is_there<R: Rack>(rack: &R, vol: VolIx, block: u32, size: usize) -> bool
    ensures { result ≡ true → AreBlocks (R.disk rack.now) vol block size }
{
    let end = 512_u64
        .saturating_mul(block as u64)
        .saturating_add(size as u64);
    vol.number() <= rack.volumes()
        && size % 512 == 0
        && size > 0
        && end <= 8_192 * rack.pages(vol) as u64
}

/// A block of volume 1; no byte if it can't be read.
pub fn get<R: Rack>(alloc: Global, rack: &mut R, block: u32) -> Result<Vec<u8>, OutOfMemory> {
    let mut bytes = vec![in alloc; 0; 512]?;
    let Some(vol) = VolIx::new(1) else {
        return Ok(Vec::new(alloc));
    };
    if is_there(rack, vol, block, bytes.len()) && rack.read(vol, block, &mut bytes).is_ok() {
        Ok(bytes)
    } else {
        Ok(Vec::new(alloc))
    }
}

/// Puts bytes on volume 1, and syncs it; whether that passes.
fn put<R: Rack>(rack: &mut R, bytes: &[u8]) -> bool {
    let Some(vol) = VolIx::new(1) else {
        return false;
    };
    is_there(rack, vol, 0, bytes.len())
        && rack.write(vol, 0, bytes).is_ok()
        && vol.number() <= rack.volumes()
        && rack.sync(vol).is_ok()
}

/// A rack of one volume of 512 pages, the first 134 full of a byte.
pub fn filled(alloc: Global, byte: u8) -> Result<MemoryRack, OutOfMemory> {
    let mut rack = MemoryRack::new(alloc, &[512], &[], false)?;
    let bytes = vec![in alloc; byte; 134 * 8_192]?;
    let _ = put(&mut rack, &bytes);
    Ok(rack)
}
