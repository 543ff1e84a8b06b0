//! Images in memory: racks of one volume.
ghost use Rattle.std.specs.Prelude.{◌≡◌, length, true};
ghost use Rattle.advfs_run.specs.memory_disk.Memory.{memory_disk};
ghost use Rattle.advfs_run.specs.volume_disk.Disk.{AreBlocks};

use advfs_run::{MemoryRack, Rack, VolIx};
use std::alloc::{AllocError, Global};

/// A rack of one volume.
#[derive(Drop)]
pub struct Image {
    pub rack: MemoryRack,
    ghost one: { length (memory_disk rack).sizes ≡ 1 },
}

/// An image of `pages` pages of zeros; these calls of its rack fail.
pub fn zeros(alloc: Global, pages: u32, fails: &[u64]) -> Result<Image, AllocError> {
    let rack = MemoryRack::new(alloc, &[pages], fails, false)?;
    Ok(Image { rack })
}

/// The image on a rack, or a small one of zeros if the rack has not exactly one volume.
pub fn image_on(alloc: Global, rack: MemoryRack) -> Result<Image, AllocError> {
    if rack.volumes() == 1 {
        Ok(Image { rack })
    } else {
        zeros(alloc, 1, &[])
    }
}

/// Whether a volume has a block.
fn is_there(rack: &MemoryRack, vol: VolIx, block: u32) -> bool
    ensures { result ≡ true → AreBlocks (memory_disk rack.now) vol block 512 }
{
    let end = 512 * (u64::from(block) + 1);
    vol.number() <= rack.volumes() && end <= 8_192 * u64::from(rack.pages(vol))
}

/// The image, and what a block of it holds; zeros if it has no such block.
fn block_of(image: Image, block: u32) -> (Image, [u8; 512]) {
    let Image { mut rack, .. } = image;
    let mut bytes = [0; 512];
    if let Some(vol) = VolIx::new(1) {
        if is_there(&rack, vol, block) {
            let _ = rack.read(vol, block, &mut bytes);
        }
    }
    (Image { rack }, bytes)
}

/// The image with these bytes in a block, if it has that block and there are 512 of them.
fn with_block(image: Image, block: u32, bytes: &[u8]) -> Image {
    let Image { mut rack, .. } = image;
    if let Some(vol) = VolIx::new(1) {
        if bytes.len() == 512 && is_there(&rack, vol, block) {
            let _ = rack.write(vol, block, bytes);
        }
    }
    Image { rack }
}

/// The image with four zeros at the start of a page.
pub fn harmed(image: Image, page: u32) -> Image {
    let block = page.saturating_mul(16);
    let (image, mut bytes) = block_of(image, block);
    bytes[..4].fill(0);
    with_block(image, block, &bytes)
}

/// The image with one of the first bytes of a page flipped.
pub fn flipped(image: Image, page: u32, at: u8) -> Image {
    let block = page.saturating_mul(16);
    let (image, mut bytes) = block_of(image, block);
    bytes[usize::from(at)] ^= 0xff;
    with_block(image, block, &bytes)
}

/// How many blocks an image has.
fn blocks(image: &Image) -> u32 {
    let Some(vol) = VolIx::new(1) else {
        return 0;
    };
    if vol.number() > image.rack.volumes() {
        return 0;
    }
    image.rack.pages(vol).saturating_mul(16)
}

/// All that an image holds.
pub fn bytes_of(alloc: Global, image: Image) -> Result<(Image, Vec<u8>), AllocError> {
    let mut image = image;
    let mut all = Vec::new(alloc);
    for block in 0..blocks(&image) {
        let (same, bytes) = block_of(image, block);
        image = same;
        all.extend_from_slice(&bytes)?;
    }
    Ok((image, all))
}

/// An image of `pages` pages that begins with as many of these bytes as it has room for.
pub fn image_with(alloc: Global, pages: u32, bytes: &[u8]) -> Result<Image, AllocError> {
    let mut image = zeros(alloc, pages, &[])?;
    let mut block: u32 = 0;
    for part in bytes.chunks(512) {
        image = with_block(image, block, part);
        block = block.saturating_add(1);
    }
    Ok(image)
}

/// An image of `pages` pages of text.
pub fn text_image(alloc: Global, pages: u32) -> Result<Image, AllocError> {
    let mut text = Vec::new(alloc);
    for _ in 0..pages {
        for _ in 0..512 {
            text.extend_from_slice(b"A line of text.\n")?;
        }
    }
    image_with(alloc, pages, text.as_slice())
}
