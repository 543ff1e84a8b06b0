//! The label of a volume.
ghost use Rattle.std.specs.Prelude.{
  ◌≡◌,
  ◌^◌,
  ◌<◌,
  ◌≤◌,
  ◌*◌,
  ℕ,
  List,
  min,
  take,
  Ok,
  None,
  Some,
  IfOk,
  OnOk,
};
ghost use Rattle.volume_disk.specs.domain_base.Version.{most_pages};
ghost use Rattle.volume_disk.specs.Disk.{HasVolume, Tells, volume_pages};
ghost use Rattle.volume_disk.specs.Image.{IsIn};
ghost use Rattle.volume_disk.specs.Run.{
  IsAtMost,
  NamesReadFault,
  NamesWriteFault,
  OnlyReads,
  OnlyWrites,
  Settles,
};
ghost use Rattle.disk_label.specs.FirstPages.{label_page};
ghost use Rattle.disk_label.specs.Label.{IsLabelOf, label_block, label_bytes};

use crate::fields::word;
use crate::first_pages::LABEL_PAGE;
use byteorder::{ByteOrder, LittleEndian};
use volume_disk::limits::{BLOCK_BYTES, BLOCKS_PER_PAGE, MAX_VOLUMES, PAGE_BYTES};
use volume_disk::{Rack, Version, VolIx, read_blocks, write_synced};

/// The first eight bytes of a label, `ADVFSLAB`, as two numbers of four bytes.
const MAGIC: [u32; 2] = [0x4656_4441, 0x4241_4c53];

/// The fields of a label, as numbers of four bytes.
const LABEL_WORDS: usize = 6;

/// What the label of a volume says.
#[derive(Clone, Copy, Debug, PartialEq, Eq)]
pub struct Label {
    /// The pages of 8,192 bytes that are in use.
    pub pages: u32,
    /// The version of the layout in which the volume was made.
    pub version: Version,
}

/// How many pages of 8,192 bytes of a volume a domain of this version uses: those that the rack
/// has, up to the limit of the version. Any pages beyond them are left alone.
pub fn usable_pages<R: Rack>(rack: &R, vol: VolIx, version: Version) -> u32
    ensures { let pages = volume_pages (R.disk rack.now).sizes vol in
        result ≡ min pages (most_pages version) }
{
    rack.pages(vol).min(version.max_volume_pages())
}

/// Writes the label of a volume that has `pages` pages of 8,192 bytes in use and was made in this
/// version of the layout, and syncs it. What is not named is zero. It reads nothing. The volume
/// must be one of the rack with at least that many pages. There must be at least one page in use,
/// and no more than the version allows. The error is the volume, if its write or sync failed.
pub fn write_label<R: Rack>(
    rack: &mut R,
    vol: VolIx,
    pages: u32,
    version: Version,
) -> Result<(), VolIx>
    requires there { HasVolume (R.disk rack.old) vol }
    requires some { 1 ≤ pages }
    requires pages { pages ≤ volume_pages (R.disk rack.old).sizes vol }
    requires most { pages ≤ most_pages version }
    ensures writes { let places = IsIn vol (PAGE_BYTES * label_page) PAGE_BYTES in
        OnlyWrites (R.disk rack.old) (R.disk rack.new) places }
    ensures label { let old = R.disk rack.old in let new = R.disk rack.new in
        let at = PAGE_BYTES * label_page in
        OnOk result (Tells old → Settles vol at (label_bytes vol pages version) old.now new.now) }
    ensures few { IsAtMost 2 (R.disk rack.old) (R.disk rack.new) }
    ensures fault { NamesWriteFault (R.disk rack.old) (R.disk rack.new) result }
{
    let mut page = [0; PAGE_BYTES];
    let words = [
        MAGIC[0],
        MAGIC[1],
        version.number(),
        vol.number(),
        pages,
        version.bitmap_pages(pages),
    ];
    LittleEndian::write_u32_into(&words, &mut page[..4 * LABEL_WORDS]);
    write_synced(rack, vol, BLOCKS_PER_PAGE * LABEL_PAGE, &page)
}

/// The label that a block holds of a volume that has `available` pages in the rack. Returns None if
/// the block holds no label of that volume and of version 3 or 4, with the bitmap pages of its
/// version and with no more pages than there are.
fn label_of(block: &[u8; BLOCK_BYTES], vol: VolIx, available: u32) -> Option<Label>
    ensures { IsLabelOf available vol block.now result }
{
    let pages = word(block, 4);
    let version = Version::from_number(word(block, 2))?;
    let is_label = word(block, 0) == MAGIC[0] && word(block, 1) == MAGIC[1];
    let is_right = word(block, 3) == vol.number()
        && word(block, 5) == version.bitmap_pages(pages)
        && pages <= available;
    if is_label && is_right {
        Some(Label { pages, version })
    } else {
        None
    }
}

/// The pages of 8,192 bytes in use of a volume and the version in which it was made, as its label
/// says. Returns None if its page holds no label of version 3 or 4 and of this volume with the
/// bitmap pages of that version, or holds one with more pages than the rack's volume has. This does
/// not check how many pages a domain may use: a label of version 3 with more than 65,536 pages is
/// read. It reads one block, or none if the volume has no page. The error is the volume, if that
/// read failed.
pub fn read_label<R: Rack>(rack: &mut R, vol: VolIx) -> Result<Option<Label>, VolIx>
    requires there { HasVolume (R.disk rack.old) vol }
    ensures reads { OnlyReads (R.disk rack.old) (R.disk rack.new) }
    ensures label { let old = R.disk rack.old in IfOk result (λ label. Tells old
        → 1 ≤ volume_pages old.sizes vol
        → IsLabelOf (volume_pages old.sizes vol) vol (label_block old.now.contents vol) label) }
    ensures empty { volume_pages (R.disk rack.old).sizes vol ≡ 0 → result ≡ Ok None }
    ensures few { IsAtMost 1 (R.disk rack.old) (R.disk rack.new) }
    ensures fault { NamesReadFault (R.disk rack.old) (R.disk rack.new) result }
{
    let available = rack.pages(vol);
    if available == 0 {
        return Ok(None);
    }
    let mut block = [0; BLOCK_BYTES];
    read_blocks(rack, vol, BLOCKS_PER_PAGE * LABEL_PAGE, &mut block)?;
    Ok(label_of(&block, vol, available))
}

/// `read_label` returns what `write_label` writes: a label with the pages in use of a volume of the
/// rack, which has that many.
pub fn label_reads_back()
    ensures { (most vol : ℕ) (label : Label) → 1 ≤ vol → vol ≤ MAX_VOLUMES → label.pages < 2 ^ 32
        → label.pages ≤ most
        → let page = label_bytes vol label.pages label.version in
        IsLabelOf most vol (take BLOCK_BYTES page) (Some label) }
{}
