//! How many filesets a table has.
ghost use Rattle.std.specs.Prelude.{◌≡◌, count_by, if◌then◌else◌};
ghost use Rattle.domain_memory.specs.fileset_table.Table.{is_fileset};

use domain_memory::limits::FILESET_SLOTS;
use domain_memory::{FilesetNo, FilesetTable, SlotItem};

/// 1 for a slot with a fileset that is not being removed, and 0 for any other.
fn count_in(item: &SlotItem) -> u32
    ensures { result ≡ (if is_fileset item.now then 1 else 0) }
{
    match item {
        SlotItem::Original { .. } | SlotItem::Clone { .. } => 1,
        SlotItem::Free | SlotItem::Removed { .. } => 0,
    }
}

/// How many filesets that are not being removed a table has: 16 at most.
pub fn count_filesets(table: &FilesetTable) -> u32
    ensures { result ≡ count_by is_fileset table.now.slots }
{
    let mut count = 0;
    for n in 0..FILESET_SLOTS {
        let Some(number) = FilesetNo::new(n) else {
            unreachable!();
        };
        count += count_in(table.slot(number));
    }
    count
}
