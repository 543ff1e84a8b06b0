//! How many rows lead to each tag.
ghost use Rattle.std.specs.Prelude.{◌≡◌, ◌+◌, ◌^◌, ◌<◌, IfOk, OnOk, if◌then◌else◌};
ghost use Rattle.fileset_shapes.specs.domain_base.declared.place.Kind.{Kind as KindOf};
ghost use Rattle.fileset_shapes.specs.domain_base.declared.place.Tag.{Tag as TagOf};
ghost use Rattle.directory_faults.specs.Counts.{AreCounts, count_in, leads_so};

use crate::rows::RowThere;
use fileset_shapes::{Kind, OutOfMemory, Tag};
use std::alloc::Global;
use std::collections::BTreeMap;

/// How many rows lead to a tag as a tag of this kind.
pub fn count_of(counts: &BTreeMap<(Tag, Kind), u64>, tag: Tag, kind: Kind) -> u64
    ensures { result ≡ count_in counts.now tag kind }
{
    counts.get(&(tag, kind)).copied().unwrap_or(0)
}

/// Counts one more row.
fn count_row(counts: &mut BTreeMap<(Tag, Kind), u64>, row: &RowThere) -> Result<(), OutOfMemory>
    requires { count_in counts.old row.now.row.tag row.now.row.kind + 1 < 2 ^ 64 }
    ensures { OnOk result ((tag : TagOf) (of : KindOf) → count_in counts.new tag of
        ≡ count_in counts.old tag of + (if leads_so tag of row.now then 1 else 0)) }
{
    let tag = row.row.tag;
    let kind = row.row.kind;
    let count = count_of(counts, tag, kind);
    counts.insert((tag, kind), count + 1)?;
    Ok(())
}

/// How many rows lead to each tag as a tag of each kind.
pub fn count_rows(
    alloc: Global,
    rows: &[RowThere],
) -> Result<BTreeMap<(Tag, Kind), u64>, OutOfMemory>
    ensures { IfOk result (AreCounts rows.now) }
{
    let mut counts = BTreeMap::new(alloc);
    for row in rows {
        count_row(&mut counts, row)?;
    }
    Ok(counts)
}
