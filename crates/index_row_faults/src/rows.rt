//! The hashes of the names of rows, with the pages on which they stand, by directory.
ghost use Rattle.std.specs.Prelude.{◌≡◌, ◌++◌, [], ◌∷◌, IfOk, OnOk, cond};
ghost use Rattle.std.specs.BTreeMap.{is_at};
ghost use Rattle.page_faults.specs.domain_base.contracts.place.TagOrd.TheImpl as tag_ord;
ghost use Rattle.page_faults.specs.domain_base.declared.place.Tag.{Tag as TagOf};
ghost use Rattle.index_row_faults.specs.Keys.{AreKeys, keys_in};

use directory_faults::RowThere;
use page_faults::{OutOfMemory, Tag, name_hash};
use std::alloc::Global;
use std::collections::BTreeMap;

/// The hashes and pages of a directory's rows.
pub(crate) fn keys_of(keys: &BTreeMap<Tag, Vec<(u32, u64)>>, dir: Tag) -> &[(u32, u64)]
    ensures { result.now ≡ keys_in keys.now dir }
{
    match keys.get(&dir) {
        Some(keys) => keys.as_slice(),
        None => &[],
    }
}

/// Appends a hash and a page to those of a directory.
fn push_key(
    alloc: Global,
    keys: &mut BTreeMap<Tag, Vec<(u32, u64)>>,
    dir: Tag,
    key: (u32, u64),
) -> Result<(), OutOfMemory>
    ensures { OnOk result ((one : TagOf) → keys_in keys.new one
        ≡ keys_in keys.old one ++ cond (is_at ((tag_ord.ghosts).cmp dir) one) (key ∷ []) []) }
{
    let mut list = keys.remove(&dir).unwrap_or(Vec::new(alloc));
    list.push(key)?;
    keys.insert(dir, list)?;
    Ok(())
}

/// For each directory, the hashes and pages of its rows.
pub(crate) fn read_keys(
    alloc: Global,
    rows: &[RowThere],
) -> Result<BTreeMap<Tag, Vec<(u32, u64)>>, OutOfMemory>
    ensures { IfOk result (AreKeys rows.now) }
{
    let mut keys = BTreeMap::new(alloc);
    for row in rows {
        let key = (name_hash(row.row.name.as_slice()), row.at.page as u64);
        push_key(alloc, &mut keys, row.at.dir, key)?;
    }
    Ok(keys)
}
