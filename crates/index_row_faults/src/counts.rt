//! How often hashes and pages stand together.
ghost use Rattle.std.specs.Prelude.{◌≡◌, ◌+◌, ◌^◌, ◌<◌, ℕ, IfOk, OnOk, if◌then◌else◌};
ghost use Rattle.index_row_faults.specs.Counts.{AreCounts, count_in, is_key};

use page_faults::OutOfMemory;
use std::alloc::Global;
use std::collections::BTreeMap;

/// How often a hash and a page are counted.
pub(crate) fn count_of(counts: &BTreeMap<(u32, u64), u64>, key: (u32, u64)) -> u64
    ensures { result ≡ count_in counts.now key.0 key.1 }
{
    counts.get(&key).copied().unwrap_or(0)
}

/// Counts one more of a hash and a page.
fn count_key(counts: &mut BTreeMap<(u32, u64), u64>, key: (u32, u64)) -> Result<(), OutOfMemory>
    requires { count_in counts.old key.0 key.1 + 1 < 2 ^ 64 }
    ensures { OnOk result ((hash page : ℕ) → count_in counts.new hash page
        ≡ count_in counts.old hash page + (if is_key hash page key then 1 else 0)) }
{
    let count = count_of(counts, key);
    counts.insert(key, count + 1)?;
    Ok(())
}

/// How often each hash stands with each page.
pub(crate) fn count_keys(
    alloc: Global,
    keys: &[(u32, u64)],
) -> Result<BTreeMap<(u32, u64), u64>, OutOfMemory>
    ensures { IfOk result (AreCounts keys.now) }
{
    let mut counts = BTreeMap::new(alloc);
    for key in keys {
        count_key(&mut counts, *key)?;
    }
    Ok(counts)
}
