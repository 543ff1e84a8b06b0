//! Counts of faults, by volume.
ghost use Rattle.std.specs.Prelude.{◌≡◌};
ghost use Rattle.volume_disk.specs.Disk.{raised_at};
ghost use Rattle.memory_disk.specs.Counts.{count_of};

use volume_disk::VolIx;

/// Counts one more fault of a volume.
pub(crate) fn raise(counts: &mut [u64; 8], vol: VolIx)
    ensures { count_of counts.new ≡ raised_at (count_of counts.old) vol }
{
    let at = vol.index();
    counts[at] = counts[at].saturating_add(1);
}

/// How many faults a volume has.
pub(crate) fn count(counts: &[u64; 8], vol: VolIx) -> u64
    ensures { result ≡ count_of counts.now vol }
{
    counts[vol.index()]
}
