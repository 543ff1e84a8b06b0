//! Marks of the volumes on which something may be pending.
ghost use Rattle.std.specs.Prelude.{◌≡◌};
ghost use Rattle.meta_log.specs.volume_disk.Disk.{put_at};
ghost use Rattle.logged_rack.specs.Pending.{marks_of};

use meta_log::VolIx;

/// Marks a volume, or takes its mark away.
pub(crate) fn set_mark(marked: &mut [bool; 8], vol: VolIx, mark: bool)
    ensures { marks_of marked.new ≡ put_at (marks_of marked.old) vol mark }
{
    let at = vol.index();
    marked[at] = mark;
}

/// Whether a volume is marked.
pub(crate) fn is_marked(marked: &[bool; 8], vol: VolIx) -> bool
    ensures { result ≡ marks_of marked.now vol }
{
    marked[vol.index()]
}
