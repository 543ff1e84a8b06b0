//! What holds of the numbers of a log, for those who call this crate.
ghost use Rattle.std.specs.Prelude.{ℕ};
ghost use Rattle.log_ring.specs.volume_disk.Disk.{Disk};
ghost use Rattle.log_ring.specs.disk_label.declared.anchor.Anchor.{Anchor};
ghost use Rattle.meta_log.specs.Log.{Log};
ghost use Rattle.meta_log.specs.Numbers.{
  ForcesNumbers,
  KeepsNumbers,
  LeavesNumbers,
  MovesNumbers,
};

/// Laws of the numbers of a log. Each of them is raised by one, in five calls of the rack or more.
/// So they stay within a fifth of its calls of the higher of those with which a domain was opened:
/// through calls of others and `append` (`keeps`), `force` (`forced`) and `checkpoint` (`moved`). A
/// clock of 64 bits counts fewer than 2^64 calls, so a log whose numbers were at most 2^62 + 64
/// when it was opened never comes to a number of 2^63. What `append` and `checkpoint` require of
/// its numbers is always met (`left`). A log is opened with such numbers if its anchor's two
/// numbers are below 2^62: its ring has fewer than 64 groups, and settling writes one anchor.
pub fn number_laws()
    ensures keeps { (first : ℕ) (old new : Disk) (log : Log) → KeepsNumbers first old new log }
    ensures forced { (first : ℕ) (old new : Disk) (log : Log) → ForcesNumbers first old new log }
    ensures moved { (first : ℕ) (old new : Disk) (log : Log) (given : Anchor)
        → MovesNumbers first old new log given }
    ensures left { (first : ℕ) (disk : Disk) (log : Log) → LeavesNumbers first disk log }
{}
