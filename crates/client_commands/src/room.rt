//! How many pages a command may need, and how many more it leaves held.
ghost use Rattle.std.specs.Prelude.{◌≡◌, ◌+◌, ◌*◌, ◌^◌, ◌≤◌, true, IfSome, length};
ghost use Rattle.file_commands.specs.fileset_model.Pages.{pages_of};
ghost use Rattle.file_commands.specs.free_space.Spaces.{kept_spaces, volume_of};
ghost use Rattle.file_commands.specs.legal_histories.Room.{need};
ghost use Rattle.file_commands.specs.domain_memory.Held.{held_if_open};
ghost use Rattle.file_commands.specs.domain_state.History.{StandsForSome};
ghost use Rattle.file_commands.specs.domain_state.Room.{HoldsFew};
ghost use Rattle.client_commands.specs.Wanting.{MayTake};

use file_commands::limits::{MAX_VOLUMES, PAGE_BYTES};
use file_commands::{Command, DomainMemory, FreeSpace, VolIx};

/// An offset that no file has, and more bytes than one write may have.
const FARTHEST: u64 = 1 << 40;

/// How many more pages a command may leave held. No command takes as many: a write of a script has
/// two pages at most, and a change of names takes ten.
const MOST_HELD: usize = 24;

/// How many pages of 8,192 bytes `bytes` bytes from an offset on lie in; None if they are more, or
/// farther off, than any file has.
fn pages_of_bytes(offset: u64, bytes: u64) -> Option<u64>
    ensures count { IfSome result (λ count. count ≡ length (pages_of offset bytes)) }
    ensures few { IfSome result (λ count. count ≤ 2 ^ 42) }
{
    if bytes == 0 {
        Some(0)
    } else if offset < FARTHEST && bytes < FARTHEST {
        let last = offset + (bytes - 1);
        let page = PAGE_BYTES as u64;
        Some((last / page).saturating_sub(offset / page) + 1)
    } else {
        None
    }
}

/// How many pages a command may need: 16, and 4 more for each page that the bytes of a write lie
/// in. None if these are more, or farther off, than any file has.
pub(crate) fn need_of(command: &Command) -> Option<u64>
    ensures { IfSome result (λ count. count ≡ need command.now) }
{
    match command {
        Command::Write { offset, bytes, .. } => {
            let pages = pages_of_bytes(*offset, bytes.as_slice().len() as u64)?;
            Some(4 * pages + 16)
        }
        _ => Some(16),
    }
}

/// Whether a command may be answered no-space: it makes or takes something, or writes.
pub(crate) fn may_take(command: &Command) -> bool
    ensures { result ≡ true → MayTake command.now }
{
    matches!(
        command,
        Command::Mkfset { .. }
            | Command::Setquota { .. }
            | Command::Create { .. }
            | Command::Mkdir { .. }
            | Command::Write { .. }
            | Command::Rename { .. }
            | Command::Link { .. }
    )
}

/// How many more pages of a volume are held at most with the change that is laid over free space:
/// the pages that it has taken, less as many as have come to wait.
fn more_on(space: &FreeSpace, vol: VolIx) -> usize
    ensures { held_if_open (volume_of space.now vol)
        ≤ held_if_open (volume_of (kept_spaces space.now) vol) + result }
{
    let taken = space.taken(vol).len();
    taken.saturating_sub(space.given_back(vol).len())
}

/// Whether the change that is laid over a domain's memory is seen to leave at most 24 more pages
/// held. Pages that came free at once are not subtracted, so it may leave no more than 24 even if
/// the answer is no.
pub(crate) fn holds_few(memory: &DomainMemory) -> bool
    requires { ∥ StandsForSome memory.now ∥₁ }
    ensures { result ≡ true → HoldsFew memory.now }
{
    let mut left = MOST_HELD;
    for n in 0..MAX_VOLUMES {
        let Some(vol) = VolIx::new(n + 1) else {
            unreachable!();
        };
        let more = more_on(&memory.space, vol);
        if left < more {
            return false;
        }
        left -= more;
    }
    true
}
