//! The next page that stands on a volume.
ghost use Rattle.std.specs.Prelude.{◌≢◌, ◌↔◌, All, IsNone, IfSome};
ghost use Rattle.member_moves.specs.Balance.{IsFirstOn};

use log_recovery::{Home, VolIx};

/// The first index of a home on this volume. Returns None if and only if there is none.
pub fn first_on(vol: VolIx, homes: &[Home]) -> Option<usize>
    ensures first { IfSome result (IsFirstOn homes.now vol) }
    ensures none { IsNone result ↔ All (λ home. home.vol ≢ vol) homes.now }
{
    homes.iter().position(|home| home.vol == vol)
}
