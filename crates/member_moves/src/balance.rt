//! Between which volumes a page is moved to bring their used shares nearer.
ghost use Rattle.std.specs.Prelude.{◌≡◌, ◌*◌, ◌↔◌, false, All, IsTrue, IsNone, IfNone, IfSome};
ghost use Rattle.member_moves.specs.Balance.{
  AreCounts,
  AreEven,
  HasShareUpTo,
  IsAtEnd,
  IsLevel,
  IsUneven,
  NoneIsOpen,
  Precedes,
};

use crate::counts::VolCount;
use log_recovery::VolIx;

/// From which end the open volumes are taken by their used shares.
#[derive(Clone, Copy)]
pub(crate) enum End {
    Fullest,
    Emptiest,
}

/// The volume from which a page is to be moved and the volume to which it goes: the open volumes
/// with the greatest and the least used share. If several have that share, it is the one with the
/// lowest number. Returns None if and only if no volume is open, or no move of one page from the
/// first to the second brings their shares nearer (`IsLevel`; the law `nearer` says that it means
/// this). The volumes must be distinct, and each must have a page and no more used pages than
/// pages.
pub fn uneven(counts: &[VolCount]) -> Option<(VolIx, VolIx)>
    requires { AreCounts counts.now }
    ensures uneven { IfSome result (λ pair. IsUneven counts.now pair.0 pair.1) }
    ensures even { IsNone result ↔ AreEven counts.now }
{
    let full = first_open(End::Fullest, counts)?;
    let empty = first_open(End::Emptiest, counts)?;
    if is_level(&full, &empty) {
        None
    } else {
        Some((full.vol, empty.vol))
    }
}

/// The first open volume from this end.
fn first_open(end: End, counts: &[VolCount]) -> Option<VolCount>
    requires { AreCounts counts.now }
    ensures first { IfSome result (IsAtEnd end counts.now) }
    ensures none { IfNone result (NoneIsOpen counts.now) }
{
    let mut first: Option<VolCount> = None;
    for count in counts {
        if count.is_open() && precedes_all(end, count, &first) {
            first = Some(*count);
        }
    }
    first
}

/// Whether a volume is taken before the one that was found, if one was.
fn precedes_all(end: End, count: &VolCount, found: &Option<VolCount>) -> bool
    ensures before { IsTrue result → IfSome found.now (Precedes end count.now) }
    ensures behind { result ≡ false → IfSome found.now (λ f. Precedes end f count.now) }
    ensures any { IfNone found.now (IsTrue result) }
{
    match found {
        Some(found) => precedes(end, count, found),
        None => true,
    }
}

/// Whether the first volume is taken before the second.
fn precedes(end: End, a: &VolCount, b: &VolCount) -> bool
    ensures before { IsTrue result → Precedes end a.now b.now }
    ensures behind { result ≡ false → Precedes end b.now a.now }
{
    let (low, high) = match end {
        End::Fullest => (b, a),
        End::Emptiest => (a, b),
    };
    let apart = !has_share_up_to(high, low);
    apart || (has_share_up_to(low, high) && a.vol.number() <= b.vol.number())
}

/// Whether the used share of the first volume is at most that of the second.
fn has_share_up_to(a: &VolCount, b: &VolCount) -> bool
    ensures { IsTrue result ↔ HasShareUpTo a.now b.now }
{
    product(a.used, b.pages) <= product(b.used, a.pages)
}

/// Whether no move of one page from the first volume to the second brings their shares nearer.
fn is_level(full: &VolCount, empty: &VolCount) -> bool
    ensures { IsTrue result ↔ IsLevel full.now empty.now }
{
    let more = product(full.used, empty.pages);
    let less = product(empty.used, full.pages);
    more.saturating_sub(less) <= (u64::from(empty.pages) + u64::from(full.pages)) / 2
}

/// The product of two counts, which fits into 64 bits.
fn product(a: u32, b: u32) -> u64
    ensures { result ≡ a * b }
{
    u64::from(a) * u64::from(b)
}
