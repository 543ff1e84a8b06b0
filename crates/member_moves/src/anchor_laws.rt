//! What follows from the contracts of this crate, for those who call it.
ghost use Rattle.std.specs.Prelude.{◌≡◌, ◌≢◌, ◌≤◌, ℕ, List, Some};
ghost use Rattle.log_recovery.specs.domain_base.declared.place.Home.{Home};
ghost use Rattle.log_recovery.specs.disk_label.Anchor.{IsWhole};
ghost use Rattle.log_recovery.specs.disk_label.declared.anchor.Anchor.{Anchor};
ghost use Rattle.log_recovery.specs.disk_label.declared.anchor.Member.{Member};
ghost use Rattle.log_recovery.specs.log_ring.Homes.{IsMember};
ghost use Rattle.log_recovery.specs.volume_disk.Image.{Image};
ghost use Rattle.member_moves.specs.Changes.{ChangesEntry, with_entry};
ghost use Rattle.member_moves.specs.GoodChanges.{
  StaysGoodInState,
  StaysGoodJoined,
  StaysGoodRestarted,
  StaysGoodUpgraded,
  StaysGoodWithLog,
  StaysGoodWithTable,
  StaysGoodWithout,
};

/// Laws of the changes of members. An anchor with another entry for a volume has this entry, and
/// for each other volume the one that it had (`entry`).
///
/// An anchor that may be written still may be after each change whose conditions hold: after a
/// volume becomes or stays a member (`joined`), after a member without the log is taken off
/// (`taken_off`), after the log goes to a member (`log`), and with the table at any home (`table`).
pub fn member_laws()
    ensures entry { (anchor : Anchor) (vol : ℕ) (member : Member)
        → ChangesEntry anchor (with_entry vol member anchor) vol member }
    ensures joined { (anchor : Anchor) (vol : ℕ) (member : Member)
        → IsWhole anchor → 1 ≤ member.state → member.state ≤ 2
        → IsWhole (with_entry vol member anchor) }
    ensures taken_off { (anchor : Anchor) (vol : ℕ) (member : Member)
        → IsWhole anchor → IsMember anchor vol → anchor.log_vol ≢ vol
        → IsWhole (with_entry vol member anchor) }
    ensures log { (anchor : Anchor) (vol page : ℕ) → IsWhole anchor → IsMember anchor vol
        → IsWhole (record anchor { log_vol = vol; log_page = page }) }
    ensures table { (anchor : Anchor) (home : Home) → IsWhole anchor
        → IsWhole (record anchor { table = Some home }) }
{}

/// Laws by which an anchor that recovery would find good on an image, if it stood there, still
/// would be after a change: of its number, slot, start and first group (`restarted`), after a
/// volume joins (`joined`), after a member is opened or closed (`in_state`) or taken off
/// (`without`), with the log (`with_log`) or the fileset table (`with_table`) at another place, and
/// in version 4 (`upgraded`). So a log whose next anchor has such a change leaves only images that
/// recovery takes.
pub fn good_anchors()
    ensures restarted { (sizes : List ℕ) (image : Image) (anchor : Anchor)
        (number slot start group : ℕ)
        → StaysGoodRestarted sizes image anchor number slot start group }
    ensures joined { (sizes : List ℕ) (image : Image) (anchor : Anchor) (vol : ℕ)
        (member : Member) → StaysGoodJoined sizes image anchor vol member }
    ensures in_state { (sizes : List ℕ) (image : Image) (anchor : Anchor) (vol state : ℕ)
        → StaysGoodInState sizes image anchor vol state }
    ensures without { (sizes : List ℕ) (image : Image) (anchor : Anchor) (vol : ℕ)
        → StaysGoodWithout sizes image anchor vol }
    ensures with_log { (sizes : List ℕ) (image : Image) (anchor : Anchor) (vol first : ℕ)
        → StaysGoodWithLog sizes image anchor vol first }
    ensures with_table { (sizes : List ℕ) (image : Image) (anchor : Anchor) (home : Home)
        → StaysGoodWithTable sizes image anchor home }
    ensures upgraded { (sizes : List ℕ) (image : Image) (anchor : Anchor)
        → StaysGoodUpgraded sizes image anchor }
{}
