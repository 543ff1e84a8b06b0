//! The members of a domain, as an anchor has them.
ghost use Rattle.std.specs.Prelude.{◌≡◌, ◌↔◌, IsTrue};
ghost use Rattle.log_ring.specs.Homes.{IsMember, member_of as member_there};

use disk_label::limits::MAX_VOLUMES;
use disk_label::{Anchor, Member, VolIx};

/// A volume as an anchor has it: its pages of 8,192 bytes, and its state.
pub fn member_of(anchor: &Anchor, vol: VolIx) -> Member
    ensures { result ≡ member_there anchor.now vol }
{
    anchor.members[vol.index()]
}

/// Whether a volume is a member of an anchor, open or closed.
pub fn is_member(anchor: &Anchor, vol: VolIx) -> bool
    ensures { IsTrue result ↔ IsMember anchor.now vol }
{
    let member = member_of(anchor, vol);
    prove!(1 <= vol.number() && vol.number() <= MAX_VOLUMES);
    1 <= member.state && member.state <= 2
}
