//! Lists of members, one line for each volume, in the order of their numbers.
ghost use Rattle.std.specs.Prelude.{◌≡◌, ◌↔◌, IsTrue, length};
ghost use Rattle.std.specs.Option.{option_map};
ghost use Rattle.std.specs.FinMap as map;
ghost use Rattle.legal_histories.specs.State.{State, rack_of};
ghost use Rattle.legal_histories.specs.Volumes.{ShowsMembers, is_open_member, open_members};
ghost use Rattle.plain_program.specs.Members.{AddsUp, Rises, member_of, members_of};

use legal_histories::VolumeItem;

/// Whether the numbers of the volumes rise from line to line.
pub fn rises(members: &[VolumeItem]) -> bool
    ensures { IsTrue result ↔ Rises members.now }
{
    for i in 1..members.len() {
        if members[i].vol <= members[i - 1].vol {
            return false;
        }
    }
    true
}

/// Whether a domain with these members, and the log on this volume, may show this list: in each
/// line the used and free pages make up the member's pages, and only the log's volume is marked.
pub fn is_member_list(members: &[VolumeItem], log_volume: u32) -> bool
    requires { Rises members.now }
    ensures { (s : State) → s.members ≡ members_of members.now → s.log_volume ≡ log_volume
        → IsTrue result ↔ ShowsMembers s members.now }
{
    for line in members {
        if !adds_up(line, log_volume) {
            return false;
        }
    }
    true
}

/// Whether the used and free pages of a line make up its pages, and it is marked as the log's
/// volume if and only if it is.
fn adds_up(line: &VolumeItem, log_volume: u32) -> bool
    ensures { IsTrue result ↔ AddsUp log_volume line.now }
{
    let pages = u64::from(line.used) + u64::from(line.free);
    pages == u64::from(line.pages) && line.has_log == (line.vol == log_volume)
}

/// The pages of a volume of the rack, whose volumes are numbered from 1.
pub(crate) fn rack_size(sizes: &[u32], vol: u32) -> Option<u32>
    ensures { result ≡ map.get (rack_of sizes.now) vol }
{
    if vol == 0 {
        return None;
    }
    if sizes.len() < vol as usize {
        return None;
    }
    Some(sizes[vol as usize - 1])
}

/// The line of a volume.
pub(crate) fn line_of(members: &[VolumeItem], vol: u32) -> Option<VolumeItem>
    requires { Rises members.now }
    ensures { option_map member_of result ≡ map.get (members_of members.now) vol }
{
    for line in members {
        if line.vol == vol {
            return Some(*line);
        }
    }
    None
}

pub(crate) fn is_member(members: &[VolumeItem], vol: u32) -> bool
    requires { Rises members.now }
    ensures { result ≡ map.contains_key (members_of members.now) vol }
{
    match line_of(members, vol) {
        Some(_) => true,
        None => false,
    }
}

/// Whether new pages may be put on a volume.
pub(crate) fn is_open(members: &[VolumeItem], vol: u32) -> bool
    requires { Rises members.now }
    ensures { result ≡ is_open_member (members_of members.now) vol }
{
    match line_of(members, vol) {
        Some(line) => !line.closed,
        None => false,
    }
}

/// How many members new pages may be put on.
pub(crate) fn open_count(members: &[VolumeItem]) -> usize
    requires { Rises members.now }
    ensures { result ≡ length (open_members (members_of members.now)) }
{
    let mut count = 0;
    for line in members {
        if !line.closed {
            count += 1;
        }
    }
    count
}
