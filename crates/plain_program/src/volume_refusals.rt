//! What the member list and the sizes of the rack's volumes refuse.
ghost use Rattle.std.specs.Prelude.{◌∷◌, ◌≡◌, ◌==◌, [], false, length, nat_lt, not};
ghost use Rattle.std.specs.Option.{option_map_or};
ghost use Rattle.std.specs.FinMap as map;
ghost use Rattle.legal_histories.specs.domain_base.Limits.{min_volume_pages};
ghost use Rattle.legal_histories.specs.fileset_model.Paths.{first_refusal, refuse_if};
ghost use Rattle.legal_histories.specs.fileset_values.declared.reply.Refusal.TheVariants.{LastVolume, NoVolume, VolumeSmall, VolumeTaken};
ghost use Rattle.legal_histories.specs.State.{State, rack_of};
ghost use Rattle.legal_histories.specs.Volumes.{is_open_member, member_refusal as refusal_by_members, open_members};
ghost use Rattle.plain_program.specs.Members.{HasVolumes, Rises, members_of};

use crate::members::{is_member, is_open, open_count, rack_size};
use legal_histories::limits::MIN_VOLUME_PAGES;
use legal_histories::{Command, Refusal, VolumeItem};

/// What the member list and the pages of the rack's volumes refuse of a command, in any state that
/// has these: no-volume if a volume is not there, is not a member or is closed, or fewer members
/// are open than a stripe is wide; volume-taken and volume-small at addvol; last-volume at rmvol.
pub fn member_refusal(sizes: &[u32], members: &[VolumeItem], command: &Command) -> Option<Refusal>
    requires { Rises members.now }
    ensures { (s : State) → HasVolumes s sizes.now members.now
        → result ≡ refusal_by_members s command.now }
{
    match command {
        Command::Migrate { from, to, .. } => migrate_refusal(members, *from, *to),
        Command::Addvol { vol } => addvol_refusal(sizes, members, *vol),
        Command::Rmvol { vol } => rmvol_refusal(members, *vol),
        Command::ChvolA { vol } => member_needed(members, *vol),
        Command::Switchlog { vol } => open_needed(members, *vol),
        Command::Stripe { width, .. } => stripe_refusal(members, *width),
        _ => None,
    }
}

fn migrate_refusal(members: &[VolumeItem], from: Option<u32>, to: u32) -> Option<Refusal>
    requires { Rises members.now }
    ensures { let all = members_of members.now in
        result ≡ first_refusal
        (refuse_if (option_map_or (λ vol. not (map.contains_key all vol)) from false) NoVolume
        ∷ refuse_if (not (is_open_member all to)) NoVolume ∷ []) }
{
    if let Some(vol) = from {
        if !is_member(members, vol) {
            return Some(Refusal::NoVolume);
        }
    }
    open_needed(members, to)
}

fn addvol_refusal(sizes: &[u32], members: &[VolumeItem], vol: u32) -> Option<Refusal>
    requires { Rises members.now }
    ensures { let rack = rack_of sizes.now in
        let size = option_map_or (λ pages. pages) (map.get rack vol) 0 in
        result ≡ first_refusal
        (refuse_if (not (map.contains_key rack vol)) NoVolume
        ∷ refuse_if (map.contains_key (members_of members.now) vol) VolumeTaken
        ∷ refuse_if (nat_lt size min_volume_pages) VolumeSmall ∷ []) }
{
    let Some(pages) = rack_size(sizes, vol) else {
        return Some(Refusal::NoVolume);
    };
    if is_member(members, vol) {
        return Some(Refusal::VolumeTaken);
    }
    if pages < MIN_VOLUME_PAGES {
        return Some(Refusal::VolumeSmall);
    }
    None
}

fn rmvol_refusal(members: &[VolumeItem], vol: u32) -> Option<Refusal>
    requires { Rises members.now }
    ensures { let all = members_of members.now in
        result ≡ first_refusal
        (refuse_if (not (map.contains_key all vol)) NoVolume
        ∷ refuse_if (map.len all == 1) LastVolume ∷ []) }
{
    if !is_member(members, vol) {
        return Some(Refusal::NoVolume);
    }
    if members.len() == 1 {
        return Some(Refusal::LastVolume);
    }
    None
}

fn member_needed(members: &[VolumeItem], vol: u32) -> Option<Refusal>
    requires { Rises members.now }
    ensures { result ≡ refuse_if (not (map.contains_key (members_of members.now) vol)) NoVolume }
{
    if !is_member(members, vol) {
        return Some(Refusal::NoVolume);
    }
    None
}

fn open_needed(members: &[VolumeItem], vol: u32) -> Option<Refusal>
    requires { Rises members.now }
    ensures { result ≡ refuse_if (not (is_open_member (members_of members.now) vol)) NoVolume }
{
    if is_open(members, vol) {
        None
    } else {
        Some(Refusal::NoVolume)
    }
}

fn stripe_refusal(members: &[VolumeItem], width: u8) -> Option<Refusal>
    requires { Rises members.now }
    ensures { let targets = open_members (members_of members.now) in
        result ≡ refuse_if (nat_lt (length targets) width) NoVolume }
{
    if open_count(members) < width as usize {
        Some(Refusal::NoVolume)
    } else {
        None
    }
}
