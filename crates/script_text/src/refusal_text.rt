//! Refusals as a history writes them.
ghost use Rattle.std.specs.Prelude.{◌≡◌, ◌<◌, ◌^◌, ◌∷◌, ◌++◌, OnOk, decimal};
ghost use Rattle.command_text.specs.word_forms.Texts.{behind_spaces};
ghost use Rattle.script_text.specs.History.{field_text, refusal_fields, refusal_name, refusal_number, refusal_text};

use command_text::{OutOfMemory, Refusal, push_number};

/// The number of a refusal in a history.
#[tactic(auto, unfolding(crate::specs::History::refusal_number))]
pub fn refusal_number(refusal: Refusal) -> u64
    ensures { result ≡ refusal_number refusal }
{
    match refusal {
        Refusal::NoFileset => 1,
        Refusal::FilesetExists => 2,
        Refusal::NoPath => 3,
        Refusal::Exists => 4,
        Refusal::NotDirectory => 5,
        Refusal::IsDirectory => 6,
        Refusal::NotEmpty => 7,
        Refusal::ReadOnly => 8,
        Refusal::HasClone => 9,
        Refusal::OutOfSync => 10,
        Refusal::QuotaFiles { .. } => 11,
        Refusal::QuotaBlocks { .. } => 12,
        Refusal::IntoItself => 13,
        Refusal::TooFar => 14,
        Refusal::FilesetsFull => 15,
        Refusal::CloneOfClone => 16,
        Refusal::NoSpace { .. } => 20,
        Refusal::NoVolume => 21,
        Refusal::NoRoom { .. } => 22,
        Refusal::LastVolume => 23,
        Refusal::VolumeTaken => 24,
        Refusal::VolumeSmall => 25,
        Refusal::ReadFault { .. } => 26,
        Refusal::Panicked { .. } => 27,
        Refusal::Cancelled => 28,
        Refusal::Unsettled { .. } => 29,
        Refusal::OutOfMemory => 30,
        Refusal::LinksFull => 31,
        Refusal::Striped => 32,
    }
}

#[tactic(auto, unfolding(crate::specs::History::refusal_name))]
fn name_of(refusal: Refusal) -> &'static str
    ensures { result.now ≡ refusal_name refusal }
{
    match refusal {
        Refusal::NoFileset => "no-fileset",
        Refusal::FilesetExists => "fileset-exists",
        Refusal::NoPath => "no-path",
        Refusal::Exists => "exists",
        Refusal::NotDirectory => "not-directory",
        Refusal::IsDirectory => "is-directory",
        Refusal::NotEmpty => "not-empty",
        Refusal::ReadOnly => "read-only",
        Refusal::HasClone => "has-clone",
        Refusal::OutOfSync => "out-of-sync",
        Refusal::QuotaFiles { .. } => "quota-files",
        Refusal::QuotaBlocks { .. } => "quota-blocks",
        Refusal::IntoItself => "into-itself",
        Refusal::TooFar => "too-far",
        Refusal::FilesetsFull => "filesets-full",
        Refusal::CloneOfClone => "clone-of-clone",
        Refusal::NoSpace { .. } => "no-space",
        Refusal::NoVolume => "no-volume",
        Refusal::NoRoom { .. } => "no-room",
        Refusal::LastVolume => "last-volume",
        Refusal::VolumeTaken => "volume-taken",
        Refusal::VolumeSmall => "volume-small",
        Refusal::ReadFault { .. } => "read-fault",
        Refusal::Panicked { .. } => "panicked",
        Refusal::Cancelled => "cancelled",
        Refusal::Unsettled { .. } => "unsettled",
        Refusal::OutOfMemory => "out-of-memory",
        Refusal::LinksFull => "links-full",
        Refusal::Striped => "striped",
    }
}

/// Adds a space, a name, `=` and its number.
#[tactic(auto, unfolding(crate::specs::History::field_text))]
fn push_field(out: &mut Vec<u8>, name: &str, n: u64) -> Result<(), OutOfMemory>
    ensures { OnOk result (out.new.items ≡ out.old.items ++ 32 ∷ field_text name.now n) }
{
    out.push(b' ')?;
    out.extend_from_slice(name.as_bytes())?;
    out.push(b'=')?;
    push_number(out, n)?;
    Ok(())
}

/// Adds the numbers that a refusal gives, a space before each.
#[tactic(auto, unfolding(crate::specs::History::refusal_fields))]
fn push_fields(out: &mut Vec<u8>, refusal: Refusal) -> Result<(), OutOfMemory>
    ensures { OnOk result (out.new.items
        ≡ out.old.items ++ behind_spaces (refusal_fields refusal)) }
{
    match refusal {
        Refusal::QuotaFiles { limit, used } => {
            push_field(out, "limit", limit)?;
            push_field(out, "used", used)?;
        }
        Refusal::QuotaBlocks { limit, used, asked } => {
            push_field(out, "limit", limit)?;
            push_field(out, "used", used)?;
            push_field(out, "asked", asked)?;
        }
        Refusal::NoSpace { free, need } => {
            push_field(out, "free", free)?;
            push_field(out, "need", need)?;
        }
        Refusal::NoRoom { vol, free } => {
            push_field(out, "vol", u64::from(vol))?;
            push_field(out, "free", free)?;
        }
        Refusal::ReadFault { vol } | Refusal::Panicked { vol } => {
            push_field(out, "vol", u64::from(vol))?;
        }
        Refusal::Unsettled { moved } => push_field(out, "moved", moved)?,
        _ => {}
    }
    Ok(())
}

/// Adds a refusal: `E` and its number, its name, and its numbers by their names.
#[tactic(auto, unfolding(crate::specs::History::refusal_text))]
pub fn push_refusal(out: &mut Vec<u8>, refusal: Refusal) -> Result<(), OutOfMemory>
    ensures { OnOk result (out.new.items ≡ out.old.items ++ refusal_text refusal) }
{
    out.push(b'E')?;
    push_number(out, refusal_number(refusal))?;
    out.push(b' ')?;
    out.extend_from_slice(name_of(refusal).as_bytes())?;
    push_fields(out, refusal)?;
    Ok(())
}
