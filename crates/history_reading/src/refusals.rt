//! Refusals, read back.
ghost use Rattle.std.specs.Prelude.{◌≡◌, ◌^◌, map};
ghost use Rattle.script_text.specs.command_text.Commands.{no_word, one_word};
ghost use Rattle.history_reading.specs.Reading.{field_of, filled, no_room, no_space, quota_blocks, quota_files, refusal_at, refusal_of};

use script_text::{Refusal, halves, number, refusal_number, small_number};

/// One of each refusal, with zeros for its numbers.
const ALL: [Refusal; 29] = [
    Refusal::NoFileset,
    Refusal::FilesetExists,
    Refusal::NoPath,
    Refusal::Exists,
    Refusal::NotDirectory,
    Refusal::IsDirectory,
    Refusal::NotEmpty,
    Refusal::ReadOnly,
    Refusal::HasClone,
    Refusal::OutOfSync,
    Refusal::QuotaFiles { limit: 0, used: 0 },
    Refusal::QuotaBlocks {
        limit: 0,
        used: 0,
        asked: 0,
    },
    Refusal::IntoItself,
    Refusal::TooFar,
    Refusal::FilesetsFull,
    Refusal::CloneOfClone,
    Refusal::NoSpace { free: 0, need: 0 },
    Refusal::NoVolume,
    Refusal::NoRoom { vol: 0, free: 0 },
    Refusal::LastVolume,
    Refusal::VolumeTaken,
    Refusal::VolumeSmall,
    Refusal::ReadFault { vol: 0 },
    Refusal::Panicked { vol: 0 },
    Refusal::Cancelled,
    Refusal::Unsettled { moved: 0 },
    Refusal::OutOfMemory,
    Refusal::LinksFull,
    Refusal::Striped,
];

/// The refusal that has the number, with zeros for its own numbers.
fn refusal_at(number: u64) -> Option<Refusal>
    ensures { result ≡ refusal_at number }
{
    for refusal in &ALL {
        if refusal_number(*refusal) == number {
            return Some(*refusal);
        }
    }
    None
}

/// The number that a field has after its `=`.
#[tactic(auto, unfolding(crate::specs::Reading::field_of))]
fn field(word: &[u8]) -> Option<u64>
    ensures { result ≡ field_of (2 ^ 64) word.now }
{
    number(halves(word, b'=').1)
}

/// The number of a volume that a field has after its `=`.
#[tactic(auto, unfolding(crate::specs::Reading::field_of))]
fn volume_field(word: &[u8]) -> Option<u32>
    ensures { result ≡ field_of (2 ^ 32) word.now }
{
    small_number(halves(word, b'=').1)
}

#[tactic(auto, unfolding(crate::specs::Reading::quota_files))]
fn quota_files(fields: &[&[u8]]) -> Option<Refusal>
    ensures { result ≡ quota_files (map (λ word. word.now) fields.now) }
{
    let [limit, used] = fields else {
        return None;
    };
    Some(Refusal::QuotaFiles {
        limit: field(limit)?,
        used: field(used)?,
    })
}

#[tactic(auto, unfolding(crate::specs::Reading::quota_blocks))]
fn quota_blocks(fields: &[&[u8]]) -> Option<Refusal>
    ensures { result ≡ quota_blocks (map (λ word. word.now) fields.now) }
{
    let [limit, used, asked] = fields else {
        return None;
    };
    Some(Refusal::QuotaBlocks {
        limit: field(limit)?,
        used: field(used)?,
        asked: field(asked)?,
    })
}

#[tactic(auto, unfolding(crate::specs::Reading::no_space))]
fn no_space(fields: &[&[u8]]) -> Option<Refusal>
    ensures { result ≡ no_space (map (λ word. word.now) fields.now) }
{
    let [free, need] = fields else {
        return None;
    };
    Some(Refusal::NoSpace {
        free: field(free)?,
        need: field(need)?,
    })
}

#[tactic(auto, unfolding(crate::specs::Reading::no_room))]
fn no_room(fields: &[&[u8]]) -> Option<Refusal>
    ensures { result ≡ no_room (map (λ word. word.now) fields.now) }
{
    let [vol, free] = fields else {
        return None;
    };
    Some(Refusal::NoRoom {
        vol: volume_field(vol)?,
        free: field(free)?,
    })
}

/// The number in the only field.
fn one_field(fields: &[&[u8]]) -> Option<u64>
    ensures { result ≡ one_word (field_of (2 ^ 64)) (map (λ word. word.now) fields.now) }
{
    let [only] = fields else {
        return None;
    };
    field(only)
}

/// The volume in the only field.
fn one_volume(fields: &[&[u8]]) -> Option<u32>
    ensures { result ≡ one_word (field_of (2 ^ 32)) (map (λ word. word.now) fields.now) }
{
    let [only] = fields else {
        return None;
    };
    volume_field(only)
}

fn read_fault(fields: &[&[u8]]) -> Option<Refusal>
    ensures { result ≡ filled (Refusal.ReadFault 0) (map (λ word. word.now) fields.now) }
{
    let vol = one_volume(fields)?;
    Some(Refusal::ReadFault { vol })
}

fn panicked(fields: &[&[u8]]) -> Option<Refusal>
    ensures { result ≡ filled (Refusal.Panicked 0) (map (λ word. word.now) fields.now) }
{
    let vol = one_volume(fields)?;
    Some(Refusal::Panicked { vol })
}

fn unsettled(fields: &[&[u8]]) -> Option<Refusal>
    ensures { result ≡ filled (Refusal.Unsettled 0) (map (λ word. word.now) fields.now) }
{
    let moved = one_field(fields)?;
    Some(Refusal::Unsettled { moved })
}

/// The refusal, if it has no fields.
fn alone(refusal: Refusal, fields: &[&[u8]]) -> Option<Refusal>
    ensures { result ≡ no_word refusal (map (λ word. word.now) fields.now) }
{
    if fields.is_empty() {
        Some(refusal)
    } else {
        None
    }
}

/// The refusal with the numbers of its fields.
fn filled(refusal: Refusal, fields: &[&[u8]]) -> Option<Refusal>
    ensures { result ≡ filled refusal (map (λ word. word.now) fields.now) }
{
    match refusal {
        Refusal::QuotaFiles { .. } => quota_files(fields),
        Refusal::QuotaBlocks { .. } => quota_blocks(fields),
        Refusal::NoSpace { .. } => no_space(fields),
        Refusal::NoRoom { .. } => no_room(fields),
        Refusal::ReadFault { .. } => read_fault(fields),
        Refusal::Panicked { .. } => panicked(fields),
        Refusal::Unsettled { .. } => unsettled(fields),
        _ => alone(refusal, fields),
    }
}

/// The refusal that these words say: `E` and its number, then its name and its fields.
#[tactic(auto, unfolding(crate::specs::Reading::refusal_of))]
pub fn refusal(first: &[u8], words: &[&[u8]]) -> Option<Refusal>
    ensures { result ≡ refusal_of first.now (map (λ word. word.now) words.now) }
{
    let [_, digits @ ..] = first else {
        return None;
    };
    let [_, fields @ ..] = words else {
        return None;
    };
    let number = number(digits)?;
    let without = refusal_at(number)?;
    filled(without, fields)
}
