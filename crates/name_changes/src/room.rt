//! Room on the list for what a change leaves to be let go of.
ghost use Rattle.std.specs.Prelude.{◌≡◌, ◌⊎◌, ◌≤◌, Err, IsOk, OnErr, OnOk, length};
ghost use Rattle.fileset_lending.specs.name_space.declared.fault.NameFault.TheVariants as fault;
ghost use Rattle.name_changes.specs.Room.{HandsBack};

use fileset_lending::{Chosen, DomainMemory, NameFault, OutOfMemory};

/// Makes room on the list for what has to be put on it. After an Err nothing has changed.
fn make_room(memory: &mut DomainMemory) -> Result<(), OutOfMemory>
    ensures ok { OnOk result (length memory.new.listed.items ≤ memory.new.list.room) }
    ensures list { memory.new.list.list ≡ memory.old.list.list }
    ensures more { memory.old.list.room ≤ memory.new.list.room }
    ensures same { memory.new ≡ record memory.old { list = memory.new.list } }
{
    memory.list.reserve(memory.listed.len())
}

/// Hands back lent files, and makes room on the list for what calls have taken away.
pub(crate) fn hand_back(chosen: Chosen) -> (DomainMemory, Result<(), OutOfMemory>)
    ensures back { HandsBack chosen result.0 }
    ensures ok { OnOk result.1 (length result.0.listed.items ≤ result.0.list.room) }
{
    let mut memory = chosen.back();
    let room = make_room(&mut memory);
    (memory, room)
}

/// The answer of a call, if there is room for what it has taken away.
pub(crate) fn if_room<A: Copy>(
    answer: Result<A, NameFault>,
    room: Result<(), OutOfMemory>,
) -> Result<A, NameFault>
    ensures ok { OnOk result ((result ≡ answer) × IsOk room) }
    ensures err { OnErr result ((result ≡ answer) ⊎ (result ≡ Err fault.OutOfMemory)) }
{
    match answer {
        Ok(value) => match room {
            Ok(()) => Ok(value),
            Err(_) => Err(NameFault::OutOfMemory),
        },
        Err(fault) => Err(fault),
    }
}
