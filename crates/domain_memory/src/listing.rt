//! The list of what is to be let go of.
ghost use Rattle.std.specs.Prelude.{◌≡◌, ◌≤◌, [], length};
ghost use Rattle.domain_memory.specs.Listing.{HaveOnce, list_with};

use standing_laws::{CellAt, Deferred};

/// Puts the files that begin at these cells on the list, in their order, and empties the list of
/// cells. No clone reads through these files. It takes no memory.
pub fn put_on_list(list: &mut Deferred, listed: &mut Vec<CellAt>)
    requires room { length listed.old.items ≤ list.old.room }
    requires once { HaveOnce list.old.list.entries }
    ensures list { list.new.list ≡ list_with listed.old.items list.old.list }
    ensures listed { listed.new.items ≡ [] }
    ensures once { HaveOnce list.new.list.entries }
{
    for at in listed.iter() {
        let Ok(()) = list.add(*at, None) else {
            unreachable!();
        };
    }
    listed.clear();
}
