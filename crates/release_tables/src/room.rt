//! Files that are put on a list that has room for them.
ghost use Rattle.std.specs.Prelude.{◌+◌, ◌≤◌};

use release_steps::{CellAt, Deferred, VolIx};
use std::alloc::Global;
use std::test::Fail;

/// Adds a file to a list that has room, which has no error.
fn add_reserved(list: &mut Deferred, at: CellAt)
    requires { 1 ≤ list.old.room }
    ensures { list.old.room ≤ list.new.room + 1 }
{
    if list.add(at, None).is_err() {
        unreachable!();
    }
}

/// The cell that stands last on a list after room for three entries was made and three were added.
pub fn last_of_three(alloc: Global) -> Result<Option<u8>, Fail> {
    let vol = VolIx::new(1).ok_or("volume 1")?;
    let mut list = Deferred::new(alloc);
    list.reserve(3)?;
    add_reserved(
        &mut list,
        CellAt {
            vol,
            page: 1,
            cell: 3,
        },
    );
    add_reserved(
        &mut list,
        CellAt {
            vol,
            page: 1,
            cell: 4,
        },
    );
    add_reserved(
        &mut list,
        CellAt {
            vol,
            page: 1,
            cell: 5,
        },
    );
    Ok(list.last().map(|entry| entry.at.cell))
}
