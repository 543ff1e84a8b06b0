//! A fileset in pages with its root directory alone.
ghost use Rattle.std.specs.Prelude.{IfOk};
ghost use Rattle.fileset_lending.specs.name_space.Changes.{HasOriginal};

use file_world::world::{new_world, volume};
use fileset_lending::{
    BitfileSet, CallSettings, Kind, MemoryPages, StoredBitfiles, StoredParts, Tag, Version,
};
use std::alloc::Global;
use std::test::Fail;

/// The tag of the root.
pub const ROOT: Tag = Tag { slot: 1, seq: 1 };

/// The root directory alone, of user 0 and group 0, on a volume of 1,024 pages. Fails if the
/// first tag is another.
pub fn root_alone(alloc: Global) -> Result<StoredBitfiles<MemoryPages>, Fail>
    ensures { IfOk result (λ set.
        HasOriginal (⟦<StoredBitfiles<MemoryPages> as BitfileSet>⟧.files set)) }
{
    let world = new_world(alloc, 1_024)?;
    let parts = StoredParts {
        pages: world.pages,
        space: world.space,
        cells: world.cells,
        files: world.files,
        removed: Vec::new(alloc),
    };
    let settings = CallSettings {
        version: Version::Four,
        prefer: volume(),
        born: 0,
        group: 1,
    };
    let mut set = StoredBitfiles::new(parts, settings);
    let tag = set.make(alloc, Kind::Directory, 0, 0)?;
    if tag == ROOT {
        return Ok(set);
    }
    Err(Fail::from("the root's tag"))
}
