//! Two filesets of one domain.
ghost use Rattle.std.specs.Prelude.{◌≡◌, [], IfOk};
ghost use Rattle.release_steps.specs.release_list.Listing.{IsEmpty as IsEmptyList, Listing};
ghost use Rattle.release_tables.specs.Beside.{HasBeside};

use file_world::world::{World, new_world, volume};
use release_steps::{Bitfiles, FilesetNo, Kind, Tag, TagDir, Version};
use std::alloc::Global;
use std::test::Fail;

/// The files of a fileset over the pages of a domain, and those of another one over the same pages.
#[derive(Drop)]
pub struct Two {
    pub world: World,
    pub other: Bitfiles,
}

/// Two filesets without a file.
pub fn two_filesets(alloc: Global) -> Result<Two, Fail>
    ensures { (list : Listing) → IsEmptyList list
        → IfOk result (λ two. HasBeside two.world two.other list) }
{
    let World {
        pages,
        space,
        cells,
        ..
    } = new_world(alloc, 64)?;
    let one = FilesetNo::new(1).ok_or("a fileset")?;
    let two = FilesetNo::new(2).ok_or("a fileset")?;
    if one.number() == two.number() {
        return Err(Fail::from("two filesets"));
    }
    Ok(Two {
        world: World {
            pages,
            space,
            cells,
            files: Bitfiles::new(one, TagDir::new(alloc)),
        },
        other: Bitfiles::new(two, TagDir::new(alloc)),
    })
}

/// The other one's files, with the first ones beside them.
pub fn turned(two: Two) -> Two
    ensures { (list : Listing) → HasBeside two.world two.other list
        → HasBeside result.world result.other list }
{
    let Two { world, other } = two;
    let World {
        pages,
        space,
        cells,
        files,
    } = world;
    Two {
        world: World {
            pages,
            space,
            cells,
            files: other,
        },
        other: files,
    }
}

/// Makes a file; the other fileset is as it was.
pub fn make_beside(alloc: Global, two: &mut Two, version: Version) -> Result<Tag, Fail>
    requires { (list : Listing) × HasBeside two.old.world two.old.other list }
    ensures { (list : Listing) → HasBeside two.old.world two.old.other list
        → IfOk result (λ _. HasBeside two.new.world two.new.other list) }
{
    Ok(
        two.world.files.create(
            alloc,
            &mut two.world.pages,
            &mut two.world.space,
            &mut two.world.cells,
            Kind::File,
            11,
            12,
            7,
            version,
            volume(),
        )?,
    )
}

/// Whether the tag names a file of the fileset.
pub fn is_there(two: &Two, tag: Tag) -> bool
    requires { (list : Listing) × HasBeside two.now.world two.now.other list }
{
    two.world.files.attributes(&two.world.pages, tag).is_some()
}

/// Makes a file in the one fileset and then in the other: whether each is there, and whether both
/// have the same tag.
pub fn made_in_both(alloc: Global) -> Result<[bool; 3], Fail> {
    let mut two = two_filesets(alloc)?;
    let first = make_beside(alloc, &mut two, Version::Four)?;
    let mut two = turned(two);
    let second = make_beside(alloc, &mut two, Version::Four)?;
    let second_there = is_there(&two, second);
    let two = turned(two);
    Ok([is_there(&two, first), second_there, first == second])
}
