//! The tags in use of a tag directory.
ghost use Rattle.std.specs.Prelude.{◌≡◌, ◌+◌, ◌*◌, ◌<◌, Some, None, IfNone, IfOk, IfSome, OnOk, length, slice_get};
ghost use Rattle.filesets_reading.specs.domain_base.declared.place.Tag.{Tag as TagOf};
ghost use Rattle.filesets_reading.specs.tag_dirs.Directory.{IsDirectory, cell_of};
ghost use Rattle.filesets_reading.specs.Chains.{IsPlaceOf};
ghost use Rattle.fileset_shapes.specs.Tags.{IsTagOf, IsUsed, IsUsedOnFirst, ListsOnce};

use filesets_reading::{MetaPages, OutOfMemory, Tag, TagDir, TagPlace, u16_at};
use std::alloc::Global;

/// The tag of an entry of a page, if it is used.
fn tag_at<M: MetaPages>(pages: &M, dir: &TagDir, place: &TagPlace, entry: u32) -> Option<Tag>
    requires directory { IsDirectory (M.pages pages.now) dir.now }
    requires place { IsPlaceOf dir.now place.now }
    requires entry { entry < 1022 }
    ensures some { IfSome result (IsTagOf (M.pages pages.now) dir.now
        (1022 * place.now.index + entry)) }
    ensures none { IfNone result ((tag : TagOf) → tag.slot ≡ 1022 * place.now.index + entry
        → cell_of (M.pages pages.now) dir.now tag ≡ None) }
{
    let home = place.home;
    let Some(page) = pages.get(home) else {
        unreachable!()
    };
    let tag = Tag {
        slot: place.index * 1022 + entry,
        seq: u16_at(page.bytes(), 16 + 8 * entry as usize),
    };
    match dir.look(pages, tag) {
        Some(_) => Some(tag),
        None => None,
    }
}

/// Appends the tags in use of a page to those of the pages before it. After an error some have been
/// appended.
fn push_tags<M: MetaPages>(
    pages: &M,
    dir: &TagDir,
    number: usize,
    tags: &mut Vec<Tag>,
) -> Result<(), OutOfMemory>
    requires directory { IsDirectory (M.pages pages.now) dir.now }
    requires within { number < length dir.now }
    requires before { ListsOnce (IsUsedOnFirst (M.pages pages.now) dir.now number) tags.old.items }
    ensures { OnOk result (ListsOnce (IsUsedOnFirst (M.pages pages.now) dir.now (number + 1))
        tags.new.items) }
{
    let place = &dir.places()[number];
    for entry in 0..1022_u32 {
        if let Some(tag) = tag_at(pages, dir, place, entry) {
            tags.push(tag)?;
        }
    }
    Ok(())
}

/// The tags in use of a tag directory, each once.
pub fn used_tags<M: MetaPages>(
    alloc: Global,
    pages: &M,
    dir: &TagDir,
) -> Result<Vec<Tag>, OutOfMemory>
    requires { IsDirectory (M.pages pages.now) dir.now }
    ensures { IfOk result (λ tags. ListsOnce (IsUsed (M.pages pages.now) dir.now) tags.items) }
{
    let mut tags = Vec::new(alloc);
    for number in 0..dir.places().len() {
        push_tags(pages, dir, number, &mut tags)?;
    }
    Ok(tags)
}
