//! The directories to which the rows of each directory lead.
ghost use Rattle.std.specs.Prelude.{◌≡◌, ◌⊎◌, ◌↔◌, ◌++◌, [], ◌∷◌, IfOk, OnOk, cond};
ghost use Rattle.std.specs.BTreeMap.{is_at};
ghost use Rattle.fileset_shapes.specs.domain_base.contracts.place.TagOrd.TheImpl as tag_ord;
ghost use Rattle.fileset_shapes.specs.domain_base.declared.place.Tag.{Tag as TagOf};
ghost use Rattle.directory_faults.specs.Children.{AreChildren, HasChild, LeadsOn, children_in};

use crate::RowThere;
use fileset_shapes::{Kind, OutOfMemory, Tag};
use std::alloc::Global;
use std::collections::BTreeMap;

/// The tags to which rows of a directory lead as directories.
pub(crate) fn children_of(children: &BTreeMap<Tag, Vec<Tag>>, dir: Tag) -> &[Tag]
    ensures { result.now ≡ children_in children.now dir }
{
    match children.get(&dir) {
        Some(tags) => tags.as_slice(),
        None => &[],
    }
}

/// Appends a tag to those to which rows of a directory lead.
fn push_child(
    alloc: Global,
    children: &mut BTreeMap<Tag, Vec<Tag>>,
    dir: Tag,
    child: Tag,
) -> Result<(), OutOfMemory>
    ensures { OnOk result ((one : TagOf) → children_in children.new one
        ≡ children_in children.old one
        ++ cond (is_at ((tag_ord.ghosts).cmp dir) one) (child ∷ []) []) }
{
    let mut tags = children.remove(&dir).unwrap_or(Vec::new(alloc));
    tags.push(child)?;
    children.insert(dir, tags)?;
    Ok(())
}

/// Appends the tag of a row to those to which rows of its directory lead, if the row leads to a
/// directory.
fn push_row(
    alloc: Global,
    children: &mut BTreeMap<Tag, Vec<Tag>>,
    row: &RowThere,
) -> Result<(), OutOfMemory>
    ensures { OnOk result ((dir tag : TagOf) → HasChild children.new dir tag
        ↔ (HasChild children.old dir tag ⊎ LeadsOn row.now dir tag)) }
{
    match row.row.kind {
        Kind::Directory => push_child(alloc, children, row.at.dir, row.row.tag),
        Kind::File => Ok(()),
    }
}

/// For each directory, the tags to which its rows lead as directories.
pub(crate) fn read_children(
    alloc: Global,
    rows: &[RowThere],
) -> Result<BTreeMap<Tag, Vec<Tag>>, OutOfMemory>
    ensures { IfOk result (AreChildren rows.now) }
{
    let mut children = BTreeMap::new(alloc);
    for row in rows {
        push_row(alloc, &mut children, row)?;
    }
    Ok(children)
}
