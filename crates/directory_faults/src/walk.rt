//! The directories to which rows lead, one after the other.
ghost use Rattle.std.specs.Prelude.{◌≡◌, ◌⊎◌, ◌↔◌, IfOk, IsTrue, OnOk, Contains};
ghost use Rattle.fileset_shapes.specs.domain_base.declared.place.Tag.{Tag as TagOf};
ghost use Rattle.directory_faults.specs.Parents.{HasTag};
ghost use Rattle.directory_faults.specs.Walk.{GoesOn, IsBelow, IsListed, Notes};

use crate::children::children_of;
use fileset_shapes::{OutOfMemory, Tag};
use std::alloc::Global;
use std::collections::{BTreeMap, BTreeSet};

/// The tags that were reached, each once, in the order in which they were reached, and as a set.
#[derive(Drop)]
pub(crate) struct Walk {
    pub tags: Vec<Tag>,
    pub seen: BTreeSet<Tag>,
}

/// The walk that has reached nothing.
pub(crate) fn no_walk(alloc: Global) -> Walk
    ensures listed { IsListed result }
    ensures none { (tag : TagOf) → ¬ HasTag result.seen tag }
{
    Walk {
        tags: Vec::new(alloc),
        seen: BTreeSet::new(alloc),
    }
}

/// Notes that a tag is reached.
pub(crate) fn note_tag(walk: &mut Walk, tag: Tag) -> Result<(), OutOfMemory>
    ensures { OnOk result (Notes (λ q. tag ≡ q) walk.old walk.new) }
{
    let is_new = walk.seen.insert(tag)?;
    if is_new {
        walk.tags.push(tag)?;
    }
    Ok(())
}

/// Notes that tags are reached.
fn note_tags(walk: &mut Walk, tags: &[Tag]) -> Result<(), OutOfMemory>
    ensures { OnOk result (Notes (Contains tags.now) walk.old walk.new) }
{
    for tag in tags {
        note_tag(walk, *tag)?;
    }
    Ok(())
}

/// Goes on from each directory that was reached, until no row leads to another one.
pub(crate) fn go_on(children: &BTreeMap<Tag, Vec<Tag>>, walk: &mut Walk) -> Result<(), OutOfMemory>
    ensures { OnOk result (GoesOn children.now walk.old walk.new) }
{
    let mut place = 0;
    while place < walk.tags.len() {
        let dir = walk.tags[place];
        note_tags(walk, children_of(children, dir))?;
        place += 1;
    }
    Ok(())
}

/// The directories to which rows lead from a directory on.
pub(crate) fn walk_below(
    alloc: Global,
    children: &BTreeMap<Tag, Vec<Tag>>,
    dir: Tag,
) -> Result<Walk, OutOfMemory>
    ensures listed { IfOk result IsListed }
    ensures below { IfOk result (λ walk. (tag : TagOf) → HasTag walk.seen tag
        ↔ IsBelow children.now dir tag) }
{
    let mut walk = no_walk(alloc);
    note_tags(&mut walk, children_of(children, dir))?;
    go_on(children, &mut walk)?;
    Ok(walk)
}

/// Whether a set has all that was reached.
pub(crate) fn has_all(set: &BTreeSet<Tag>, walk: &Walk) -> bool
    requires { IsListed walk.now }
    ensures { IsTrue result ↔ ((tag : TagOf) → HasTag walk.now.seen tag → HasTag set.now tag) }
{
    for tag in &walk.tags {
        if !set.contains(tag) {
            return false;
        }
    }
    true
}
