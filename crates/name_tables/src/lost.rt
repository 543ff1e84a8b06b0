//! Walks in a set that has lost a directory, as a clone loses one that is out of sync.
ghost use Rattle.std.specs.Prelude.{OnOk};
ghost use Rattle.fileset_lending.specs.name_space.Changes.{HasOriginal};
ghost use Rattle.fileset_lending.specs.name_space.Names.{HasNames};

use crate::reading::path;
use crate::steps::{create, empty_set, is_good};
use fileset_lending::{BitfileSet, Kind, Path, Refusal, target, walk};
use std::alloc::Global;
use std::test::Fail;

/// Takes what stands at a path out of a set, and leaves its row.
fn lose<S: BitfileSet>(set: &mut S, alloc: Global, path: &Path) -> Result<(), Fail>
    requires { HasOriginal (S.files set.old) }
    ensures { OnOk result (HasNames (S.files set.new)) }
{
    let Ok((tag, _)) = target(set, path) else {
        return Err(Fail::from("nothing at the path"));
    };
    set.remove(alloc, tag)?;
    Ok(())
}

/// What a walk along a path refuses.
fn refusal<S: BitfileSet>(set: &S, path: &Path) -> Result<Option<Refusal>, Fail>
    requires { HasNames (S.files set.now) }
{
    if is_good(path) {
        Ok(walk(set, path).err())
    } else {
        Err(Fail::from("no good path"))
    }
}

/// Makes a directory at a path.
fn make<S: BitfileSet>(set: &mut S, alloc: Global, text: &str) -> Result<(), Fail>
    requires { HasOriginal (S.files set.old) }
    ensures { OnOk result (HasOriginal (S.files set.new)) }
{
    let path = path(alloc, text)?;
    create(set, alloc, &path, Kind::Directory, 0, 0)?;
    Ok(())
}

/// Takes what stands at a path out of a set, and leaves its row.
fn lose_at<S: BitfileSet>(set: &mut S, alloc: Global, text: &str) -> Result<(), Fail>
    requires { HasOriginal (S.files set.old) }
    ensures { OnOk result (HasNames (S.files set.new)) }
{
    let path = path(alloc, text)?;
    lose(set, alloc, &path)
}

/// Says what a walk along a path refuses.
fn push_refusal<S: BitfileSet>(
    set: &S,
    alloc: Global,
    text: &str,
    out: &mut String,
) -> Result<(), Fail>
    requires { HasNames (S.files set.now) }
{
    let path = path(alloc, text)?;
    match refusal(set, &path)? {
        Some(refusal) => Ok(write!(out, "{refusal:?}")?),
        None => Ok(out.push_str("walked")?),
    }
}

/// Says what a walk along a path refuses in a set where the second of two directories, one in the
/// other, was lost.
fn push_refused<S: BitfileSet>(
    set: &mut S,
    alloc: Global,
    text: &str,
    out: &mut String,
) -> Result<(), Fail>
    requires { HasOriginal (S.files set.old) }
{
    make(set, alloc, "/d")?;
    make(set, alloc, "/d/e")?;
    lose_at(set, alloc, "/d/e")?;
    push_refusal(set, alloc, text, out)
}

/// Says what a walk along a path refuses where the second of two directories, one in the other, is
/// lost.
pub fn refusal_along(alloc: Global, text: &str, out: &mut String) -> Result<(), Fail> {
    let mut set = empty_set(alloc, Vec::new(alloc))?;
    push_refused(&mut set, alloc, text, out)
}
