//! Filesets as text: a line for each fileset, and below it one for each of its paths.
use domain_attaching::limits::PAGE_BYTES;
use domain_attaching::{
    FilesetSlot, Filesets, Limits, Name, Node, OutOfMemory, Owner, PageMap, Path, Role,
};
use image_lines::Told;
use std::alloc::Global;

/// The pages of a file at most.
const FILE_PAGES: u64 = 65_536;

/// Tells the letters of bytes, up to the first zero.
fn push_letters(told: &mut Told, bytes: &[u8]) {
    for byte in bytes {
        if *byte == 0 {
            break;
        }
        told.push_letter(*byte);
    }
}

/// Tells the number of a page, and the letters with which it begins.
fn push_page(alloc: Global, told: &mut Told, pages: &PageMap, number: u64) {
    told.push(" ");
    told.push_number(number);
    told.push("=");
    if FILE_PAGES <= number {
        return told.check(false);
    }
    match pages.read(alloc, number * PAGE_BYTES as u64, 16) {
        Ok(bytes) => push_letters(told, &bytes),
        Err(_) => told.check(false),
    }
}

/// Tells the pages of a file.
fn push_pages(alloc: Global, told: &mut Told, pages: &PageMap) {
    let Ok(numbers) = pages.numbers(alloc) else {
        return told.check(false);
    };
    for number in &numbers {
        push_page(alloc, told, pages, *number);
    }
}

/// Tells what stands at the end of a path.
fn push_node(alloc: Global, told: &mut Told, node: &Node) {
    match node {
        Node::File {
            uid,
            gid,
            size,
            logged,
            pages,
        } => {
            told.push_pair(" file of ", u64::from(*uid), ".", u64::from(*gid));
            told.push(if *logged { " logged size " } else { " size " });
            told.push_number(*size);
            told.push(":");
            push_pages(alloc, told, pages);
        }
        Node::Directory { uid, gid } => {
            told.push_pair(" directory of ", u64::from(*uid), ".", u64::from(*gid));
        }
    }
}

/// Tells a path.
fn push_path(told: &mut Told, path: &Path) {
    if path.as_slice().is_empty() {
        told.push("/");
    }
    for name in path.as_slice() {
        told.push("/");
        push_letters(told, name.as_slice());
    }
}

/// Whether a path leads to what is out of sync with the original. Of that nothing is told but its
/// kind, and nothing of what is below it.
fn is_lost(slot: &FilesetSlot, path: &Path) -> bool {
    match slot.tree.number_at(path) {
        Some(number) => slot.role.is_out_of_sync(number),
        None => false,
    }
}

/// The earlier path that leads where another does.
fn earlier_of<'a>(slot: &FilesetSlot, earlier: &'a [Path], path: &Path) -> Option<&'a Path> {
    for other in earlier {
        if slot.tree.names_one(path, other) {
            return Some(other);
        }
    }
    None
}

/// Tells what a path leads to, or the earlier path that leads there.
fn push_target(alloc: Global, told: &mut Told, slot: &FilesetSlot, earlier: &[Path], path: &Path) {
    let Some(node) = slot.tree.node_at(path) else {
        return told.check(false);
    };
    if is_lost(slot, path) {
        return told.push(if node.is_directory() {
            " lost directory"
        } else {
            " lost file"
        });
    }
    match earlier_of(slot, earlier, path) {
        Some(other) => {
            told.push(" is ");
            push_path(told, other);
        }
        None => push_node(alloc, told, node),
    }
}

/// A path with one name more.
fn path_below(alloc: Global, parent: &Path, name: Name) -> Result<Path, OutOfMemory> {
    let mut names = parent.copy(alloc)?.into_vec();
    names.push(name)?;
    Ok(Path::from_vec(names))
}

/// Adds the paths that are below one, the last one first.
fn add_below(
    alloc: Global,
    slot: &FilesetSlot,
    path: &Path,
    to_tell: &mut Vec<Path>,
) -> Result<(), OutOfMemory> {
    for row in slot.tree.rows(alloc, path)?.into_iter().rev() {
        to_tell.push(path_below(alloc, path, row.name)?)?;
    }
    Ok(())
}

/// Tells the line of a path, and adds those below it.
fn push_line(
    alloc: Global,
    told: &mut Told,
    slot: &FilesetSlot,
    earlier: &[Path],
    path: &Path,
    to_tell: &mut Vec<Path>,
) {
    push_path(told, path);
    push_target(alloc, told, slot, earlier, path);
    told.push("\n");
    if !is_lost(slot, path) {
        told.check(add_below(alloc, slot, path, to_tell).is_ok());
    }
}

/// Tells the lines of all paths of a fileset, each directory before what is below it.
fn push_paths(alloc: Global, told: &mut Told, slot: &FilesetSlot) {
    let mut earlier: Vec<Path> = Vec::new(alloc);
    let mut to_tell = Vec::new(alloc);
    told.check(to_tell.push(Path::root(alloc)).is_ok());
    for _ in 0..1000 {
        let Some(path) = to_tell.pop() else {
            break;
        };
        push_line(alloc, told, slot, &earlier, &path, &mut to_tell);
        told.check(earlier.push(path).is_ok());
    }
}

/// Tells the limits of an owner, if there are some.
fn push_limits(told: &mut Told, slot: &FilesetSlot, who: Owner) {
    let Limits { files, blocks } = slot.tree.limits(who);
    if files == 0 && blocks == 0 {
        return;
    }
    match who {
        Owner::User(id) => told.push_pair(" user ", u64::from(id), ": ", files),
        Owner::Group(id) => told.push_pair(" group ", u64::from(id), ": ", files),
        Owner::Fileset => {
            told.push(" all: ");
            told.push_number(files);
        }
    }
    told.push("/");
    told.push_number(blocks);
}

/// Tells a fileset of a name, with the limits of the first ten users and groups.
fn push_fileset(alloc: Global, told: &mut Told, name: &[u8], slot: &FilesetSlot) {
    push_letters(told, name);
    if let Role::CloneOf { original, .. } = &slot.role {
        told.push(" of ");
        push_letters(told, original.as_slice());
    }
    push_limits(told, slot, Owner::Fileset);
    for id in 0..10 {
        push_limits(told, slot, Owner::User(id));
        push_limits(told, slot, Owner::Group(id));
    }
    told.push("\n");
    push_paths(alloc, told, slot);
}

/// Tells the filesets of a domain.
pub(crate) fn tell(alloc: Global, filesets: &Filesets, told: &mut Told) {
    let Ok(items) = filesets.items(alloc) else {
        return told.check(false);
    };
    for item in &items {
        match filesets.slot(&item.fileset) {
            Some(slot) => push_fileset(alloc, told, item.fileset.as_slice(), slot),
            None => told.check(false),
        }
    }
}
