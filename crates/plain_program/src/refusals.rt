//! The checks of each command, in their order.
ghost use Rattle.std.specs.Prelude.{◌*◌, ◌+◌, ◌∷◌, ◌≡◌, ◌≤◌, IfOk, MatchResult, None as NoRefusal, [], length, nat_lt};
ghost use Rattle.std.specs.FinMap as map;
ghost use Rattle.std.specs.Option.{option_map_or};
ghost use Rattle.legal_histories.specs.domain_base.declared.limits.TheConstants.{FILE_BYTES};
ghost use Rattle.legal_histories.specs.fileset_model.Apply.{create_checks, filesets_full, link_checks, links_full, move_checks, name_taken, not_empty, out_of_sync, path_taken, read_checks, read_only, refusal_of, rename_checks, replace_checks, write_checks, write_quota};
ghost use Rattle.legal_histories.specs.fileset_model.Pages.{absent_pages};
ghost use Rattle.legal_histories.specs.fileset_model.Paths.{directory_here, directory_refusal, file_here, first_refusal, node_at, refuse_if as refusal_if, target_refusal, walk_refusal};
ghost use Rattle.legal_histories.specs.fileset_values.declared.command.Command.TheVariants.{Clonefset};
ghost use Rattle.legal_histories.specs.fileset_values.declared.reply.Refusal.TheVariants.{NoFileset as NoFilesetRefusal, TooFar as TooFarRefusal};
ghost use Rattle.plain_program.specs.Stops.{Checks, Refuses};

use crate::quotas::check_quota;
use crate::stop::{Stop, refuse_if};
use legal_histories::limits::{
    BLOCKS_PER_PAGE, FILE_BYTES as LARGEST_FILE, MAX_FILESETS, MAX_LINKS,
};
use legal_histories::{
    FilesetName, FilesetSlot, FilesetTree, Filesets, Node, OutOfMemory, PageMap, Path, Refusal,
};
use std::alloc::Global;

/// Read-only, if the fileset is a clone.
pub(crate) fn check_writable(slot: &FilesetSlot) -> Result<(), Refusal>
    ensures { Refuses (read_only slot.now) result }
{
    refuse_if(slot.role.is_clone(), Refusal::ReadOnly)
}

/// Out-of-sync, if what a path leads to lost its frozen content.
pub(crate) fn check_in_sync(slot: &FilesetSlot, path: &Path) -> Result<(), Refusal>
    ensures { Refuses (out_of_sync slot.now path.now) result }
{
    match slot.tree.number_at(path) {
        Some(number) => refuse_if(slot.role.is_out_of_sync(number), Refusal::OutOfSync),
        None => Ok(()),
    }
}

/// Exists, if a path leads to something.
pub(crate) fn check_not_taken(slot: &FilesetSlot, path: &Path) -> Result<(), Refusal>
    ensures { Refuses (path_taken slot.now path.now) result }
{
    refuse_if(slot.tree.number_at(path).is_some(), Refusal::Exists)
}

/// What keeps a command from looking a name up in the directory at this path.
pub(crate) fn check_directory(slot: &FilesetSlot, path: &Path) -> Result<(), Refusal>
    ensures { Refuses (directory_refusal slot.now path.now) result }
{
    let Some(node) = slot.tree.node_at(path) else {
        return Err(Refusal::NoPath);
    };
    refuse_if(!node.is_directory(), Refusal::NotDirectory)?;
    check_in_sync(slot, path)
}

/// Is-directory, if a path leads to one.
pub(crate) fn check_not_directory(slot: &FilesetSlot, path: &Path) -> Result<(), Refusal>
    ensures { Refuses (directory_here slot.now path.now) result }
{
    match slot.tree.node_at(path) {
        Some(node) => refuse_if(node.is_directory(), Refusal::IsDirectory),
        None => Ok(()),
    }
}

/// Not-directory, if a path leads to a file.
pub(crate) fn check_not_file(slot: &FilesetSlot, path: &Path) -> Result<(), Refusal>
    ensures { Refuses (file_here slot.now path.now) result }
{
    match slot.tree.node_at(path) {
        Some(node) => refuse_if(!node.is_directory(), Refusal::NotDirectory),
        None => Ok(()),
    }
}

/// What the way from the root to the last name of a path refuses.
pub(crate) fn check_walk(alloc: Global, slot: &FilesetSlot, path: &Path) -> Result<(), Stop>
    ensures { Checks (walk_refusal slot.now path.now) result }
{
    for count in 0..path.as_slice().len() {
        let directory = path.front(alloc, count)?;
        check_directory(slot, &directory)?;
    }
    Ok(())
}

/// What the way from the root to the last name of a path refuses, or no-path if the last name is
/// missing.
pub(crate) fn check_target(alloc: Global, slot: &FilesetSlot, path: &Path) -> Result<(), Stop>
    ensures { Checks (target_refusal slot.now path.now) result }
{
    check_walk(alloc, slot, path)?;
    refuse_if(slot.tree.number_at(path).is_none(), Refusal::NoPath)?;
    Ok(())
}

/// Not-empty, if a directory has rows or is the root, and so must stay.
pub(crate) fn check_empty(alloc: Global, slot: &FilesetSlot, path: &Path) -> Result<(), Stop>
    ensures { Checks (not_empty slot.now path.now) result }
{
    let rows = slot.tree.rows(alloc, path)?;
    let stays = path.as_slice().is_empty() || !rows.is_empty();
    refuse_if(stays, Refusal::NotEmpty)?;
    Ok(())
}

/// Whether a file or directory can be made at a path.
pub(crate) fn check_create(
    alloc: Global,
    slot: &FilesetSlot,
    path: &Path,
    uid: u32,
    gid: u32,
) -> Result<(), Stop>
    ensures { Checks (first_refusal (create_checks path.now uid gid slot.now)) result }
{
    check_writable(slot)?;
    check_walk(alloc, slot, path)?;
    check_not_taken(slot, path)?;
    check_quota(alloc, &slot.tree, uid, gid, 1, 0)
}

/// Whether the file at a path can be changed or removed.
pub(crate) fn check_file(alloc: Global, slot: &FilesetSlot, path: &Path) -> Result<(), Stop>
    ensures { Checks (first_refusal (read_only slot.now ∷ target_refusal slot.now path.now
        ∷ directory_here slot.now path.now ∷ [])) result }
{
    check_writable(slot)?;
    check_target(alloc, slot, path)?;
    check_not_directory(slot, path)?;
    Ok(())
}

/// Whether the bytes can be written at a path.
pub(crate) fn check_write(
    alloc: Global,
    slot: &FilesetSlot,
    path: &Path,
    offset: u64,
    bytes: &[u8],
) -> Result<(), Stop>
    ensures { Checks (first_refusal (write_checks path.now offset bytes.now slot.now)) result }
{
    check_file(alloc, slot, path)?;
    if ends_too_far(offset, bytes) {
        return Err(Stop::Refused(Refusal::TooFar));
    }
    check_write_quota(alloc, &slot.tree, path, offset, bytes)
}

/// Whether the bytes would end past the largest file.
pub(crate) fn ends_too_far(offset: u64, bytes: &[u8]) -> bool
    ensures { result ≡ nat_lt FILE_BYTES (offset + length bytes.now) }
{
    let len = bytes.len() as u64;
    len > LARGEST_FILE || offset > LARGEST_FILE - len
}

/// Whether the absent pages of a write pass no limit of the file's owners.
pub(crate) fn check_write_quota(
    alloc: Global,
    tree: &FilesetTree,
    path: &Path,
    offset: u64,
    bytes: &[u8],
) -> Result<(), Stop>
    requires { offset + length bytes.now ≤ FILE_BYTES }
    ensures { let node = node_at tree.now path.now in
        Checks (option_map_or (write_quota tree.now offset bytes.now) node NoRefusal) result }
{
    match tree.node_at(path) {
        Some(
            Node::File {
                uid,
                gid,
                pages,
                ..
            },
        ) => {
            let blocks = absent_blocks(pages, offset, bytes)?;
            check_quota(alloc, tree, *uid, *gid, 0, blocks)
        }
        _ => Ok(()),
    }
}

/// The blocks of the absent pages in which the bytes lie. A number that does not fit is reported as
/// out of memory.
pub(crate) fn absent_blocks(pages: &PageMap, offset: u64, bytes: &[u8]) -> Result<u64, OutOfMemory>
    requires { offset + length bytes.now ≤ FILE_BYTES }
    ensures { IfOk result (λ blocks.
        blocks ≡ BLOCKS_PER_PAGE * absent_pages pages.now offset (length bytes.now)) }
{
    pages
        .count_absent(offset, bytes.len() as u64)
        .checked_mul(u64::from(BLOCKS_PER_PAGE))
        .ok_or(OutOfMemory)
}

/// Whether a file can be read at a path.
pub(crate) fn check_read(alloc: Global, slot: &FilesetSlot, path: &Path) -> Result<(), Stop>
    ensures { Checks (first_refusal (read_checks path.now slot.now)) result }
{
    check_target(alloc, slot, path)?;
    check_not_directory(slot, path)?;
    check_in_sync(slot, path)?;
    Ok(())
}

/// Whether the file at a path can get this size.
pub(crate) fn check_truncate(
    alloc: Global,
    slot: &FilesetSlot,
    path: &Path,
    size: u64,
) -> Result<(), Stop>
    ensures { Checks (first_refusal (read_only slot.now ∷ target_refusal slot.now path.now
        ∷ directory_here slot.now path.now
        ∷ refusal_if (nat_lt FILE_BYTES size) TooFarRefusal ∷ [])) result }
{
    check_file(alloc, slot, path)?;
    refuse_if(size > LARGEST_FILE, Refusal::TooFar)?;
    Ok(())
}

/// Whether there is an empty directory to be removed at a path.
pub(crate) fn check_rmdir(alloc: Global, slot: &FilesetSlot, path: &Path) -> Result<(), Stop>
    ensures { Checks (first_refusal (read_only slot.now ∷ target_refusal slot.now path.now
        ∷ file_here slot.now path.now ∷ not_empty slot.now path.now ∷ [])) result }
{
    check_writable(slot)?;
    check_target(alloc, slot, path)?;
    check_not_file(slot, path)?;
    check_empty(alloc, slot, path)
}

/// Whether a file can get one more path.
pub(crate) fn check_link(
    alloc: Global,
    slot: &FilesetSlot,
    path: &Path,
    to: &Path,
) -> Result<(), Stop>
    ensures { Checks (first_refusal (link_checks path.now to.now slot.now)) result }
{
    check_file(alloc, slot, path)?;
    check_walk(alloc, slot, to)?;
    check_not_taken(slot, to)?;
    check_links(slot, path)?;
    Ok(())
}

/// Links-full, if a path leads to a file with as many paths as a file may have.
pub(crate) fn check_links(slot: &FilesetSlot, path: &Path) -> Result<(), Refusal>
    ensures { Refuses (links_full slot.now path.now) result }
{
    match slot.tree.number_at(path) {
        Some(number) => {
            let is_full = slot.tree.paths_to(number) >= MAX_LINKS as usize;
            refuse_if(is_full, Refusal::LinksFull)
        }
        None => Ok(()),
    }
}

/// Whether what stands at a path can be moved to another.
pub(crate) fn check_rename(
    alloc: Global,
    slot: &FilesetSlot,
    from: &Path,
    to: &Path,
) -> Result<(), Stop>
    ensures { Checks (first_refusal (rename_checks from.now to.now slot.now)) result }
{
    check_writable(slot)?;
    check_target(alloc, slot, from)?;
    check_walk(alloc, slot, to)?;
    if slot.tree.names_one(from, to) {
        return Ok(());
    }
    check_move(alloc, slot, from, to)
}

/// Whether what stands at a path can come to another path.
pub(crate) fn check_move(
    alloc: Global,
    slot: &FilesetSlot,
    from: &Path,
    to: &Path,
) -> Result<(), Stop>
    ensures { Checks (first_refusal (move_checks from.now to.now slot.now)) result }
{
    let is_below = to.as_slice().starts_with(from.as_slice());
    refuse_if(is_below, Refusal::IntoItself)?;
    match slot.tree.number_at(to) {
        Some(_) => check_replace(alloc, slot, from, to),
        None => Ok(()),
    }
}

/// Whether what stands at a path can take the place of what stands at another: a file takes that of
/// a file, and a directory that of an empty directory.
pub(crate) fn check_replace(
    alloc: Global,
    slot: &FilesetSlot,
    from: &Path,
    to: &Path,
) -> Result<(), Stop>
    ensures { Checks (first_refusal (replace_checks from.now to.now slot.now)) result }
{
    match slot.tree.node_at(from) {
        Some(node) if node.is_directory() => {
            check_not_file(slot, to)?;
            check_empty(alloc, slot, to)
        }
        _ => Ok(check_not_directory(slot, to)?),
    }
}

/// Whether the names at a path can be listed.
pub(crate) fn check_list(alloc: Global, slot: &FilesetSlot, path: &Path) -> Result<(), Stop>
    ensures { Checks (first_refusal (target_refusal slot.now path.now
        ∷ file_here slot.now path.now ∷ out_of_sync slot.now path.now ∷ [])) result }
{
    check_target(alloc, slot, path)?;
    check_not_file(slot, path)?;
    check_in_sync(slot, path)?;
    Ok(())
}

/// Whether the attributes at a path can be shown.
pub(crate) fn check_stat(alloc: Global, slot: &FilesetSlot, path: &Path) -> Result<(), Stop>
    ensures { Checks (first_refusal (target_refusal slot.now path.now
        ∷ out_of_sync slot.now path.now ∷ [])) result }
{
    check_target(alloc, slot, path)?;
    check_in_sync(slot, path)?;
    Ok(())
}

/// Whether a fileset can be cloned under a new name.
pub(crate) fn check_clonefset(
    filesets: &Filesets,
    name: &FilesetName,
    new_name: &FilesetName,
) -> Result<(), Refusal>
    ensures { Refuses (refusal_of filesets.now (Clonefset name.now new_name.now)) result }
{
    let slot = slot_of(filesets, name)?;
    refuse_if(slot.role.is_clone(), Refusal::CloneOfClone)?;
    refuse_if(filesets.has_clone(name), Refusal::HasClone)?;
    check_new_name(filesets, new_name)
}

/// Whether a fileset can be added under a name.
pub(crate) fn check_new_name(filesets: &Filesets, name: &FilesetName) -> Result<(), Refusal>
    ensures { Refuses (first_refusal (name_taken filesets.now name.now
        ∷ filesets_full filesets.now ∷ [])) result }
{
    refuse_if(filesets.slot(name).is_some(), Refusal::FilesetExists)?;
    refuse_if(
        filesets.len() >= MAX_FILESETS as usize,
        Refusal::FilesetsFull,
    )
}

/// The fileset with a name, or no-fileset if there is none.
pub(crate) fn slot_of<'a>(
    filesets: &'a Filesets,
    name: &FilesetName,
) -> Result<&'a FilesetSlot, Refusal>
    ensures { MatchResult result
        (λ slot. map.get filesets.now name.now ≡ Some slot.now)
        (λ why. (map.get filesets.now name.now ≡ None) × (why ≡ NoFilesetRefusal)) }
{
    filesets.slot(name).ok_or(Refusal::NoFileset)
}
