//! The check of owners' limits.
ghost use Rattle.std.specs.Prelude.{◌∷◌, ◌≡◌, []};
ghost use Rattle.legal_histories.specs.fileset_model.Paths.{first_refusal};
ghost use Rattle.legal_histories.specs.fileset_model.Usage.{blocks_refusal, files_refusal, passes as passes_limit, quota_refusal};
ghost use Rattle.plain_program.specs.Stops.{Checks};

use crate::stop::{Stop, refuse_if};
use legal_histories::{FilesetTree, Owner, Refusal};
use std::alloc::Global;

/// Whether `asked` more would pass a limit. A limit of 0 means no limit.
pub(crate) fn passes(limit: u64, used: u64, asked: u64) -> bool
    ensures { result ≡ passes_limit limit used asked }
{
    limit != 0 && asked != 0 && (asked > limit || used > limit - asked)
}

/// Checks whether one owner's limits allow that many more files or blocks.
pub(crate) fn check_owner(
    alloc: Global,
    tree: &FilesetTree,
    who: Owner,
    files: u64,
    blocks: u64,
) -> Result<(), Stop>
    ensures { Checks (first_refusal
        (files_refusal tree.now who files ∷ blocks_refusal tree.now who blocks ∷ [])) result }
{
    let limits = tree.limits(who);
    let usage = tree.usage(alloc, who)?;
    let files_refusal = Refusal::QuotaFiles {
        limit: limits.files,
        used: usage.files,
    };
    refuse_if(passes(limits.files, usage.files, files), files_refusal)?;
    let blocks_refusal = Refusal::QuotaBlocks {
        limit: limits.blocks,
        used: usage.blocks,
        asked: blocks,
    };
    refuse_if(passes(limits.blocks, usage.blocks, blocks), blocks_refusal)?;
    Ok(())
}

/// Checks whether the limits of the user, the group and the fileset, in this order, allow that many
/// more files or blocks of these ids.
pub(crate) fn check_quota(
    alloc: Global,
    tree: &FilesetTree,
    uid: u32,
    gid: u32,
    files: u64,
    blocks: u64,
) -> Result<(), Stop>
    ensures { Checks (quota_refusal tree.now uid gid files blocks) result }
{
    check_owner(alloc, tree, Owner::User(uid), files, blocks)?;
    check_owner(alloc, tree, Owner::Group(gid), files, blocks)?;
    check_owner(alloc, tree, Owner::Fileset, files, blocks)
}
