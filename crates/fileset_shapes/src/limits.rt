//! The limits of a fileset's owners.
ghost use Rattle.std.specs.Prelude.{◌≡◌, ℕ, IfOk, IfSome, OnErr, OnOk, Some};
ghost use Rattle.std.specs.FinMap.{empty};
ghost use Rattle.filesets_reading.specs.metadata_cells.Chain.{IsBroken};
ghost use Rattle.filesets_reading.specs.metadata_cells.Reading.{ReadsChain};
ghost use Rattle.filesets_reading.specs.domain_base.declared.place.CellAt.{CellAt as CellOf};
ghost use Rattle.filesets_reading.specs.domain_layout.Shape.{AreQuotas};
ghost use Rattle.filesets_reading.specs.quota_book.QuotaCells.{TakesLimits, limits_said, said_by};
ghost use Rattle.fileset_shapes.specs.Limits.{HasLimitsOf, HasSaid, IsInSlot, KeepsFiles, book_of};

use filesets_reading::{
    CellAt, ChainFault, FilesetEntry, FilesetTree, Limits, MetaPages, OutOfMemory, Owner, Record,
    RecordList, read_chain,
};
use std::alloc::Global;

/// The records of a chain that is whole.
fn read_whole<M: MetaPages>(
    alloc: Global,
    pages: &M,
    at: &CellAt,
) -> Result<RecordList, OutOfMemory>
    requires { (broken : CellOf) → ¬ IsBroken (M.pages pages.now) at.now broken }
    ensures { IfOk result (ReadsChain (M.pages pages.now) at.now) }
{
    match read_chain(alloc, pages, *at) {
        Ok(records) => Ok(records),
        Err(ChainFault::OutOfMemory) => Err(OutOfMemory),
        Err(ChainFault::Broken { .. }) => unreachable!(),
    }
}

/// The records of the quota cells of a fileset in a slot; no record if it has no quota cell.
pub fn read_quotas<M: MetaPages>(
    alloc: Global,
    pages: &M,
    entry: &FilesetEntry,
) -> Result<RecordList, OutOfMemory>
    requires { IsInSlot (M.pages pages.now) entry.now }
    ensures { IfOk result (AreQuotas (M.pages pages.now) entry.now.quota) }
{
    match &entry.quota {
        Some(at) => read_whole(alloc, pages, at),
        None => Ok(RecordList::from_vec(Vec::new(alloc))),
    }
}

/// Sets an owner's limits. After an error the tree is as before.
fn take_limits(
    tree: &mut FilesetTree,
    who: Owner,
    files: u64,
    blocks: u64,
) -> Result<(), OutOfMemory>
    ensures takes { OnOk result (TakesLimits (Some (who, record { files = files; blocks = blocks }))
        (book_of tree.old) (book_of tree.new)) }
    ensures kept { KeepsFiles tree.old tree.new }
{
    tree.limit(who, Limits { files, blocks })
}

/// Sets the limits that a record says, if it says any. After an error the tree is as before.
fn take_said(tree: &mut FilesetTree, said: &Record) -> Result<(), OutOfMemory>
    ensures takes { OnOk result (TakesLimits (limits_said said.now) (book_of tree.old)
        (book_of tree.new)) }
    ensures kept { KeepsFiles tree.old tree.new }
{
    match said {
        Record::UserQuota { id, files, blocks } => {
            take_limits(tree, Owner::User(*id), *files, *blocks)
        }
        Record::GroupQuota { id, files, blocks } => {
            take_limits(tree, Owner::Group(*id), *files, *blocks)
        }
        _ => Ok(()),
    }
}

/// Sets the limits that records say. If two of them say limits of one owner, the first counts.
/// After an error some are set.
fn take_all(tree: &mut FilesetTree, records: &[Record]) -> Result<(), OutOfMemory>
    requires { tree.old.limits ≡ empty }
    ensures said { OnOk result (HasSaid (said_by records.now) tree.new) }
    ensures kept { KeepsFiles tree.old tree.new }
{
    for i in (0..records.len()).rev() {
        take_said(tree, &records[i])?;
    }
    Ok(())
}

/// Sets the limits of a fileset's owners, none of whom has limits yet: those of users and groups
/// that the records of its quota cells say, and its own, which stand in its slot. After an error
/// some are set.
pub fn set_limits(
    tree: &mut FilesetTree,
    entry: &FilesetEntry,
    records: &[Record],
) -> Result<(), OutOfMemory>
    requires { tree.old.limits ≡ empty }
    ensures limits { OnOk result (HasLimitsOf entry.now records.now tree.new) }
    ensures kept { KeepsFiles tree.old tree.new }
{
    take_all(tree, records)?;
    take_limits(tree, Owner::Fileset, entry.files_limit, entry.blocks_limit)
}
