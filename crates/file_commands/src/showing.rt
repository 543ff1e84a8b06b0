//! Commands that show the filesets, and what an owner uses (showfsets, showquota).
ghost use Rattle.std.specs.Prelude.{◌≡◌, ◌||◌, IfErr, IfOk, None, OnOk, map};
ghost use Rattle.std.specs.BTreeSet.{IsOrdered, contains};
ghost use Rattle.std.specs.List.{list_any};
ghost use Rattle.name_commands.specs.fileset_model.Filesets.{FilesetMap};
ghost use Rattle.name_commands.specs.fileset_values.Orders.{Name, name_cmp};
ghost use Rattle.name_commands.specs.fileset_values.declared.command.Command.TheVariants.{Showfsets, Showquota};
ghost use Rattle.name_commands.specs.fileset_table.Table.{has_name};
ghost use Rattle.name_commands.specs.domain_memory.Kept.{KeepsKept};
ghost use Rattle.name_commands.specs.domain_memory.Memory.{StandsFor};
ghost use Rattle.name_commands.specs.domain_memory.Staged.{IsSettled, MayGoBack};
ghost use Rattle.name_commands.specs.domain_state.History.{StandsForSome};
ghost use Rattle.name_commands.specs.Ending.{EndsAs, LacksPage};
ghost use Rattle.name_commands.specs.Placing.{RepliesAs};
ghost use Rattle.name_commands.specs.declared.stop.Stop.TheVariants.{NoPage};

use name_commands::limits::FILESET_SLOTS;
use name_commands::{
    DomainMemory, FilesetItem, FilesetList, FilesetName, FilesetNo, FilesetTable, OutOfMemory,
    Owner, Reply, SlotItem, Stop, slot_of, used_by,
};
use std::alloc::Global;
use std::collections::BTreeSet;

/// Notes the name of the fileset in a slot, if that has one.
fn note_name(
    alloc: Global,
    names: &mut BTreeSet<FilesetName>,
    item: &SlotItem,
) -> Result<(), OutOfMemory>
    ensures { OnOk result ((name : Name) → contains name_cmp names.new name
        ≡ (has_name name item.now || contains name_cmp names.old name)) }
{
    match item {
        SlotItem::Original { entry } | SlotItem::Clone { entry, .. } => {
            let name = entry.name.copy(alloc)?;
            names.insert(name)?;
            Ok(())
        }
        SlotItem::Free | SlotItem::Removed { .. } => Ok(()),
    }
}

/// The names of the filesets of a table. A fileset that is being removed has no name.
fn names_of(alloc: Global, table: &FilesetTable) -> Result<BTreeSet<FilesetName>, OutOfMemory>
    ensures { IfOk result (λ names. (name : Name) → contains name_cmp names name
        ≡ list_any (has_name name) table.now.slots) }
{
    let mut names = BTreeSet::new(alloc);
    for n in 0..FILESET_SLOTS {
        let Some(number) = FilesetNo::new(n) else {
            unreachable!();
        };
        note_name(alloc, &mut names, table.slot(number))?;
    }
    Ok(names)
}

/// A row for each of these names, in their order, each as for an original.
fn rows_for(alloc: Global, names: BTreeSet<FilesetName>) -> Result<FilesetList, OutOfMemory>
    ensures rows { IfOk result (λ list.
        list ≡ map (λ name. record { fileset = name; original = None }) names.keys) }
    ensures ordered { OnOk result (IsOrdered name_cmp names) }
{
    let mut rows = Vec::new(alloc);
    for fileset in names {
        let row = FilesetItem {
            fileset,
            original: None,
        };
        rows.push(row)?;
    }
    Ok(FilesetList::from_vec(rows))
}

/// The filesets in the byte order of their names.
fn show_filesets(memory: &DomainMemory, alloc: Global) -> Result<Reply, Stop>
    requires settled { IsSettled memory.now }
    ensures { (all : FilesetMap) → StandsFor memory.now all → RepliesAs all Showfsets result }
{
    let names = names_of(alloc, &memory.table)?;
    let rows = rows_for(alloc, names)?;
    Ok(Reply::Filesets(rows))
}

/// What an owner uses of a fileset, with the owner's limits; no-fileset if no fileset has this
/// name.
fn show_quota(memory: &DomainMemory, fileset: &FilesetName, who: Owner) -> Result<Reply, Stop>
    requires settled { IsSettled memory.now }
    requires stands { ∥ StandsForSome memory.now ∥₁ }
    ensures { (all : FilesetMap) → StandsFor memory.now all
        → RepliesAs all (Showquota fileset.now who) result }
{
    let number = slot_of(memory, fileset)?;
    let (usage, limits) = used_by(memory, number, who);
    Ok(Reply::Quota {
        files: usage.files,
        files_limit: limits.files,
        blocks: usage.blocks,
        blocks_limit: limits.blocks,
    })
}

/// Shows the filesets in the byte order of their names. Memory stays as it is.
pub(crate) fn stage_showfsets(
    memory: DomainMemory,
    alloc: Global,
) -> (DomainMemory, Result<Reply, Stop>)
    requires settled { IsSettled memory }
    requires back { ∥ MayGoBack memory ∥₁ }
    ensures ends { (all : FilesetMap) → StandsFor memory all
        → EndsAs result.0 all Showfsets result.1 }
    ensures kept { ∥ KeepsKept memory result.0 ∥₁ }
    ensures back { ∥ MayGoBack result.0 ∥₁ }
    ensures cause { IfErr result.1 (λ stop. stop ≡ NoPage → LacksPage Showfsets memory) }
{
    let answer = show_filesets(&memory, alloc);
    (memory, answer)
}

/// Shows what an owner uses of a fileset, with the owner's limits. The command is refused as the
/// rules of filesets say. Memory stays as it is.
pub(crate) fn stage_showquota(
    memory: DomainMemory,
    fileset: &FilesetName,
    who: Owner,
) -> (DomainMemory, Result<Reply, Stop>)
    requires settled { IsSettled memory }
    requires stands { ∥ StandsForSome memory ∥₁ }
    requires back { ∥ MayGoBack memory ∥₁ }
    ensures ends { (all : FilesetMap) → StandsFor memory all
        → EndsAs result.0 all (Showquota fileset.now who) result.1 }
    ensures kept { ∥ KeepsKept memory result.0 ∥₁ }
    ensures back { ∥ MayGoBack result.0 ∥₁ }
    ensures cause { IfErr result.1 (λ stop. stop ≡ NoPage
        → LacksPage (Showquota fileset.now who) memory) }
{
    let answer = show_quota(&memory, fileset, who);
    (memory, answer)
}
