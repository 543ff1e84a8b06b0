//! Taking files and directories away.
ghost use Rattle.std.specs.Prelude.{◌≡◌, ◌+◌, ◌≤◌, IfOk, IsSome, List, None, OnErr, OnOk};
ghost use Rattle.std.specs.Option.{option_and_then};
ghost use Rattle.index_pages.specs.domain_base.declared.place.Home.{Home as HomeOf};
ghost use Rattle.index_pages.specs.page_store.Bitfiles.{Bitfiles as SetOf, without_file};
ghost use Rattle.index_pages.specs.free_cells.Cells.{Cells};
ghost use Rattle.index_pages.specs.free_space.Spaces.{Spaces};
ghost use Rattle.index_pages.specs.fileset_files.Changes.{ChangesBeside, IsLive, KeepsSequences, Removes, with_chain, with_first, without_chain};
ghost use Rattle.index_pages.specs.fileset_files.Files.{AreFiles, Chains, HasFiles};
ghost use Rattle.index_pages.specs.fileset_files.Index.{says_index};
ghost use Rattle.index_pages.specs.fileset_files.Shown.{index_of};
ghost use Rattle.index_pages.specs.fileset_files.Together.{AreTogether};
ghost use Rattle.index_pages.specs.Homes.{AreIndexHomes};
ghost use Rattle.stored_set.specs.Sets.{GivesIndexBack, HasSet, StandsAsSet, without_index};

use crate::adding::{copy_at, home_of};
use index_pages::{
    Bitfiles, CellAt, FreeCells, FreeSpace, MetaPages, OutOfMemory, Tag, drop_index,
};
use std::alloc::Global;

/// Takes a live tag out of use, once its first cell names no index. The pages of the index are then
/// the caller's to give up. Returns that cell, which then says that all of the file or directory is
/// to be let go. After an error nothing but room has changed.
pub fn take_out<M: MetaPages>(
    alloc: Global,
    pages: &mut M,
    files: &mut Bitfiles,
    tag: Tag,
) -> Result<CellAt, OutOfMemory>
    requires files { HasFiles files.old.fileset files.old.tags (M.pages pages.old) }
    requires live { (chains : Chains)
        → AreFiles files.old.fileset files.old.tags (M.pages pages.old) chains
        → IsLive tag chains }
    ensures ok { (chains : Chains)
        → AreFiles files.old.fileset files.old.tags (M.pages pages.old) chains
        → IfOk result (λ at. Removes files.old.fileset files.old.tags tag at
        (with_chain tag (with_first (says_index None)) chains) (M.pages pages.new)) }
    ensures together { (space : Spaces) (cells : Cells) (chains : Chains)
        → AreTogether files.old.fileset files.old.tags space cells (M.pages pages.old) chains
        → OnOk result (AreTogether files.new.fileset files.new.tags space cells
        (M.pages pages.new) (without_chain tag chains)) }
    ensures err { OnErr result (M.pages pages.new ≡ M.pages pages.old) }
    ensures beside { (chains : Chains)
        → AreFiles files.old.fileset files.old.tags (M.pages pages.old) chains
        → OnOk result (ChangesBeside files.old.tags (chains tag) (M.pages pages.old)
        (M.pages pages.new)) }
    ensures sequences { OnOk result (KeepsSequences files.old.tags (M.pages pages.old)
        (M.pages pages.new)) }
    ensures same { files.new ≡ files.old }
    ensures room { M.room pages.old ≤ M.room pages.new + 1 }
    ensures before { M.before pages.new ≡ M.before pages.old }
{
    let Some(at) = files.live_cell(pages, tag) else {
        unreachable!();
    };
    let home = home_of(&at);
    let saved = copy_at(alloc, pages, &home)?;
    pages.reserve(alloc, 1)?;
    files.set_index(alloc, pages, tag, None)?;
    match files.remove(alloc, pages, tag) {
        Ok(first) => Ok(first),
        Err(fault) => {
            pages.put(home, saved);
            Err(fault)
        }
    }
}

/// Takes a tag's file or directory away. Its tag names nothing any more, and the pages of its index
/// wait until the log has passed this group. Returns the first cell, which says that all of it is
/// to be let go, and names no index. After an error nothing but room has changed.
pub fn remove<M: MetaPages>(
    alloc: Global,
    pages: &mut M,
    space: &mut FreeSpace,
    cells: &FreeCells,
    files: &mut Bitfiles,
    tag: Tag,
    group: u64,
) -> Result<CellAt, OutOfMemory>
    requires set { HasSet files.old.fileset files.old.tags space.old cells.now
        (M.pages pages.old) }
    requires live { (set : SetOf) → StandsAsSet files.old.fileset files.old.tags space.old cells.now
        (M.pages pages.old) set → IsSome (set tag) }
    ensures ok { (set : SetOf) → StandsAsSet files.old.fileset files.old.tags space.old cells.now
        (M.pages pages.old) set → OnOk result (StandsAsSet files.new.fileset files.new.tags
        space.new cells.now (M.pages pages.new) (without_file tag set)) }
    ensures removes { (chains : Chains)
        → AreFiles files.old.fileset files.old.tags (M.pages pages.old) chains
        → IfOk result (λ at. Removes files.old.fileset files.old.tags tag at
        (without_index tag chains) (M.pages pages.new)) }
    ensures gives { (chains : Chains) (homes : List HomeOf)
        → AreFiles files.old.fileset files.old.tags (M.pages pages.old) chains
        → AreIndexHomes (M.pages pages.old) (option_and_then index_of (chains tag)) homes
        → OnOk result (GivesIndexBack group files.old.tags (chains tag) homes space.old space.new
        (M.pages pages.old) (M.pages pages.new)) }
    ensures err { OnErr result (M.pages pages.new ≡ M.pages pages.old) }
    ensures none { OnErr result (space.new ≡ space.old) }
    ensures sequences { OnOk result (KeepsSequences files.old.tags (M.pages pages.old)
        (M.pages pages.new)) }
    ensures same { files.new ≡ files.old }
    ensures room { M.room pages.old ≤ M.room pages.new + 1 }
    ensures before { M.before pages.new ≡ M.before pages.old }
{
    let Some(index) = files.index(pages, tag) else {
        return files.remove(alloc, pages, tag);
    };
    let at = take_out(alloc, pages, files, tag)?;
    drop_index(pages, space, index.first, group);
    Ok(at)
}
