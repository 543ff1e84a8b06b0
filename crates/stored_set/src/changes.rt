//! Making and linking files and directories.
ghost use Rattle.std.specs.Prelude.{◌≡◌, ◌+◌, ◌≤◌, [], IfErr, IfOk, IsSome, IsSomeAnd, None, OnErr, OnOk};
ghost use Rattle.std.specs.Option.{option_and_then};
ghost use Rattle.index_pages.specs.domain_base.Limits.{max_links};
ghost use Rattle.index_pages.specs.page_store.Bitfiles.{Bitfiles as SetOf, linked, new_file as shown_new, with_change, with_file};
ghost use Rattle.index_pages.specs.metadata_cells.CellPage.{KeepsHeaders, KeepsWellFormed};
ghost use Rattle.index_pages.specs.file_chains.FileChanges.{LeavesOtherCells};
ghost use Rattle.index_pages.specs.fileset_files.Changes.{ChangesFirst, says_attributes, with_chain, with_first};
ghost use Rattle.index_pages.specs.fileset_files.Creation.{Creates, CreatesNone, LeavesBeside, TakesForFile, TakesNext, new_file};
ghost use Rattle.index_pages.specs.fileset_files.Files.{AreFiles, Chains, attributes_of, of_live};
ghost use Rattle.index_pages.specs.fileset_files.Together.{AreTogether};
ghost use Rattle.stored_set.specs.Sets.{HasSet, StandsAsSet};

use index_pages::{
    Attributes, Bitfiles, FreeCells, FreeSpace, Kind, MetaPages, OutOfMemory, StoreFault, Tag,
    Version, VolIx,
};
use std::alloc::Global;

/// Makes a file or a directory of that owner, with one link and no page, born at that clone's
/// number. Returns its tag, which named nothing before and was never returned. Its cell is taken of
/// the preferred volume if that has one. NoPage is returned only if no page is free and one is
/// needed, for cells or for tags, or only one is free and both need one. That is a miss. After an
/// error nothing but room and the count of misses has changed, and the set is as it was.
pub fn make<M: MetaPages>(
    alloc: Global,
    pages: &mut M,
    space: &mut FreeSpace,
    cells: &mut FreeCells,
    files: &mut Bitfiles,
    kind: Kind,
    uid: u32,
    gid: u32,
    birth: u64,
    version: Version,
    prefer: VolIx,
) -> Result<Tag, StoreFault>
    requires { HasSet files.old.fileset files.old.tags space.old cells.old (M.pages pages.old) }
    ensures fresh { (set : SetOf) → StandsAsSet files.old.fileset files.old.tags space.old cells.old
        (M.pages pages.old) set → IfOk result (λ tag. set tag ≡ None) }
    ensures ok { (set : SetOf) → StandsAsSet files.old.fileset files.old.tags space.old cells.old
        (M.pages pages.old) set → IfOk result (λ tag. StandsAsSet files.new.fileset files.new.tags
        space.new cells.new (M.pages pages.new) (with_file tag (shown_new kind uid gid) set)) }
    ensures err { (set : SetOf) → StandsAsSet files.old.fileset files.old.tags space.old cells.old
        (M.pages pages.old) set → OnErr result (StandsAsSet files.new.fileset files.new.tags
        space.new cells.new (M.pages pages.new) set) }
    ensures creates { (chains : Chains) → AreTogether files.old.fileset files.old.tags space.old
        cells.old (M.pages pages.old) chains → IfOk result (λ tag. Creates files.old.fileset
        files.new.tags tag version (new_file kind uid gid birth) chains space.new cells.old
        cells.new (M.pages pages.old) (M.pages pages.new)) }
    ensures next { IfOk result (λ tag. TakesNext tag files.old.tags files.new.tags
        (M.pages pages.old) (M.pages pages.new)) }
    ensures taken { OnOk result (TakesForFile prefer files.old.tags files.new.tags space.old
        space.new cells.old cells.new (M.pages pages.old)) }
    ensures none { IfErr result (CreatesNone files.old.tags space.old space.new cells.old
        (M.pages pages.old)) }
    ensures fileset { files.new.fileset ≡ files.old.fileset }
    ensures same { OnErr result (files.new ≡ files.old) }
    ensures cells { OnErr result (cells.new ≡ cells.old) }
    ensures pages { OnErr result (M.pages pages.new ≡ M.pages pages.old) }
    ensures others { LeavesOtherCells cells.old [] (M.pages pages.old) (M.pages pages.new) }
    ensures elsewhere { LeavesBeside cells.new files.new.tags (M.pages pages.old)
        (M.pages pages.new) }
    ensures room { M.room pages.old ≤ M.room pages.new + 2 }
    ensures before { M.before pages.new ≡ M.before pages.old }
{
    files.create(
        alloc, pages, space, cells, kind, uid, gid, birth, version, prefer,
    )
}

/// These attributes with another number of links.
fn with_links(was: &Attributes, links: u32) -> Attributes
    ensures { result ≡ record was.now { links = links } }
{
    Attributes {
        kind: was.kind,
        uid: was.uid,
        gid: was.gid,
        is_logged: was.is_logged,
        size: was.size,
        links,
    }
}

/// Sets how many rows name a tag's file or directory, from 1 to 1,000. All its other attributes
/// stay. After an error the set is as it was.
pub fn set_links<M: MetaPages>(
    alloc: Global,
    pages: &mut M,
    space: &FreeSpace,
    cells: &FreeCells,
    files: &Bitfiles,
    tag: Tag,
    links: u32,
) -> Result<(), OutOfMemory>
    requires set { HasSet files.now.fileset files.now.tags space.now cells.now
        (M.pages pages.old) }
    requires live { (set : SetOf) → StandsAsSet files.now.fileset files.now.tags space.now cells.now
        (M.pages pages.old) set → IsSome (set tag) }
    requires named { 1 ≤ links }
    requires most { links ≤ max_links }
    ensures ok { (set : SetOf) → StandsAsSet files.now.fileset files.now.tags space.now cells.now
        (M.pages pages.old) set → OnOk result (StandsAsSet files.now.fileset files.now.tags
        space.now cells.now (M.pages pages.new) (with_change tag (linked links) set)) }
    ensures says { (chains : Chains) → AreTogether files.now.fileset files.now.tags space.now
        cells.now (M.pages pages.old) chains → OnOk result (IsSomeAnd
        (option_and_then (of_live attributes_of) (chains tag)) (λ was. AreTogether files.now.fileset
        files.now.tags space.now cells.now (M.pages pages.new)
        (with_chain tag (with_first (says_attributes (record was { links = links }))) chains))) }
    ensures err { OnErr result (M.pages pages.new ≡ M.pages pages.old) }
    ensures beside { (chains : Chains)
        → AreFiles files.now.fileset files.now.tags (M.pages pages.old) chains
        → ChangesFirst (chains tag) (M.pages pages.old) (M.pages pages.new) }
    ensures well_formed { KeepsWellFormed (M.pages pages.old) (M.pages pages.new) }
    ensures headers { KeepsHeaders (M.pages pages.old) (M.pages pages.new) }
    ensures room { M.room pages.new ≡ M.room pages.old }
    ensures before { M.before pages.new ≡ M.before pages.old }
{
    let Some(was) = files.attributes(pages, tag) else {
        unreachable!();
    };
    let value = with_links(&was, links);
    files.set_attributes(alloc, pages, tag, &value)
}
