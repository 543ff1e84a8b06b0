//! Making files and directories.
ghost use Rattle.std.specs.Prelude.{◌≡◌, ◌∷◌, ◌++◌, ◌+◌, ◌*◌, ◌<◌, ◌≤◌, ℕ, [], IfErr, IfOk, IfSome, IsSomeAnd, List, OnErr, OnOk, Contains, Some, None, false, if◌then◌else◌, ◌==◌, length};
ghost use Rattle.file_chains.specs.domain_base.declared.place.Home.{Home as HomeOf};
ghost use Rattle.file_chains.specs.domain_base.declared.place.Kind.TheVariants.{Directory};
ghost use Rattle.file_chains.specs.domain_base.Page.{zero_bytes};
ghost use Rattle.file_chains.specs.page_store.Pages.{Pages, same_home};
ghost use Rattle.file_chains.specs.metadata_cells.declared.head.CellKind.TheVariants.{Primary};
ghost use Rattle.file_chains.specs.metadata_cells.Cell.{AreRecords, spellings};
ghost use Rattle.file_chains.specs.metadata_cells.CellPage.{HasPlace, KeepsHeaders, KeepsWellFormed, cell_at, home_of as home_there};
ghost use Rattle.file_chains.specs.metadata_cells.Chain.{LeavesOthers, StandsAt, is_at};
ghost use Rattle.tag_dirs.specs.declared.dir.TagPlace.{TagPlace};
ghost use Rattle.tag_dirs.specs.Directory.{CanTake as CanTakeTag, IsDirectory, IsNextIndex, IsReady, SetsTag, has_home, home_with};
ghost use Rattle.file_chains.specs.free_space.VolumeSpace.{without_page};
ghost use Rattle.file_chains.specs.free_space.Spaces.{IsHeld, change_volume};
ghost use Rattle.file_chains.specs.Allocated.{AreAllocated, FindsNone, Takes};
ghost use Rattle.file_chains.specs.FileChanges.{LeavesOtherCells};
ghost use Rattle.file_chains.specs.MapChanges.{TakesOne};
ghost use Rattle.fileset_files.specs.Creation.{Creates, CreatesNone, Enters, IsNewDirectory, LeavesBeside, TakesForFile, TakesNext, TakesTagPage, new_file, root_tag};
ghost use Rattle.file_chains.specs.domain_base.declared.place.Tag.{Tag as TagOf};
ghost use Rattle.file_chains.specs.extent_maps.declared.run.PagePlace.TheVariants.{At};
ghost use Rattle.fileset_files.specs.Files.{Chains, place_at};
ghost use Rattle.fileset_files.specs.Together.{AreTogether, HasTogether, IsHeldApart};

use crate::bitfiles::Bitfiles;
use crate::new_cells::{NewFile, first_records};
use file_chains::{
    CellAt, CellHead, CellKind, FilesetNo, FreeCells, FreeSpace, Home, Kind, MetaPages, RecordList,
    StoreFault, Tag, Version, VolIx, take_cell, write_cell,
};
use std::alloc::Global;
use tag_dirs::{ReadyPage, TagDir, put_ready};

/// The tag of the root directory.
const ROOT: Tag = Tag { slot: 1, seq: 1 };

/// Makes a tag that can be taken lead to a cell, and that cell the first one of its file.
fn enter_file<M: MetaPages>(
    tags: &mut TagDir,
    fileset: FilesetNo,
    pages: &mut M,
    tag: &Tag,
    at: &CellAt,
    records: &RecordList,
)
    requires directory { IsDirectory (M.pages pages.old) tags.old }
    requires tag { CanTakeTag (M.pages pages.old) tags.old tag.now }
    requires place { HasPlace (M.pages pages.old) at.now }
    requires apart { has_home tags.old (home_there at.now) ≡ false }
    requires good { AreRecords records.now }
    requires fits { length (spellings records.now) ≤ 272 }
    ensures entered { Enters fileset tags.old tag.now at.now records.now (M.pages pages.old)
        (M.pages pages.new) }
    ensures same { tags.new ≡ tags.old }
    ensures room { M.room pages.new ≡ M.room pages.old }
    ensures before { M.before pages.new ≡ M.before pages.old }
{
    tags.enter_as(pages, *tag, *at);
    let head = CellHead {
        next: None,
        slot: tag.slot,
        seq: tag.seq,
        fileset: Some(fileset),
        kind: CellKind::Primary,
    };
    write_cell(pages, *at, &head, records);
}

/// Takes a cell, and room for one page of metadata.
fn take_with_room<M: MetaPages>(
    alloc: Global,
    pages: &mut M,
    space: &mut FreeSpace,
    cells: &mut FreeCells,
    prefer: VolIx,
) -> Result<CellAt, StoreFault>
    requires { AreAllocated space.old cells.old (M.pages pages.old) }
    ensures ok { IfOk result (λ at. Takes prefer at space.old space.new cells.old cells.new
        (M.pages pages.old) (M.pages pages.new)) }
    ensures place { IfOk result (HasPlace (M.pages pages.new)) }
    ensures zeros { IfOk result (λ at. cell_at (M.pages pages.new) at ≡ Some (zero_bytes 292)) }
    ensures err { IfErr result (FindsNone space.old space.new cells.old) }
    ensures cells { OnErr result (cells.new ≡ cells.old) }
    ensures pages { OnErr result (M.pages pages.new ≡ M.pages pages.old) }
    ensures allocated { AreAllocated space.new cells.new (M.pages pages.new) }
    ensures spare { OnOk result (0 < M.room pages.new) }
    ensures room { M.room pages.old ≤ M.room pages.new + 1 }
    ensures before { M.before pages.new ≡ M.before pages.old }
{
    pages.reserve(alloc, 2)?;
    take_cell(alloc, pages, space, cells, prefer)
}

/// A cell that was taken, and a page of tags that is ready to be put.
#[derive(Drop)]
struct Taken {
    at: CellAt,
    ready: ReadyPage,
}

/// Makes a page of tags ready and takes a cell. After an error nothing but room and the count of
/// misses has changed.
fn take_for_page<M: MetaPages>(
    tags: &mut TagDir,
    alloc: Global,
    pages: &mut M,
    space: &mut FreeSpace,
    cells: &mut FreeCells,
    index: u32,
    home: &Home,
    prefer: VolIx,
) -> Result<Taken, StoreFault>
    requires allocated { AreAllocated space.old cells.old (M.pages pages.old) }
    requires index { index < 4202512 }
    requires unused { home_with tags.old index ≡ None }
    ensures places { OnOk result (tags.new ≡ tags.old ++ record {
      index = index;
      home = home.now;
    } ∷ []) }
    ensures ready { IfOk result (λ taken. IsReady index home.now tags.old taken.ready) }
    ensures ok { IfOk result (λ taken. Takes prefer taken.at space.old space.new cells.old
        cells.new (M.pages pages.old) (M.pages pages.new)) }
    ensures place { IfOk result (λ taken. HasPlace (M.pages pages.new) taken.at) }
    ensures zeros { IfOk result (λ taken. cell_at (M.pages pages.new) taken.at
        ≡ Some (zero_bytes 292)) }
    ensures err { IfErr result (FindsNone space.old space.new cells.old) }
    ensures same { OnErr result (tags.new ≡ tags.old) }
    ensures cells { OnErr result (cells.new ≡ cells.old) }
    ensures pages { OnErr result (M.pages pages.new ≡ M.pages pages.old) }
    ensures allocated { AreAllocated space.new cells.new (M.pages pages.new) }
    ensures spare { OnOk result (0 < M.room pages.new) }
    ensures room { M.room pages.old ≤ M.room pages.new + 1 }
    ensures before { M.before pages.new ≡ M.before pages.old }
{
    let ready = tags.prepare_page(alloc, index, *home)?;
    match take_with_room(alloc, pages, space, cells, prefer) {
        Ok(at) => Ok(Taken { at, ready }),
        Err(fault) => {
            tags.forget_last();
            Err(fault)
        }
    }
}

/// Makes a file at a tag that can be taken.
fn create_as<M: MetaPages>(
    tags: &mut TagDir,
    fileset: FilesetNo,
    alloc: Global,
    pages: &mut M,
    space: &mut FreeSpace,
    cells: &mut FreeCells,
    tag: &Tag,
    what: &NewFile,
    version: Version,
    prefer: VolIx,
) -> Result<(), StoreFault>
    requires together { HasTogether fileset tags.old space.old cells.old (M.pages pages.old) }
    requires tag { CanTakeTag (M.pages pages.old) tags.old tag.now }
    ensures ok { (chains : Chains)
        → AreTogether fileset tags.old space.old cells.old (M.pages pages.old) chains
        → OnOk result (Creates fileset tags.new tag.now version what.now chains space.new
        cells.old cells.new (M.pages pages.old) (M.pages pages.new)) }
    ensures next { OnOk result (TakesNext tag.now tags.old tags.new (M.pages pages.old)
        (M.pages pages.new)) }
    ensures taken { OnOk result (TakesOne prefer space.old space.new cells.old cells.new
        (M.pages pages.old)) }
    ensures err { IfErr result (FindsNone space.old space.new cells.old) }
    ensures same { tags.new ≡ tags.old }
    ensures cells { OnErr result (cells.new ≡ cells.old) }
    ensures pages { OnErr result (M.pages pages.new ≡ M.pages pages.old) }
    ensures others { LeavesOtherCells cells.old [] (M.pages pages.old) (M.pages pages.new) }
    ensures elsewhere { LeavesBeside cells.new tags.new (M.pages pages.old) (M.pages pages.new) }
    ensures room { M.room pages.old ≤ M.room pages.new + 1 }
    ensures before { M.before pages.new ≡ M.before pages.old }
{
    let records = first_records(alloc, version, what, tag)?;
    let at = take_cell(alloc, pages, space, cells, prefer)?;
    enter_file(tags, fileset, pages, tag, &at, &records);
    Ok(())
}

/// The first tag of a page that was never used.
fn first_tag(index: u32) -> Tag
    requires { index < 4202512 }
    ensures slot { result.slot ≡ 1022 * index + (if index == 0 then 1 else 0) }
    ensures seq { result.seq ≡ 1 }
{
    Tag {
        slot: 1022 * index + u32::from(index == 0),
        seq: 1,
    }
}

/// Makes a file at the first tag of a page of tags that is added at a home.
fn create_at<M: MetaPages>(
    tags: &mut TagDir,
    fileset: FilesetNo,
    alloc: Global,
    pages: &mut M,
    space: &mut FreeSpace,
    cells: &mut FreeCells,
    index: u32,
    home: &Home,
    what: &NewFile,
    version: Version,
    prefer: VolIx,
) -> Result<Tag, StoreFault>
    requires together { HasTogether fileset tags.old space.old cells.old (M.pages pages.old) }
    requires next { IsNextIndex index tags.old }
    requires apart { IsHeldApart space.old cells.old home.now }
    requires no_tags { has_home tags.old home.now ≡ false }
    requires nowhere { (chains : Chains)
        → AreTogether fileset tags.old space.old cells.old (M.pages pages.old) chains
        → (t : TagOf) (p : ℕ) → ¬ place_at chains t p ≡ At home.now }
    ensures ok { (chains : Chains)
        → AreTogether fileset tags.old space.old cells.old (M.pages pages.old) chains
        → IfOk result (λ tag. Creates fileset tags.new tag version what.now chains space.new
        cells.old cells.new (M.pages pages.old) (M.pages pages.new)) }
    ensures next { IfOk result (λ tag. TakesNext tag tags.old tags.new (M.pages pages.old)
        (M.pages pages.new)) }
    ensures taken { OnOk result (TakesOne prefer space.old space.new cells.old cells.new
        (M.pages pages.old)) }
    ensures joins { OnOk result (tags.new ≡ tags.old ++ record {
      index = index;
      home = home.now;
    } ∷ []) }
    ensures err { IfErr result (FindsNone space.old space.new cells.old) }
    ensures same { OnErr result (tags.new ≡ tags.old) }
    ensures cells { OnErr result (cells.new ≡ cells.old) }
    ensures pages { OnErr result (M.pages pages.new ≡ M.pages pages.old) }
    ensures others { LeavesOtherCells cells.old [] (M.pages pages.old) (M.pages pages.new) }
    ensures elsewhere { LeavesBeside cells.new tags.new (M.pages pages.old) (M.pages pages.new) }
    ensures room { M.room pages.old ≤ M.room pages.new + 2 }
    ensures before { M.before pages.new ≡ M.before pages.old }
{
    let tag = first_tag(index);
    let records = first_records(alloc, version, what, &tag)?;
    match take_for_page(tags, alloc, pages, space, cells, index, home, prefer) {
        Ok(Taken { at, ready }) => {
            put_ready(pages, ready);
            enter_file(tags, fileset, pages, &tag, &at, &records);
            Ok(tag)
        }
        Err(fault) => Err(fault),
    }
}

/// Makes a file at the first tag of a page of tags that is added on a page taken for it. Gives that
/// page back if this fails.
fn create_on_new_page<M: MetaPages>(
    tags: &mut TagDir,
    fileset: FilesetNo,
    alloc: Global,
    pages: &mut M,
    space: &mut FreeSpace,
    cells: &mut FreeCells,
    what: &NewFile,
    version: Version,
    prefer: VolIx,
) -> Result<Tag, StoreFault>
    requires together { HasTogether fileset tags.old space.old cells.old (M.pages pages.old) }
    requires none { (tag : TagOf) → ¬ CanTakeTag (M.pages pages.old) tags.old tag }
    ensures ok { (chains : Chains)
        → AreTogether fileset tags.old space.old cells.old (M.pages pages.old) chains
        → IfOk result (λ tag. Creates fileset tags.new tag version what.now chains space.new
        cells.old cells.new (M.pages pages.old) (M.pages pages.new)) }
    ensures next { IfOk result (λ tag. TakesNext tag tags.old tags.new (M.pages pages.old)
        (M.pages pages.new)) }
    ensures taken { OnOk result (TakesTagPage prefer tags.old tags.new space.old space.new cells.old
        cells.new (M.pages pages.old)) }
    ensures err { IfErr result (CreatesNone tags.old space.old space.new cells.old
        (M.pages pages.old)) }
    ensures same { OnErr result (tags.new ≡ tags.old) }
    ensures cells { OnErr result (cells.new ≡ cells.old) }
    ensures pages { OnErr result (M.pages pages.new ≡ M.pages pages.old) }
    ensures others { LeavesOtherCells cells.old [] (M.pages pages.old) (M.pages pages.new) }
    ensures elsewhere { LeavesBeside cells.new tags.new (M.pages pages.old) (M.pages pages.new) }
    ensures room { M.room pages.old ≤ M.room pages.new + 2 }
    ensures before { M.before pages.new ≡ M.before pages.old }
{
    let Some(index) = tags.next_index() else {
        return Err(StoreFault::OutOfMemory);
    };
    let Some(home) = space.allocate(prefer) else {
        return Err(StoreFault::NoPage);
    };
    match create_at(
        tags, fileset, alloc, pages, space, cells, index, &home, what, version, prefer,
    ) {
        Ok(tag) => Ok(tag),
        Err(fault) => {
            space.unreserve(home);
            Err(fault)
        }
    }
}

/// Makes a file at a tag that can be taken or, if there is none, at a tag of a page that is added.
fn create_file<M: MetaPages>(
    tags: &mut TagDir,
    fileset: FilesetNo,
    alloc: Global,
    pages: &mut M,
    space: &mut FreeSpace,
    cells: &mut FreeCells,
    what: &NewFile,
    version: Version,
    prefer: VolIx,
) -> Result<Tag, StoreFault>
    requires { HasTogether fileset tags.old space.old cells.old (M.pages pages.old) }
    ensures ok { (chains : Chains)
        → AreTogether fileset tags.old space.old cells.old (M.pages pages.old) chains
        → IfOk result (λ tag. Creates fileset tags.new tag version what.now chains space.new
        cells.old cells.new (M.pages pages.old) (M.pages pages.new)) }
    ensures next { IfOk result (λ tag. TakesNext tag tags.old tags.new (M.pages pages.old)
        (M.pages pages.new)) }
    ensures taken { OnOk result (TakesForFile prefer tags.old tags.new space.old space.new cells.old
        cells.new (M.pages pages.old)) }
    ensures err { IfErr result (CreatesNone tags.old space.old space.new cells.old
        (M.pages pages.old)) }
    ensures same { OnErr result (tags.new ≡ tags.old) }
    ensures cells { OnErr result (cells.new ≡ cells.old) }
    ensures pages { OnErr result (M.pages pages.new ≡ M.pages pages.old) }
    ensures others { LeavesOtherCells cells.old [] (M.pages pages.old) (M.pages pages.new) }
    ensures elsewhere { LeavesBeside cells.new tags.new (M.pages pages.old) (M.pages pages.new) }
    ensures room { M.room pages.old ≤ M.room pages.new + 2 }
    ensures before { M.before pages.new ≡ M.before pages.old }
{
    let Some(tag) = tags.free_tag(pages) else {
        return create_on_new_page(
            tags, fileset, alloc, pages, space, cells, what, version, prefer,
        );
    };
    match create_as(
        tags, fileset, alloc, pages, space, cells, &tag, what, version, prefer,
    ) {
        Ok(()) => Ok(tag),
        Err(fault) => Err(fault),
    }
}

impl Bitfiles {
    /// Makes a file or a directory of that owner, and returns its tag, which named nothing before
    /// and was never returned: its sequence is one more than its slot's last, or 1 if it had none.
    /// It has no byte, one link and no page, keeps all of its first 65,536 pages, and was born at
    /// that clone's number. A directory stands in itself until another is set. Its cell is taken of
    /// the preferred volume if that has one. If no page of the tag directory has a tag that can be
    /// taken, a page is added, with the least index that none has. NoPage is returned only if no
    /// page is free and one is needed, for cells or for tags, or only one is free and both need
    /// one. That is a miss. OutOfMemory is also returned if the tag directory has all the pages
    /// that it may have. After an error nothing but room and the count of misses has changed.
    pub fn create<M: MetaPages>(
        &mut self,
        alloc: Global,
        pages: &mut M,
        space: &mut FreeSpace,
        cells: &mut FreeCells,
        kind: Kind,
        uid: u32,
        gid: u32,
        birth: u64,
        version: Version,
        prefer: VolIx,
    ) -> Result<Tag, StoreFault>
        requires { HasTogether self.old.fileset self.old.tags space.old cells.old
            (M.pages pages.old) }
        ensures ok { (chains : Chains) → AreTogether self.old.fileset self.old.tags space.old
            cells.old (M.pages pages.old) chains → IfOk result (λ tag. Creates self.old.fileset
            self.new.tags tag version (new_file kind uid gid birth) chains space.new cells.old
            cells.new (M.pages pages.old) (M.pages pages.new)) }
        ensures next { IfOk result (λ tag. TakesNext tag self.old.tags self.new.tags
            (M.pages pages.old) (M.pages pages.new)) }
        ensures taken { OnOk result (TakesForFile prefer self.old.tags self.new.tags space.old
            space.new cells.old cells.new (M.pages pages.old)) }
        ensures err { IfErr result (CreatesNone self.old.tags space.old space.new cells.old
            (M.pages pages.old)) }
        ensures kept { (chains : Chains) → AreTogether self.old.fileset self.old.tags space.old
            cells.old (M.pages pages.old) chains → OnErr result (AreTogether self.new.fileset
            self.new.tags space.new cells.new (M.pages pages.new) chains) }
        ensures fileset { self.new.fileset ≡ self.old.fileset }
        ensures same { OnErr result (self.new ≡ self.old) }
        ensures cells { OnErr result (cells.new ≡ cells.old) }
        ensures pages { OnErr result (M.pages pages.new ≡ M.pages pages.old) }
        ensures others { LeavesOtherCells cells.old [] (M.pages pages.old) (M.pages pages.new) }
        ensures elsewhere { LeavesBeside cells.new self.new.tags (M.pages pages.old)
            (M.pages pages.new) }
        ensures room { M.room pages.old ≤ M.room pages.new + 2 }
        ensures before { M.before pages.new ≡ M.before pages.old }
    {
        let what = NewFile {
            kind,
            uid,
            gid,
            birth,
        };
        let fileset = self.fileset;
        create_file(
            &mut self.tags,
            fileset,
            alloc,
            pages,
            space,
            cells,
            &what,
            version,
            prefer,
        )
    }

    /// Makes the root directory of a fileset whose tag directory is one page that was never used:
    /// at tag 1 with sequence 1, with owner 0 and group 0, born at that clone's number, and
    /// otherwise as `create` makes a directory. Its cell is taken of the preferred volume if that
    /// has one. NoPage is returned only if no page is free and no cell can be taken. That is a
    /// miss. After an error nothing but room and the count of misses has changed.
    pub fn create_root<M: MetaPages>(
        &mut self,
        alloc: Global,
        pages: &mut M,
        space: &mut FreeSpace,
        cells: &mut FreeCells,
        birth: u64,
        version: Version,
        prefer: VolIx,
    ) -> Result<(), StoreFault>
        requires together { HasTogether self.old.fileset self.old.tags space.old cells.old
            (M.pages pages.old) }
        requires fresh { IsNewDirectory (M.pages pages.old) self.old.tags }
        ensures ok { (chains : Chains) → AreTogether self.old.fileset self.old.tags space.old
            cells.old (M.pages pages.old) chains → OnOk result (Creates self.old.fileset
            self.new.tags root_tag version (new_file Directory 0 0 birth) chains space.new cells.old
            cells.new (M.pages pages.old) (M.pages pages.new)) }
        ensures next { OnOk result (TakesNext root_tag self.old.tags self.new.tags
            (M.pages pages.old) (M.pages pages.new)) }
        ensures taken { OnOk result (TakesOne prefer space.old space.new cells.old cells.new
            (M.pages pages.old)) }
        ensures err { IfErr result (FindsNone space.old space.new cells.old) }
        ensures kept { (chains : Chains) → AreTogether self.old.fileset self.old.tags space.old
            cells.old (M.pages pages.old) chains → OnErr result (AreTogether self.new.fileset
            self.new.tags space.new cells.new (M.pages pages.new) chains) }
        ensures same { self.new ≡ self.old }
        ensures cells { OnErr result (cells.new ≡ cells.old) }
        ensures pages { OnErr result (M.pages pages.new ≡ M.pages pages.old) }
        ensures others { LeavesOtherCells cells.old [] (M.pages pages.old) (M.pages pages.new) }
        ensures elsewhere { LeavesBeside cells.new self.new.tags (M.pages pages.old)
            (M.pages pages.new) }
        ensures room { M.room pages.old ≤ M.room pages.new + 1 }
        ensures before { M.before pages.new ≡ M.before pages.old }
    {
        let what = NewFile {
            kind: Kind::Directory,
            uid: 0,
            gid: 0,
            birth,
        };
        let fileset = self.fileset;
        create_as(
            &mut self.tags,
            fileset,
            alloc,
            pages,
            space,
            cells,
            &ROOT,
            &what,
            version,
            prefer,
        )
    }

    /// Forgets the last page of the tag directory, whose index no other page has. This is for
    /// taking back what added it. Takes no memory.
    pub fn forget_tag_page(&mut self)
        requires { (places : List TagPlace) (place : TagPlace) → self.old.tags
            ≡ places ++ place ∷ [] → home_with places place.index ≡ None }
        ensures fileset { self.new.fileset ≡ self.old.fileset }
        ensures tags { (places : List TagPlace) (place : TagPlace) → self.old.tags
            ≡ places ++ place ∷ [] → self.new.tags ≡ places }
    {
        self.tags.forget_last();
    }
}
