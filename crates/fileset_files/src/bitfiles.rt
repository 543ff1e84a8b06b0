//! Looking at the files of a fileset.
ghost use Rattle.std.specs.Prelude.{◌≡◌, ℕ, IfNone, IfOk, IfSome, IsSome, List, None, OnErr, OnOk, Some, true, false};
ghost use Rattle.std.specs.Option.{option_and_then};
ghost use Rattle.file_chains.specs.domain_base.declared.place.Home.{Home as HomeOf};
ghost use Rattle.file_chains.specs.domain_base.declared.place.Tag.{Tag as TagOf};
ghost use Rattle.tag_dirs.specs.Directory.{IsOnPage};
ghost use Rattle.file_chains.specs.page_store.Pages.{same_home};
ghost use Rattle.file_chains.specs.metadata_cells.Cell.{Cell};
ghost use Rattle.file_chains.specs.metadata_cells.CellPage.{KeepsHeaders, KeepsWellFormed, home_of as home_there};
ghost use Rattle.file_chains.specs.metadata_cells.Chain.{LeavesOthers, PlacedCell, StandsAt, is_at};
ghost use Rattle.file_chains.specs.extent_maps.Runs.{AreRuns, place_of};
ghost use Rattle.file_chains.specs.free_cells.Cells.{Cells};
ghost use Rattle.file_chains.specs.free_space.Spaces.{Spaces};
ghost use Rattle.fileset_files.specs.Together.{AreTogether};
ghost use Rattle.file_chains.specs.Files.{HasFile, IsFile};
ghost use Rattle.file_chains.specs.cell_records.Records.{Allowed, kind_of};
ghost use Rattle.file_chains.specs.Changes.{with_record};
ghost use Rattle.fileset_files.specs.Changes.{CanSay, ChangesBeside, ChangesFirst, HasFirstRoom, IsLive, KeepsSequences, Removes, says_attributes, says_parent, says_removed, with_chain, with_first, without_chain};
ghost use Rattle.fileset_files.specs.Files.{AreFiles, Chains, HasFiles, IsLiveCell, attributes_of, first_record as first_there, is_first_kind, is_removed, keep_of, of_live, place_at};

use crate::attributes::{Attributes, read_attributes, read_keep, says_remove, with_attributes};
use file_chains::{
    CellAt, ExtentMap, FilesetNo, Leftover, MetaPages, OutOfMemory, PagePlace, Record, Run, Tag,
    find_place, find_record, read_file_map, set_record,
};
use std::alloc::Global;
use tag_dirs::{TagDir, TagPlace};

/// The files and directories of a fileset: its number, and its tag directory. The pages of cells
/// and tags stand among the pages of metadata that each call is given.
#[derive(Drop)]
pub struct Bitfiles {
    pub(crate) fileset: FilesetNo,
    pub(crate) tags: TagDir,
}

/// The record of a kind in the first cell of a file.
pub(crate) fn first_record<M: MetaPages>(pages: &M, at: &CellAt, kind: u8) -> Option<Record>
    ensures { (cells : List PlacedCell) → IsFile (M.pages pages.now) at.now cells
        → result ≡ first_there kind cells }
{
    find_record(pages, *at, kind)
}

/// Whether a file is to be removed.
fn is_pending<M: MetaPages>(pages: &M, at: &CellAt) -> bool
    ensures { (cells : List PlacedCell) → IsFile (M.pages pages.now) at.now cells
        → result ≡ is_removed cells }
{
    match first_record(pages, at, 6) {
        Some(value) => says_remove(&value),
        None => false,
    }
}

/// Puts a record in the first cell of a file, in place of the record of its kind if the cell has
/// one.
pub(crate) fn set_first<M: MetaPages>(
    alloc: Global,
    pages: &mut M,
    at: &CellAt,
    value: &Record,
) -> Result<(), OutOfMemory>
    requires room { HasFirstRoom (M.pages pages.old) at.now }
    requires kind { is_first_kind (kind_of value.now) ≡ true }
    requires allowed { Allowed value.now }
    ensures ok { (cell : Cell) → StandsAt (M.pages pages.old) at.now cell
        → OnOk result (StandsAt (M.pages pages.new) at.now
        (with_record (kind_of value.now) (Some value.now) cell)) }
    ensures err { OnErr result (M.pages pages.new ≡ M.pages pages.old) }
    ensures others { LeavesOthers (is_at at.now) (M.pages pages.old) (M.pages pages.new) }
    ensures well_formed { KeepsWellFormed (M.pages pages.old) (M.pages pages.new) }
    ensures headers { KeepsHeaders (M.pages pages.old) (M.pages pages.new) }
    ensures elsewhere { (home : HomeOf) → same_home home (home_there at.now) ≡ false
        → M.pages pages.new home ≡ M.pages pages.old home }
    ensures room { M.room pages.new ≡ M.room pages.old }
    ensures before { M.before pages.new ≡ M.before pages.old }
{
    set_record(alloc, pages, *at, value)
}

/// Writes in a file's first cell that the file is to be removed.
fn set_pending<M: MetaPages>(alloc: Global, pages: &mut M, at: &CellAt) -> Result<(), OutOfMemory>
    requires { HasFirstRoom (M.pages pages.old) at.now }
    ensures ok { (cell : Cell) → StandsAt (M.pages pages.old) at.now cell
        → OnOk result (StandsAt (M.pages pages.new) at.now (says_removed cell)) }
    ensures err { OnErr result (M.pages pages.new ≡ M.pages pages.old) }
    ensures others { LeavesOthers (is_at at.now) (M.pages pages.old) (M.pages pages.new) }
    ensures well_formed { KeepsWellFormed (M.pages pages.old) (M.pages pages.new) }
    ensures headers { KeepsHeaders (M.pages pages.old) (M.pages pages.new) }
    ensures elsewhere { (home : HomeOf) → same_home home (home_there at.now) ≡ false
        → M.pages pages.new home ≡ M.pages pages.old home }
    ensures room { M.room pages.new ≡ M.room pages.old }
    ensures before { M.before pages.new ≡ M.before pages.old }
{
    let value = Record::Pending {
        what: Leftover::Remove,
    };
    set_first(alloc, pages, at, &value)
}

/// Writes in a directory's first cell in which directory it stands.
fn put_parent<M: MetaPages>(
    alloc: Global,
    pages: &mut M,
    at: &CellAt,
    parent: &Tag,
) -> Result<(), OutOfMemory>
    requires { HasFirstRoom (M.pages pages.old) at.now }
    ensures ok { (cell : Cell) → StandsAt (M.pages pages.old) at.now cell
        → OnOk result (StandsAt (M.pages pages.new) at.now (says_parent parent.now cell)) }
    ensures err { OnErr result (M.pages pages.new ≡ M.pages pages.old) }
    ensures others { LeavesOthers (is_at at.now) (M.pages pages.old) (M.pages pages.new) }
    ensures well_formed { KeepsWellFormed (M.pages pages.old) (M.pages pages.new) }
    ensures headers { KeepsHeaders (M.pages pages.old) (M.pages pages.new) }
    ensures elsewhere { (home : HomeOf) → same_home home (home_there at.now) ≡ false
        → M.pages pages.new home ≡ M.pages pages.old home }
    ensures room { M.room pages.new ≡ M.room pages.old }
    ensures before { M.before pages.new ≡ M.before pages.old }
{
    prove!(parent.slot <= u32::MAX);
    prove!(parent.seq <= u16::MAX);
    let value = Record::Parent {
        slot: parent.slot,
        seq: parent.seq,
    };
    set_first(alloc, pages, at, &value)
}

impl Bitfiles {
    /// The files of this fileset, whose tag directory this is.
    pub fn new(fileset: FilesetNo, tags: TagDir) -> Self
        ensures fileset { result.fileset ≡ fileset }
        ensures tags { result.tags ≡ tags }
    {
        Bitfiles { fileset, tags }
    }

    /// The first cell of the file that a tag names, if it is not to be removed.
    pub fn live_cell<M: MetaPages>(&self, pages: &M, tag: Tag) -> Option<CellAt>
        requires { HasFiles self.now.fileset self.now.tags (M.pages pages.now) }
        ensures { (chains : Chains)
            → AreFiles self.now.fileset self.now.tags (M.pages pages.now) chains
            → IsLiveCell (M.pages pages.now) (chains tag) result }
    {
        let at = self.tags.look(pages, tag)?;
        if is_pending(pages, &at) {
            return None;
        }
        Some(at)
    }

    /// Where the pages of the tag directory stand, in their chain's order.
    pub fn tag_places(&self) -> &[TagPlace]
        ensures { result.now ≡ self.now.tags }
    {
        self.tags.places()
    }

    /// A tag that names a file or directory, and whose entry stands on the page of the tag
    /// directory with that number, counted along the chain from 0. Returns None if and only if
    /// there is no such tag on that page, or no such page. In this way all files of a fileset that
    /// is being removed are found, page by page, while each tag is taken out of use.
    pub fn tag_on<M: MetaPages>(&self, pages: &M, number: usize) -> Option<Tag>
        requires { HasFiles self.now.fileset self.now.tags (M.pages pages.now) }
        ensures there { (chains : Chains)
            → AreFiles self.now.fileset self.now.tags (M.pages pages.now) chains
            → IfSome result (λ tag. IsSome (chains tag)) }
        ensures on { IfSome result (IsOnPage self.now.tags number) }
        ensures none { (chains : Chains)
            → AreFiles self.now.fileset self.now.tags (M.pages pages.now) chains
            → IfNone result ((tag : TagOf) → IsOnPage self.now.tags number tag
            → chains tag ≡ None) }
    {
        self.tags.tag_on(pages, number)
    }

    /// The attributes of the file or directory that a tag names. Returns None if and only if it
    /// names none, or one that is to be removed.
    pub fn attributes<M: MetaPages>(&self, pages: &M, tag: Tag) -> Option<Attributes>
        requires { HasFiles self.now.fileset self.now.tags (M.pages pages.now) }
        ensures { (chains : Chains)
            → AreFiles self.now.fileset self.now.tags (M.pages pages.now) chains
            → result ≡ option_and_then (of_live attributes_of) (chains tag) }
    {
        let at = self.live_cell(pages, tag)?;
        read_attributes(&first_record(pages, &at, 1)?)
    }

    /// How many of its first pages the file that a tag names keeps: the pages after them are to be
    /// let go. Returns None if and only if the tag names none, or one that is to be removed.
    pub fn keep<M: MetaPages>(&self, pages: &M, tag: Tag) -> Option<u32>
        requires { HasFiles self.now.fileset self.now.tags (M.pages pages.now) }
        ensures { (chains : Chains)
            → AreFiles self.now.fileset self.now.tags (M.pages pages.now) chains
            → result ≡ option_and_then (of_live keep_of) (chains tag) }
    {
        let at = self.live_cell(pages, tag)?;
        read_keep(&first_record(pages, &at, 1)?)
    }

    /// The place of a page of the file that a tag names, whatever the file keeps. Takes no memory.
    pub fn page_home<M: MetaPages>(&self, pages: &M, tag: Tag, page: u32) -> PagePlace
        requires { HasFiles self.now.fileset self.now.tags (M.pages pages.now) }
        ensures { (chains : Chains)
            → AreFiles self.now.fileset self.now.tags (M.pages pages.now) chains
            → result ≡ place_at chains tag page }
    {
        match self.tags.look(pages, tag) {
            Some(at) => find_place(pages, at, page),
            None => PagePlace::Absent,
        }
    }

    /// Where all pages of the file that a tag names stand, whatever it keeps. There is no page if
    /// the tag names none.
    pub fn read_map<M: MetaPages>(
        &self,
        alloc: Global,
        pages: &M,
        tag: Tag,
    ) -> Result<ExtentMap, OutOfMemory>
        requires { HasFiles self.now.fileset self.now.tags (M.pages pages.now) }
        ensures { (chains : Chains)
            → AreFiles self.now.fileset self.now.tags (M.pages pages.now) chains
            → IfOk result (λ map. (page : ℕ) → place_of map page ≡ place_at chains tag page) }
    {
        match self.tags.look(pages, tag) {
            Some(at) => read_file_map(alloc, pages, at),
            None => Ok(ExtentMap::new(alloc)),
        }
    }

    /// Where all pages of the file that a tag names stand, as runs in the order of its pages, each
    /// as long as it can be. They are all that the file's cells say, including pages after those
    /// that it keeps, and the holes that are kept for a clone. There is no run if the tag names
    /// none.
    pub fn runs<M: MetaPages>(
        &self,
        alloc: Global,
        pages: &M,
        tag: Tag,
    ) -> Result<Vec<Run>, OutOfMemory>
        requires { HasFiles self.now.fileset self.now.tags (M.pages pages.now) }
        ensures longest { IfOk result (λ runs. AreRuns runs.items) }
        ensures places { (chains : Chains)
            → AreFiles self.now.fileset self.now.tags (M.pages pages.now) chains
            → IfOk result (λ runs. (page : ℕ) → place_of runs.items page
            ≡ place_at chains tag page) }
    {
        let map = self.read_map(alloc, pages, tag)?;
        Ok(Vec::from_slice(alloc, map.runs())?)
    }

    /// Sets the attributes of the file or directory that a live tag names. Its kind stays, and it
    /// has from 1 to 1,000 links. Where its pages stand, how many it keeps and every other file
    /// stay. After an error nothing has changed.
    pub fn set_attributes<M: MetaPages>(
        &self,
        alloc: Global,
        pages: &mut M,
        tag: Tag,
        value: &Attributes,
    ) -> Result<(), OutOfMemory>
        requires files { HasFiles self.now.fileset self.now.tags (M.pages pages.old) }
        requires live { (chains : Chains)
            → AreFiles self.now.fileset self.now.tags (M.pages pages.old) chains
            → CanSay value.now tag chains }
        ensures ok { (chains : Chains)
            → AreFiles self.now.fileset self.now.tags (M.pages pages.old) chains
            → OnOk result (AreFiles self.now.fileset self.now.tags (M.pages pages.new)
            (with_chain tag (with_first (says_attributes value.now)) chains)) }
        ensures together { (space : Spaces) (cells : Cells) (chains : Chains)
            → AreTogether self.now.fileset self.now.tags space cells (M.pages pages.old) chains
            → OnOk result (AreTogether self.now.fileset self.now.tags space cells
            (M.pages pages.new) (with_chain tag (with_first (says_attributes value.now)) chains)) }
        ensures err { OnErr result (M.pages pages.new ≡ M.pages pages.old) }
        ensures beside { (chains : Chains)
            → AreFiles self.now.fileset self.now.tags (M.pages pages.old) chains
            → ChangesFirst (chains tag) (M.pages pages.old) (M.pages pages.new) }
        ensures well_formed { KeepsWellFormed (M.pages pages.old) (M.pages pages.new) }
        ensures headers { KeepsHeaders (M.pages pages.old) (M.pages pages.new) }
        ensures room { M.room pages.new ≡ M.room pages.old }
        ensures before { M.before pages.new ≡ M.before pages.old }
    {
        let Some(at) = self.live_cell(pages, tag) else {
            return Ok(());
        };
        let Some(was) = first_record(pages, &at, 1) else {
            return Ok(());
        };
        set_record(alloc, pages, at, &with_attributes(&was, value))
    }

    /// Writes in which directory the directory that a live tag names stands. Every other file
    /// stays, and so does all else of this one. After an error nothing has changed.
    pub fn set_parent<M: MetaPages>(
        &self,
        alloc: Global,
        pages: &mut M,
        tag: Tag,
        parent: Tag,
    ) -> Result<(), OutOfMemory>
        requires files { HasFiles self.now.fileset self.now.tags (M.pages pages.old) }
        requires live { (chains : Chains)
            → AreFiles self.now.fileset self.now.tags (M.pages pages.old) chains
            → IsLive tag chains }
        ensures ok { (chains : Chains)
            → AreFiles self.now.fileset self.now.tags (M.pages pages.old) chains
            → OnOk result (AreFiles self.now.fileset self.now.tags (M.pages pages.new)
            (with_chain tag (with_first (says_parent parent)) chains)) }
        ensures together { (space : Spaces) (cells : Cells) (chains : Chains)
            → AreTogether self.now.fileset self.now.tags space cells (M.pages pages.old) chains
            → OnOk result (AreTogether self.now.fileset self.now.tags space cells
            (M.pages pages.new) (with_chain tag (with_first (says_parent parent)) chains)) }
        ensures err { OnErr result (M.pages pages.new ≡ M.pages pages.old) }
        ensures beside { (chains : Chains)
            → AreFiles self.now.fileset self.now.tags (M.pages pages.old) chains
            → ChangesFirst (chains tag) (M.pages pages.old) (M.pages pages.new) }
        ensures well_formed { KeepsWellFormed (M.pages pages.old) (M.pages pages.new) }
        ensures headers { KeepsHeaders (M.pages pages.old) (M.pages pages.new) }
        ensures room { M.room pages.new ≡ M.room pages.old }
        ensures before { M.before pages.new ≡ M.before pages.old }
    {
        match self.live_cell(pages, tag) {
            Some(at) => put_parent(alloc, pages, &at, &parent),
            None => Ok(()),
        }
    }

    /// Takes a live tag out of use. Its file or directory is to be removed, as its first cell then
    /// says, and nothing of it goes yet. Returns that cell. Its slot keeps the tag's sequence as
    /// its last, so that the tag is not made again. Every other file stays. After an error nothing
    /// has changed.
    pub fn remove<M: MetaPages>(
        &mut self,
        alloc: Global,
        pages: &mut M,
        tag: Tag,
    ) -> Result<CellAt, OutOfMemory>
        requires files { HasFiles self.old.fileset self.old.tags (M.pages pages.old) }
        requires live { (chains : Chains)
            → AreFiles self.old.fileset self.old.tags (M.pages pages.old) chains
            → IsLive tag chains }
        ensures ok { (chains : Chains)
            → AreFiles self.old.fileset self.old.tags (M.pages pages.old) chains
            → IfOk result (λ at. Removes self.old.fileset self.old.tags tag at chains
            (M.pages pages.new)) }
        ensures together { (space : Spaces) (cells : Cells) (chains : Chains)
            → AreTogether self.old.fileset self.old.tags space cells (M.pages pages.old) chains
            → OnOk result (AreTogether self.new.fileset self.new.tags space cells
            (M.pages pages.new) (without_chain tag chains)) }
        ensures err { OnErr result (M.pages pages.new ≡ M.pages pages.old) }
        ensures beside { (chains : Chains)
            → AreFiles self.old.fileset self.old.tags (M.pages pages.old) chains
            → ChangesBeside self.old.tags (chains tag) (M.pages pages.old) (M.pages pages.new) }
        ensures sequences { OnOk result (KeepsSequences self.old.tags (M.pages pages.old)
            (M.pages pages.new)) }
        ensures same { self.new ≡ self.old }
        ensures room { M.room pages.new ≡ M.room pages.old }
        ensures before { M.before pages.new ≡ M.before pages.old }
    {
        let Some(at) = self.live_cell(pages, tag) else {
            return Err(OutOfMemory);
        };
        set_pending(alloc, pages, &at)?;
        self.tags.drop_tag(pages, tag);
        Ok(at)
    }
}
