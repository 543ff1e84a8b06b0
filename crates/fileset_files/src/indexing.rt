//! Where the indexes of directories begin.
ghost use Rattle.std.specs.Prelude.{◌≡◌, ◌≤◌, OnErr, OnOk, Some, false};
ghost use Rattle.std.specs.Option.{option_and_then};
ghost use Rattle.file_chains.specs.domain_base.declared.place.Home.{Home as HomeOf};
ghost use Rattle.file_chains.specs.page_store.Pages.{same_home};
ghost use Rattle.file_chains.specs.cell_records.Records.{Allowed, kind_of};
ghost use Rattle.file_chains.specs.metadata_cells.Cell.{Cell};
ghost use Rattle.file_chains.specs.metadata_cells.CellPage.{KeepsHeaders, KeepsWellFormed, home_of as home_there};
ghost use Rattle.file_chains.specs.metadata_cells.Chain.{LeavesOthers, StandsAt, is_at};
ghost use Rattle.file_chains.specs.free_cells.Cells.{Cells};
ghost use Rattle.file_chains.specs.free_space.Spaces.{Spaces};
ghost use Rattle.fileset_files.specs.Changes.{ChangesFirst, HasFirstRoom, IsLive, with_chain, with_first};
ghost use Rattle.fileset_files.specs.Files.{AreFiles, Chains, HasFiles, of_live};
ghost use Rattle.fileset_files.specs.Index.{index_at, index_place_in, index_place_of, index_record as record_of_index, says_index};
ghost use Rattle.fileset_files.specs.Together.{AreTogether};

use crate::bitfiles::{Bitfiles, first_record, set_first};
use file_chains::{CellAt, Home, MetaPages, OutOfMemory, Record, Tag, VolIx, clear_record};
use std::alloc::Global;

/// Where the index of a directory begins, and how many entries it has on all its pages.
#[derive(Clone, Copy, Debug, PartialEq, Eq)]
pub struct IndexPlace {
    pub first: Home,
    pub entries: u32,
}

/// The record for this place and number of entries of an index.
fn index_record(index: &IndexPlace) -> Record
    ensures value { result ≡ record_of_index index.now }
    ensures kind { kind_of result ≡ 9 }
    ensures allowed { Allowed result }
{
    let vol = index.first.vol.number();
    let page = index.first.page;
    let entries = index.entries;
    prove!(page <= u32::MAX);
    prove!(entries <= u32::MAX);
    Record::DirIndex { vol, page, entries }
}

/// An index that begins at that page of that volume.
fn index_place(vol: u32, page: u32, entries: u32) -> Option<IndexPlace>
    requires low { 1 ≤ vol }
    requires high { vol ≤ 8 }
    ensures { result ≡ Some (index_at vol page entries) }
{
    let vol = VolIx::new(vol)?;
    Some(IndexPlace {
        first: Home { vol, page },
        entries,
    })
}

/// Where an index begins and how many entries it has, as a record says it, if it is a record of an
/// index.
fn read_index(value: &Record) -> Option<IndexPlace>
    requires { Allowed value.now }
    ensures { result ≡ index_place_in value.now }
{
    match value {
        Record::DirIndex { vol, page, entries } => index_place(*vol, *page, *entries),
        _ => None,
    }
}

/// Writes in a directory's first cell where its index begins, or that it has none.
fn put_index<M: MetaPages>(
    alloc: Global,
    pages: &mut M,
    at: &CellAt,
    index: &Option<IndexPlace>,
) -> Result<(), OutOfMemory>
    requires { HasFirstRoom (M.pages pages.old) at.now }
    ensures ok { (cell : Cell) → StandsAt (M.pages pages.old) at.now cell
        → OnOk result (StandsAt (M.pages pages.new) at.now (says_index index.now cell)) }
    ensures err { OnErr result (M.pages pages.new ≡ M.pages pages.old) }
    ensures others { LeavesOthers (is_at at.now) (M.pages pages.old) (M.pages pages.new) }
    ensures well_formed { KeepsWellFormed (M.pages pages.old) (M.pages pages.new) }
    ensures headers { KeepsHeaders (M.pages pages.old) (M.pages pages.new) }
    ensures elsewhere { (home : HomeOf) → same_home home (home_there at.now) ≡ false
        → M.pages pages.new home ≡ M.pages pages.old home }
    ensures room { M.room pages.new ≡ M.room pages.old }
    ensures before { M.before pages.new ≡ M.before pages.old }
{
    match index {
        Some(index) => set_first(alloc, pages, at, &index_record(index)),
        None => clear_record(alloc, pages, *at, 9),
    }
}

impl Bitfiles {
    /// Where the index of the directory that a tag names begins, and how many entries it has.
    /// Returns None if and only if the tag names none, or one that is to be removed, or one without
    /// an index.
    pub fn index<M: MetaPages>(&self, pages: &M, tag: Tag) -> Option<IndexPlace>
        requires { HasFiles self.now.fileset self.now.tags (M.pages pages.now) }
        ensures { (chains : Chains)
            → AreFiles self.now.fileset self.now.tags (M.pages pages.now) chains
            → result ≡ option_and_then (of_live index_place_of) (chains tag) }
    {
        let at = self.live_cell(pages, tag)?;
        read_index(&first_record(pages, &at, 9)?)
    }

    /// Writes for the directory that a live tag names where its index begins and how many entries
    /// the index has, or, given None, that it has no index. Only the first cell changes, and so one
    /// page. Every other file stays, and so does all else of this one. Fails only if memory runs
    /// out, and then nothing has changed.
    pub fn set_index<M: MetaPages>(
        &self,
        alloc: Global,
        pages: &mut M,
        tag: Tag,
        index: Option<IndexPlace>,
    ) -> Result<(), OutOfMemory>
        requires files { HasFiles self.now.fileset self.now.tags (M.pages pages.old) }
        requires live { (chains : Chains)
            → AreFiles self.now.fileset self.now.tags (M.pages pages.old) chains
            → IsLive tag chains }
        ensures ok { (chains : Chains)
            → AreFiles self.now.fileset self.now.tags (M.pages pages.old) chains
            → OnOk result (AreFiles self.now.fileset self.now.tags (M.pages pages.new)
            (with_chain tag (with_first (says_index index)) chains)) }
        ensures together { (space : Spaces) (cells : Cells) (chains : Chains)
            → AreTogether self.now.fileset self.now.tags space cells (M.pages pages.old) chains
            → OnOk result (AreTogether self.now.fileset self.now.tags space cells
            (M.pages pages.new) (with_chain tag (with_first (says_index index)) chains)) }
        ensures err { OnErr result (M.pages pages.new ≡ M.pages pages.old) }
        ensures beside { (chains : Chains)
            → AreFiles self.now.fileset self.now.tags (M.pages pages.old) chains
            → ChangesFirst (chains tag) (M.pages pages.old) (M.pages pages.new) }
        ensures well_formed { KeepsWellFormed (M.pages pages.old) (M.pages pages.new) }
        ensures headers { KeepsHeaders (M.pages pages.old) (M.pages pages.new) }
        ensures room { M.room pages.new ≡ M.room pages.old }
        ensures before { M.before pages.new ≡ M.before pages.old }
    {
        match self.live_cell(pages, tag) {
            Some(at) => put_index(alloc, pages, &at, &index),
            None => Ok(()),
        }
    }
}
