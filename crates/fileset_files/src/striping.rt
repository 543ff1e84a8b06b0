//! The stripes of files.
ghost use Rattle.std.specs.Prelude.{◌≡◌, OnErr, OnOk, false};
ghost use Rattle.std.specs.Option.{option_and_then};
ghost use Rattle.file_chains.specs.domain_base.declared.place.Home.{Home as HomeOf};
ghost use Rattle.file_chains.specs.page_store.Pages.{same_home};
ghost use Rattle.file_chains.specs.free_cells.Cells.{Cells};
ghost use Rattle.file_chains.specs.free_space.Spaces.{Spaces};
ghost use Rattle.file_chains.specs.cell_records.Records.{Allowed, kind_of};
ghost use Rattle.file_chains.specs.metadata_cells.Cell.{Cell};
ghost use Rattle.file_chains.specs.metadata_cells.CellPage.{KeepsHeaders, KeepsWellFormed, home_of as home_there};
ghost use Rattle.file_chains.specs.metadata_cells.Chain.{LeavesOthers, StandsAt, is_at};
ghost use Rattle.fileset_files.specs.Changes.{ChangesFirst, HasFirstRoom, IsLive, with_chain, with_first};
ghost use Rattle.fileset_files.specs.Files.{AreFiles, Chains, HasFiles, of_live};
ghost use Rattle.fileset_files.specs.Stripes.{says_stripe, stripe_in, stripe_of, stripe_record as record_of_stripe};
ghost use Rattle.fileset_files.specs.Together.{AreTogether};

use crate::bitfiles::{Bitfiles, first_record, set_first};
use file_chains::{CellAt, MetaPages, OutOfMemory, Record, Tag};
use std::alloc::Global;

/// The stripe of a file: the first `width` of the volumes take turns, eight pages each. At mark 0
/// each page stands on the volume whose turn it is, and at 1 it may stand on another; at 2 the file
/// leaves a volume. No rule holds a domain to this yet.
#[derive(Clone, Copy, Debug, PartialEq, Eq)]
pub struct Stripe {
    pub width: u8,
    pub mark: u8,
    pub vols: [u8; 8],
}

/// The record for a stripe.
fn stripe_record(width: u8, mark: u8, vols: &[u8; 8]) -> Record
    ensures value { result ≡ record_of_stripe (record {
      width = width;
      mark = mark;
      vols = vols.now;
    }) }
    ensures kind { kind_of result ≡ 11 }
    ensures allowed { Allowed result }
{
    prove!(width <= u8::MAX);
    prove!(mark <= u8::MAX);
    Record::Stripe {
        width,
        mark,
        vols: *vols,
    }
}

/// The stripe by a record, if it is one of a stripe.
fn read_stripe(value: &Record) -> Option<Stripe>
    ensures { result ≡ stripe_in value.now }
{
    match value {
        Record::Stripe { width, mark, vols } => Some(Stripe {
            width: *width,
            mark: *mark,
            vols: *vols,
        }),
        _ => None,
    }
}

/// Writes in a file's first cell its stripe.
fn put_stripe<M: MetaPages>(
    alloc: Global,
    pages: &mut M,
    at: &CellAt,
    stripe: &Stripe,
) -> Result<(), OutOfMemory>
    requires { HasFirstRoom (M.pages pages.old) at.now }
    ensures ok { (cell : Cell) → StandsAt (M.pages pages.old) at.now cell
        → OnOk result (StandsAt (M.pages pages.new) at.now (says_stripe stripe.now cell)) }
    ensures err { OnErr result (M.pages pages.new ≡ M.pages pages.old) }
    ensures others { LeavesOthers (is_at at.now) (M.pages pages.old) (M.pages pages.new) }
    ensures well_formed { KeepsWellFormed (M.pages pages.old) (M.pages pages.new) }
    ensures headers { KeepsHeaders (M.pages pages.old) (M.pages pages.new) }
    ensures elsewhere { (home : HomeOf) → same_home home (home_there at.now) ≡ false
        → M.pages pages.new home ≡ M.pages pages.old home }
    ensures room { M.room pages.new ≡ M.room pages.old }
    ensures before { M.before pages.new ≡ M.before pages.old }
{
    let value = stripe_record(stripe.width, stripe.mark, &stripe.vols);
    set_first(alloc, pages, at, &value)
}

impl Bitfiles {
    /// The stripe of the file that a tag names. Returns None if and only if the tag names none, or
    /// one that is to be removed, or one without a stripe.
    pub fn stripe<M: MetaPages>(&self, pages: &M, tag: Tag) -> Option<Stripe>
        requires { HasFiles self.now.fileset self.now.tags (M.pages pages.now) }
        ensures { (chains : Chains)
            → AreFiles self.now.fileset self.now.tags (M.pages pages.now) chains
            → result ≡ option_and_then (of_live stripe_of) (chains tag) }
    {
        let at = self.live_cell(pages, tag)?;
        read_stripe(&first_record(pages, &at, 11)?)
    }

    /// Writes the stripe of the file that a live tag names. Only the first cell changes, and so one
    /// page; no cell and no page is taken. Every other file stays, and so does all else of this
    /// one. Fails only if memory runs out, and then nothing has changed.
    pub fn set_stripe<M: MetaPages>(
        &self,
        alloc: Global,
        pages: &mut M,
        tag: Tag,
        stripe: Stripe,
    ) -> Result<(), OutOfMemory>
        requires files { HasFiles self.now.fileset self.now.tags (M.pages pages.old) }
        requires live { (chains : Chains)
            → AreFiles self.now.fileset self.now.tags (M.pages pages.old) chains
            → IsLive tag chains }
        ensures ok { (chains : Chains)
            → AreFiles self.now.fileset self.now.tags (M.pages pages.old) chains
            → OnOk result (AreFiles self.now.fileset self.now.tags (M.pages pages.new)
            (with_chain tag (with_first (says_stripe stripe)) chains)) }
        ensures together { (space : Spaces) (cells : Cells) (chains : Chains)
            → AreTogether self.now.fileset self.now.tags space cells (M.pages pages.old) chains
            → OnOk result (AreTogether self.now.fileset self.now.tags space cells
            (M.pages pages.new) (with_chain tag (with_first (says_stripe stripe)) chains)) }
        ensures err { OnErr result (M.pages pages.new ≡ M.pages pages.old) }
        ensures beside { (chains : Chains)
            → AreFiles self.now.fileset self.now.tags (M.pages pages.old) chains
            → ChangesFirst (chains tag) (M.pages pages.old) (M.pages pages.new) }
        ensures well_formed { KeepsWellFormed (M.pages pages.old) (M.pages pages.new) }
        ensures headers { KeepsHeaders (M.pages pages.old) (M.pages pages.new) }
        ensures room { M.room pages.new ≡ M.room pages.old }
        ensures before { M.before pages.new ≡ M.before pages.old }
    {
        match self.live_cell(pages, tag) {
            Some(at) => put_stripe(alloc, pages, &at, &stripe),
            None => Ok(()),
        }
    }
}
