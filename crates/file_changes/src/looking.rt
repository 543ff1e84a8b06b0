//! Looking at what a file has at a page.
ghost use Rattle.std.specs.Prelude.{◌≡◌, true, IfNone, IfSome, Some, slice_get};
ghost use Rattle.std.specs.Option.{option_and_then};
ghost use Rattle.domain_memory.specs.domain_base.declared.place.Kind.TheVariants.{File};
ghost use Rattle.domain_memory.specs.fileset_files.Files.{AreFiles, Chains, HasFiles, keep_of, of_live};
ghost use Rattle.domain_memory.specs.domain_layout.CellRules.{of_original};
ghost use Rattle.domain_memory.specs.standing_laws.Leads.{IsLiveOf};
ghost use Rattle.domain_memory.specs.Staged.{IsStagedForSome, MayGoBack};
ghost use Rattle.file_changes.specs.Looking.{IsAtPage};

use crate::slots::files_in;
use domain_memory::{Bitfiles, DomainMemory, FilesetNo, Kind, MetaPages, PagePlace, Tag};

/// What there is at a page of what a tag names.
#[derive(Clone, Copy, Debug, PartialEq, Eq)]
pub enum FilePage {
    /// No file, or one that is to be removed.
    NoFile,
    /// A file that neither has the page nor can get it now: it keeps fewer pages until those after
    /// them are let go of, or has a hole there.
    Closed,
    /// A file that may get the page.
    Lacking,
    /// A file that has it.
    There,
}

/// How many of its first pages a file keeps; None if the tag names no file that stays.
pub(crate) fn kept_of<M: MetaPages>(pages: &M, files: &Bitfiles, tag: Tag) -> Option<u32>
    requires { HasFiles files.now.fileset files.now.tags (M.pages pages.now) }
    ensures file { (chains : Chains)
        → AreFiles files.now.fileset files.now.tags (M.pages pages.now) chains
        → IfSome result (λ keep. IsLiveOf File (chains tag)) }
    ensures keep { (chains : Chains)
        → AreFiles files.now.fileset files.now.tags (M.pages pages.now) chains
        → IfSome result (λ keep. option_and_then (of_live keep_of) (chains tag) ≡ Some keep) }
    ensures none { (chains : Chains)
        → AreFiles files.now.fileset files.now.tags (M.pages pages.now) chains
        → IfNone result (¬ IsLiveOf File (chains tag)) }
{
    let what = files.attributes(pages, tag)?;
    match what.kind {
        Kind::File => files.keep(pages, tag),
        Kind::Directory => None,
    }
}

/// What there is at a page of what a tag names, in the fileset in a slot, an original. It tells
/// whether the page can be given, or other bytes can be put there. It takes no memory.
pub fn look_at_page(memory: &DomainMemory, number: FilesetNo, tag: Tag, page: u32) -> FilePage
    requires stands { ∥ IsStagedForSome memory.now ∥₁ }
    requires back { ∥ MayGoBack memory.now ∥₁ }
    requires original { of_original (slice_get memory.now.table.slots number) ≡ true }
    ensures { IsAtPage memory.now number tag page result }
{
    let slot = files_in(&memory.slots, number);
    let Some(keep) = kept_of(&memory.pages, &slot.files, tag) else {
        return FilePage::NoFile;
    };
    if page >= keep {
        return FilePage::Closed;
    }
    match slot.files.page_home(&memory.pages, tag, page) {
        PagePlace::At { .. } => FilePage::There,
        PagePlace::Hole => FilePage::Closed,
        PagePlace::Absent => FilePage::Lacking,
    }
}
