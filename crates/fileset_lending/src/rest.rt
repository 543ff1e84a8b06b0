//! The part of a domain's memory that stays where it is while files are lent.
ghost use Rattle.std.specs.Prelude.{◌<◌, length};

use domain_memory::{
    Deferred, DomainFrame, FilesetNo, FilesetTable, QuotaBook, ReplacedSlot, SlotFiles,
};

/// The part of a domain's memory that no call on the files of a fileset changes while these are
/// lent.
#[derive(Drop)]
pub struct MemoryRest {
    /// The anchor that counts, and its version.
    pub(crate) frame: DomainFrame,
    /// The fileset table, as its page has it.
    pub(crate) table: FilesetTable,
    /// What is to be let go of.
    pub(crate) list: Deferred,
    /// What is in the slots. The slot of the fileset is empty meanwhile.
    pub(crate) slots: Vec<Option<SlotFiles>>,
    /// The slot of the table that the change has set anew, if there is one.
    pub(crate) was: Option<ReplacedSlot>,
    /// The fileset's number.
    pub(crate) number: FilesetNo,
    /// What the fileset's owners use, and their limits.
    pub(crate) book: QuotaBook,
    /// How many pages its tag directory had when that was last kept.
    pub(crate) tag_pages: usize,
    ghost there: { number < length slots.items },
}
