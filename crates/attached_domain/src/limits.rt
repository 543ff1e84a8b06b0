//! The limits of a fileset's owners.
ghost use Rattle.std.specs.Prelude.{IfOk, OnOk, Some};
ghost use Rattle.no_faults.specs.quota_book.QuotaCells.{TakesLimits, limits_said};
ghost use Rattle.attached_domain.specs.Limits.{HasLimitsAlone};

use no_faults::{FilesetEntry, Limits, OutOfMemory, Owner, QuotaBook, Record, RecordList};
use std::alloc::Global;

/// Sets an owner's limits.
fn take_limits(book: &mut QuotaBook, who: Owner, files: u64, blocks: u64) -> Result<(), OutOfMemory>
    ensures { OnOk result (TakesLimits (Some (who, record { files = files; blocks = blocks }))
        book.old.book book.new.book) }
{
    book.set_limits(who, Limits { files, blocks })
}

/// Sets the limits that a record says, if it says any.
fn take_said(book: &mut QuotaBook, said: &Record) -> Result<(), OutOfMemory>
    ensures { OnOk result (TakesLimits (limits_said said.now) book.old.book book.new.book) }
{
    match said {
        Record::UserQuota { id, files, blocks } => {
            take_limits(book, Owner::User(*id), *files, *blocks)
        }
        Record::GroupQuota { id, files, blocks } => {
            take_limits(book, Owner::Group(*id), *files, *blocks)
        }
        _ => Ok(()),
    }
}

/// The book of a fileset that has nothing yet, with the limits that the records of its quota cells
/// and its slot say. If two records say limits of one owner, the first counts.
pub(crate) fn limits_alone(
    alloc: Global,
    entry: &FilesetEntry,
    records: &[Record],
) -> Result<QuotaBook, OutOfMemory>
    ensures { IfOk result (λ books. HasLimitsAlone entry.now records.now books.book) }
{
    let mut book = QuotaBook::new(alloc);
    for i in (0..records.len()).rev() {
        take_said(&mut book, &records[i])?;
    }
    take_limits(
        &mut book,
        Owner::Fileset,
        entry.files_limit,
        entry.blocks_limit,
    )?;
    Ok(book)
}
