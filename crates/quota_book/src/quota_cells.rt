//! Limits, read from the records of quota cells.
ghost use Rattle.std.specs.Prelude.{◌≡◌, ◌↔◌, IfOk, IsTrue, OnErr, OnOk, Some, option_map};
ghost use Rattle.std.specs.FinMap.Entries.{is_sorted};
ghost use Rattle.fileset_model.specs.fileset_values.Orders.{owner_cmp};
ghost use Rattle.quota_book.specs.QuotaCells.{AreOnce, HasLimits, Notes, NotesSaid, TakesLimits, limits_said, said_by};

use crate::book::QuotaBook;
use cell_records::Record;
use fileset_model::entries::{find, put};
use fileset_model::{Limits, OutOfMemory, Owner};
use std::alloc::Global;

/// Sets the limits that a record says, if it says any. After an error the book is as before.
fn take_limits(book: &mut QuotaBook, said: &Record) -> Result<(), OutOfMemory>
    ensures ok { OnOk result (TakesLimits (limits_said said.now) book.old.book
        book.new.book) }
    ensures err { OnErr result (book.new ≡ book.old) }
{
    match said {
        Record::UserQuota { id, files, blocks } => {
            set_limits(book, Owner::User(*id), *files, *blocks)
        }
        Record::GroupQuota { id, files, blocks } => {
            set_limits(book, Owner::Group(*id), *files, *blocks)
        }
        _ => Ok(()),
    }
}

/// Sets an owner's limits. After an error the book is as before.
fn set_limits(book: &mut QuotaBook, who: Owner, files: u64, blocks: u64) -> Result<(), OutOfMemory>
    ensures ok { OnOk result (TakesLimits
        (Some (who, record { files = files; blocks = blocks })) book.old.book book.new.book) }
    ensures err { OnErr result (book.new ≡ book.old) }
{
    book.set_limits(who, Limits { files, blocks })
}

/// The owner that a record is about, if it says limits.
fn owner_of(said: &Record) -> Option<Owner>
    ensures { result ≡ option_map (λ e. e.0) (limits_said said.now) }
{
    match said {
        Record::UserQuota { id, .. } => Some(Owner::User(*id)),
        Record::GroupQuota { id, .. } => Some(Owner::Group(*id)),
        _ => None,
    }
}

/// Notes an owner. Returns false if the owner was noted before.
fn note(seen: &mut Vec<(Owner, ())>, who: Owner) -> Result<bool, OutOfMemory>
    requires { IsTrue (is_sorted owner_cmp seen.old.items) }
    ensures noted { IfOk result (Notes who seen.old.items seen.new.items) }
    ensures sorted { IsTrue (is_sorted owner_cmp seen.new.items) }
{
    match find(seen, &who) {
        Some(_) => Ok(false),
        None => {
            put(seen, who, ())?;
            Ok(true)
        }
    }
}

/// Notes the owner of a record, if it says limits. Returns false if the owner was noted before.
fn note_record(seen: &mut Vec<(Owner, ())>, said: &Record) -> Result<bool, OutOfMemory>
    requires { IsTrue (is_sorted owner_cmp seen.old.items) }
    ensures noted { IfOk result (NotesSaid (limits_said said.now) seen.old.items seen.new.items) }
    ensures sorted { IsTrue (is_sorted owner_cmp seen.new.items) }
{
    match owner_of(said) {
        Some(who) => note(seen, who),
        None => Ok(true),
    }
}

/// Whether the records of quota cells say nothing of an owner twice.
pub fn are_once(alloc: Global, records: &[Record]) -> Result<bool, OutOfMemory>
    ensures { IfOk result (λ once. IsTrue once ↔ AreOnce (said_by records.now)) }
{
    let mut seen = Vec::new(alloc);
    for said in records {
        if !note_record(&mut seen, said)? {
            return Ok(false);
        }
    }
    Ok(true)
}

/// The book of a fileset that has nothing yet, with the limits of users and groups that the records
/// of its quota cells say. They say no owner's limits twice. This book is also what is kept.
pub fn read_limits(alloc: Global, records: &[Record]) -> Result<QuotaBook, OutOfMemory>
    requires { AreOnce (said_by records.now) }
    ensures limits { IfOk result (λ books. HasLimits (said_by records.now) books.book) }
    ensures kept { IfOk result (λ books. books.kept ≡ books.book) }
{
    let mut book = QuotaBook::new(alloc);
    for said in records {
        take_limits(&mut book, said)?;
    }
    book.keep();
    Ok(book)
}
