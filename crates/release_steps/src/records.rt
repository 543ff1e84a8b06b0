//! From the records of a quota cell to what they say of owners, and back.
ghost use Rattle.std.specs.Prelude.{◌≡◌, ◌≤◌, IfOk, IfSome, IsTrue, length};
ghost use Rattle.std.specs.FinMap.Entries.{is_sorted};
ghost use Rattle.release_list.specs.cell_records.Records.{Allowed};
ghost use Rattle.release_list.specs.metadata_cells.Cell.{AreRecords, spellings};
ghost use Rattle.quota_book.specs.fileset_values.Orders.{owner_cmp};
ghost use Rattle.quota_book.specs.QuotaCells.{limits_said, said_by};
ghost use Rattle.release_steps.specs.QuotaChain.{record_for, records_for};

use quota_book::{Limits, Owner};
use release_list::{OutOfMemory, Record, RecordList};
use std::alloc::Global;

/// The owner that a record is about, with the limits that it says, if it says any.
fn limits_in(value: &Record) -> Option<(Owner, Limits)>
    ensures { result ≡ limits_said value.now }
{
    match *value {
        Record::UserQuota { id, files, blocks } => Some((
            Owner::User(id),
            Limits { files, blocks },
        )),
        Record::GroupQuota { id, files, blocks } => {
            Some((Owner::Group(id), Limits { files, blocks }))
        }
        _ => None,
    }
}

/// What the records of a cell say of owners, in their order.
pub(crate) fn read_said(
    alloc: Global,
    records: &[Record],
) -> Result<Vec<(Owner, Limits)>, OutOfMemory>
    requires { AreRecords records.now }
    ensures value { IfOk result (λ said. said.items ≡ said_by records.now) }
    ensures sorted { IfOk result (λ said. IsTrue (is_sorted owner_cmp said.items)) }
{
    let mut said = Vec::new(alloc);
    for value in records {
        if let Some(limits) = limits_in(value) {
            said.push(limits)?;
        }
    }
    Ok(said)
}

/// The record that says these limits. There is none for those of the fileset.
fn record_of(who: Owner, limits: Limits) -> Option<Record>
    ensures value { result ≡ record_for who limits }
    ensures allowed { IfSome result Allowed }
{
    let Limits { files, blocks } = limits;
    prove!(files <= u64::MAX);
    prove!(blocks <= u64::MAX);
    match who {
        Owner::User(id) => {
            prove!(id <= u32::MAX);
            Some(Record::UserQuota { id, files, blocks })
        }
        Owner::Group(id) => {
            prove!(id <= u32::MAX);
            Some(Record::GroupQuota { id, files, blocks })
        }
        Owner::Fileset => None,
    }
}

/// The records that say this of owners, for a cell.
pub(crate) fn write_said(alloc: Global, said: &[(Owner, Limits)]) -> Result<RecordList, OutOfMemory>
    requires sorted { IsTrue (is_sorted owner_cmp said.now) }
    requires few { length said.now ≤ 9 }
    ensures value { IfOk result (λ records. records ≡ records_for said.now) }
    ensures good { IfOk result AreRecords }
    ensures fits { IfOk result (λ records. length (spellings records) ≤ 272) }
{
    let mut records = Vec::new(alloc);
    for (who, limits) in said {
        if let Some(value) = record_of(*who, *limits) {
            records.push(value)?;
        }
    }
    Ok(RecordList::from_vec(records))
}
