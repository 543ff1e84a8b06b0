//! Lists of records.
ghost use Rattle.std.specs.Prelude.{◌≡◌};

use cell_records::Record;
use std::marker::Model;

/// The records of a cell or of a chain, which contracts see as their list.
#[derive(Drop)]
pub struct RecordList {
    records: Vec<Record>,
}

impl Model for RecordList {
    ghost use Rattle.std.specs.Prelude.{List};
    ghost use Rattle.cell_records.specs.declared.record.Record.{Record};

    ghost Value = { List Record };

    ghost view = { λ l. l.records.items };
}

impl RecordList {
    /// The list of these records.
    pub fn from_vec(records: Vec<Record>) -> Self
        ensures { result ≡ records.items }
    {
        RecordList { records }
    }

    /// Its records.
    pub fn as_slice(&self) -> &[Record]
        ensures { result.now ≡ self.now }
    {
        self.records.as_slice()
    }

    /// Its records, in place of the list.
    pub fn into_vec(self) -> Vec<Record>
        ensures { result.items ≡ self }
    {
        let RecordList { records } = self;
        records
    }
}
