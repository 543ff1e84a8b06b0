//! Rows that stand by themselves, and lists of them.
ghost use Rattle.std.specs.Prelude.{◌≡◌, IfOk};

use cell_records::{Kind, OutOfMemory, Tag};
use std::alloc::Global;
use std::error::Error;
use std::fmt;
use std::marker::Model;

/// The name of a row, which contracts see as its bytes.
#[derive(Drop)]
pub struct RowName {
    bytes: Vec<u8>,
}

impl Model for RowName {
    ghost use Rattle.std.specs.Prelude.{ℕ, List};

    ghost Value = { List ℕ };

    ghost view = { λ n. n.bytes.items };
}

impl RowName {
    /// A name with a copy of these bytes.
    pub fn copy_of(alloc: Global, bytes: &[u8]) -> Result<Self, OutOfMemory>
        ensures { IfOk result (λ name. name ≡ bytes.now) }
    {
        let bytes = Vec::from_slice(alloc, bytes)?;
        Ok(RowName { bytes })
    }

    /// The name of these bytes.
    pub fn from_vec(bytes: Vec<u8>) -> Self
        ensures { result ≡ bytes.items }
    {
        RowName { bytes }
    }

    /// Its bytes, in place of the name.
    pub fn into_vec(self) -> Vec<u8>
        ensures { result.items ≡ self }
    {
        let RowName { bytes } = self;
        bytes
    }

    /// Its bytes.
    pub fn as_slice(&self) -> &[u8]
        ensures { result.now ≡ self.now }
    {
        self.bytes.as_slice()
    }
}

/// A row: a name, and the tag and kind of the file or directory that it names.
#[derive(Drop)]
pub struct Row {
    pub tag: Tag,
    pub kind: Kind,
    pub name: RowName,
}

/// The rows of a page, which contracts see as their list.
#[derive(Drop)]
pub struct RowList {
    rows: Vec<Row>,
}

impl Model for RowList {
    ghost use Rattle.std.specs.Prelude.{List};
    ghost use Rattle.directory_pages.specs.declared.row.Row.{Row};

    ghost Value = { List Row };

    ghost view = { λ l. l.rows.items };
}

impl RowList {
    /// The list of these rows.
    pub fn from_vec(rows: Vec<Row>) -> Self
        ensures { result ≡ rows.items }
    {
        RowList { rows }
    }

    /// Its rows, in place of the list.
    pub fn into_vec(self) -> Vec<Row>
        ensures { result.items ≡ self }
    {
        let RowList { rows } = self;
        rows
    }

    /// Its rows.
    pub fn as_slice(&self) -> &[Row]
        ensures { result.now ≡ self.now }
    {
        self.rows.as_slice()
    }
}

/// Why the rows of a page were not read.
#[derive(Clone, Copy, Debug, PartialEq, Eq)]
pub enum RowsFault {
    /// The page is no directory page: no list of rows is the page's.
    Bad,
    /// Memory ran out.
    OutOfMemory,
}

impl fmt::Display for RowsFault {
    fn fmt<W: fmt::Write>(&self, f: &mut fmt::Formatter<W>) -> fmt::Result {
        f.write_str(match self {
            RowsFault::Bad => "no directory page",
            RowsFault::OutOfMemory => "out of memory",
        })
    }
}

impl Error for RowsFault {}

impl From<OutOfMemory> for RowsFault {
    ghost use Rattle.directory_pages.specs.declared.row.RowsFault.TheVariants.{OutOfMemory as NoMemory};

    ghost from_gives = { λ _ e. e ≡ NoMemory };

    fn from(_: OutOfMemory) -> RowsFault {
        RowsFault::OutOfMemory
    }
}
