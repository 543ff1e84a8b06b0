//! Rows of the list of faults.
ghost use Rattle.std.specs.Prelude.{◌≡◌, ◌++◌, OnOk};
ghost use Rattle.slot_files.specs.sorted_sets.Members.{entries};
ghost use Rattle.slot_files.specs.sorted_sets.Order.{AreNumbered};
ghost use Rattle.slot_files.specs.sorted_sets.Rising.{IsRising};
ghost use Rattle.domain_faults.specs.Rows.{code_of, rows_of, rows_there};

use slot_files::{Home, HomeSet, OutOfMemory};

/// What is asked of the pages of a domain, in the order of the list of faults.
#[derive(Clone, Copy, Debug, PartialEq, Eq)]
pub enum Rule {
    /// The page of the fileset table says a table.
    Table,
    /// Cells and their chains are as they should be.
    Cells,
    /// Tags, and what they and the slots of filesets name, are as they should be.
    Tags,
    /// Pages of files stand where they are allowed to.
    Extents,
    /// Bits of bitmaps say which pages belong to something.
    Bitmaps,
    /// Directories are as they should be.
    Directories,
    /// Indexes are as they should be.
    Indexes,
}

impl Rule {
    /// The rule's code in the list of faults.
    pub fn code(self) -> u32
        ensures { result ≡ code_of self }
    {
        match self {
            Rule::Table => 4,
            Rule::Cells => 5,
            Rule::Tags => 6,
            Rule::Extents => 7,
            Rule::Bitmaps => 8,
            Rule::Directories => 9,
            Rule::Indexes => 10,
        }
    }
}

/// A rule, and a page at which it is broken.
#[derive(Clone, Copy, Debug, PartialEq, Eq)]
pub struct FaultRow {
    pub rule: Rule,
    pub home: Home,
}

/// Appends a row of a rule for each page of a set to other rows.
pub(crate) fn push_rows(
    rule: Rule,
    found: &HomeSet,
    rows: &mut Vec<FaultRow>,
) -> Result<(), OutOfMemory>
    ensures rows { OnOk result (rows_there rows.new.items
        ≡ rows_there rows.old.items ++ rows_of (code_of rule) (entries found.now)) }
    ensures rising { OnOk result (IsRising (entries found.now)) }
    ensures numbered { OnOk result (AreNumbered (entries found.now)) }
{
    for (_, home) in found.as_slice() {
        rows.push(FaultRow { rule, home: *home })?;
    }
    Ok(())
}
