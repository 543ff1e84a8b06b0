//! Lists of a directory's rows.
ghost use Rattle.std.specs.Prelude.{◌≡◌, ◌++◌, IfOk, OnOk, IsPermutation, IsSortedByKey};
ghost use Rattle.std.specs.Cmp.Lexicographic.{slice_cmp};
ghost use Rattle.std.specs.Ordering.{nat_cmp};
ghost use Rattle.directory_pages.specs.declared.row.Row.{Row as RowItem};
ghost use Rattle.directory_rows.specs.Directory.{IsWellFormed, row_pages, rows_at, rows_in};

use directory_pages::{BitfileSet, OutOfMemory, Row, RowList, Tag, push_rows};
use std::alloc::Global;

/// Adds copies of the rows of one page after others.
fn copy_rows<S: BitfileSet>(
    set: &S,
    alloc: Global,
    dir: Tag,
    number: u32,
    rows: &mut Vec<Row>,
) -> Result<(), OutOfMemory>
    requires { IsWellFormed (S.files set.now) dir }
    ensures { OnOk result (rows.new.items ≡ rows.old.items ++ rows_at number (row_pages (S.files
        set.now) dir)) }
{
    match set.dir_page(dir, number) {
        Some(page) => push_rows(alloc, page, rows),
        None => Ok(()),
    }
}

/// Copies of all rows, page after page.
fn copy_all<S: BitfileSet>(set: &S, alloc: Global, dir: Tag) -> Result<Vec<Row>, OutOfMemory>
    requires { IsWellFormed (S.files set.now) dir }
    ensures { IfOk result (λ rows. rows.items ≡ rows_in (S.files set.now) dir) }
{
    let mut rows = Vec::new(alloc);
    for number in 0..set.dir_pages(dir) {
        copy_rows(set, alloc, dir, number, &mut rows)?;
    }
    Ok(rows)
}

/// The rows of a directory, in byte order of their names.
pub fn list_rows<S: BitfileSet>(set: &S, alloc: Global, dir: Tag) -> Result<RowList, OutOfMemory>
    requires { IsWellFormed (S.files set.now) dir }
    ensures same { IfOk result (λ list. IsPermutation (rows_in (S.files set.now) dir) list) }
    ensures sorted { IfOk result (λ list.
        IsSortedByKey (λ (row : RowItem). row.name) (slice_cmp nat_cmp) list) }
{
    let mut rows = copy_all(set, alloc, dir)?;
    rows.sort_by(|row, other| row.name.as_slice().cmp(other.name.as_slice()))?;
    Ok(RowList::from_vec(rows))
}
