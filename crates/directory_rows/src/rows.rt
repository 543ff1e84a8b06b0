//! The rows of a directory by the homes of its pages.
ghost use Rattle.std.specs.Prelude.{◌≡◌, ◌++◌, IfOk, OnOk};
ghost use Rattle.directory_rows.specs.Stored.{AreRowPages, IsRowsAt, rows_at, rows_of_homes};

use directory_pages::{Home, MetaPages, OutOfMemory, Row, RowList, push_rows};
use std::alloc::Global;

/// Adds copies of the rows of the page at a home after others. Adds none if there is no home.
fn push_rows_at<M: MetaPages>(
    alloc: Global,
    pages: &M,
    home: &Option<Home>,
    rows: &mut Vec<Row>,
) -> Result<(), OutOfMemory>
    requires { IsRowsAt (M.pages pages.now) home.now }
    ensures { OnOk result (rows.new.items ≡ rows.old.items ++ rows_at (M.pages pages.now) home.now) }
{
    let Some(home) = home else {
        return Ok(());
    };
    match pages.get(*home) {
        Some(page) => push_rows(alloc, page, rows),
        None => Ok(()),
    }
}

/// Copies of the rows of a directory whose pages stand at these homes, page after page. Every page
/// that stands there is well formed.
pub fn read_rows<M: MetaPages>(
    alloc: Global,
    pages: &M,
    homes: &[Option<Home>],
) -> Result<RowList, OutOfMemory>
    requires { AreRowPages (M.pages pages.now) homes.now }
    ensures { IfOk result (λ rows. rows ≡ rows_of_homes (M.pages pages.now) homes.now) }
{
    let mut rows = Vec::new(alloc);
    for home in homes {
        push_rows_at(alloc, pages, home, &mut rows)?;
    }
    Ok(RowList::from_vec(rows))
}
