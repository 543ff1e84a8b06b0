//! Laws of directory pages.
ghost use Rattle.directory_pages.specs.RowPage.{RowsOnce};

/// The bytes of a page are rows in at most one way.
pub fn rows_stand_once()
    ensures { RowsOnce }
{}
