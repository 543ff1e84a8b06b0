//! Laws of directories and of their changes.
ghost use Rattle.directory_rows.specs.Laws.{EmptyIsWellFormed, OthersStay, RowsDecide};

/// A change of a directory's rows leaves what every other tag names, and the directory's kind,
/// owner and links.
pub fn others_stay()
    ensures { OthersStay }
{}

/// Whether a directory is well formed depends only on its pages and index pages.
pub fn rows_decide()
    ensures { RowsDecide }
{}

/// A directory without pages is well formed.
pub fn empty_is_well_formed()
    ensures { EmptyIsWellFormed }
{}
