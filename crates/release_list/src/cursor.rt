//! Where a step continues that lets go of something of the same file as the step before it.
ghost use Rattle.std.specs.Prelude.{◌≡◌, IfSome};
ghost use Rattle.file_release.specs.page_store.Pages.{Pages};
ghost use Rattle.file_release.specs.Sharing.{IsWithin};
ghost use Rattle.release_list.specs.Cursors.{IsAhead};

use file_release::CellAt;

/// A cell of a file's chain after which the next step looks first for something to let go.
#[derive(Clone, Copy)]
pub struct Cursor {
    pub file: CellAt,
    pub at: CellAt,
}

/// The cursor's cell, if it is a cell of that file.
pub(crate) fn place_in(cursor: &Option<Cursor>, file: &CellAt) -> Option<CellAt>
    ensures { (pages : Pages) → IsAhead pages cursor.now → IsWithin pages file.now result }
{
    match cursor {
        Some(cursor) => {
            if cursor.file == *file {
                Some(cursor.at)
            } else {
                None
            }
        }
        None => None,
    }
}

/// A cursor at a cell of a file, if one is given.
pub(crate) fn cursor_at(file: &CellAt, place: &Option<CellAt>) -> Option<Cursor>
    ensures within { (pages : Pages) → IsWithin pages file.now place.now → IsAhead pages result }
    ensures file { IfSome result (λ c. c.file ≡ file.now) }
{
    match place {
        Some(at) => Some(Cursor {
            file: *file,
            at: *at,
        }),
        None => None,
    }
}
