//! Looking at rows in place.
ghost use Rattle.std.specs.Prelude.{true, false, ◌≡◌, ◌≤◌, ◌↔◌, IsTrue, [], length};
ghost use Rattle.directory_pages.specs.Rows.{found};
ghost use Rattle.directory_rows.specs.Directory.{IndexesRows, IsWellFormed, row_pages, rows_at, rows_in};
ghost use Rattle.directory_rows.specs.Places.{IsSearched, IsSearchedAt};
ghost use Rattle.directory_pages.specs.Index.{index_pages};

use directory_pages::{BitfileSet, Kind, Tag, count_rows, name_hash, next_page};

/// Where a row stands: the number of its page, and its tag and kind.
#[derive(Clone, Copy)]
pub(crate) struct Place {
    pub(crate) page: u32,
    pub(crate) tag: Tag,
    pub(crate) kind: Kind,
}

/// How many rows the page of that number has, or 0 if it is not there.
fn rows_on<S: BitfileSet>(set: &S, dir: Tag, number: u32) -> u32
    requires { IsWellFormed (S.files set.now) dir }
    ensures count { result ≡ length (rows_at number (row_pages (S.files set.now) dir)) }
    ensures few { result ≤ 1022 }
{
    match set.dir_page(dir, number) {
        Some(page) => count_rows(page),
        None => 0,
    }
}

/// How many rows a directory has. They are fewer than 2^32: a page has at most 1,022 of them, and a
/// directory at most 65,536 pages.
pub fn row_count<S: BitfileSet>(set: &S, dir: Tag) -> u32
    requires { IsWellFormed (S.files set.now) dir }
    ensures { result ≡ length (rows_in (S.files set.now) dir) }
{
    let mut count = 0;
    for number in 0..set.dir_pages(dir) {
        count += rows_on(set, dir, number);
    }
    count
}

/// Whether a directory has no row. Looks at no page after the first one with a row.
pub fn is_empty<S: BitfileSet>(set: &S, dir: Tag) -> bool
    requires { IsWellFormed (S.files set.now) dir }
    ensures { IsTrue result ↔ (rows_in (S.files set.now) dir ≡ []) }
{
    for number in 0..set.dir_pages(dir) {
        if rows_on(set, dir, number) != 0 {
            return false;
        }
    }
    true
}

/// The first row of a name on the page of that number.
fn place_on<S: BitfileSet>(set: &S, dir: Tag, name: &[u8], number: u32) -> Option<Place>
    requires { IsWellFormed (S.files set.now) dir }
    ensures { IsSearchedAt name.now number (row_pages (S.files set.now) dir) result }
{
    let page = set.dir_page(dir, number)?;
    let (tag, kind) = directory_pages::find_row(page, name)?;
    Some(Place {
        page: number,
        tag,
        kind,
    })
}

/// Where the row of a name stands, searched for on the pages that the index has for the name's
/// hash, one after another.
fn place_by_index<S: BitfileSet>(set: &S, dir: Tag, name: &[u8]) -> Option<Place>
    requires good { IsWellFormed (S.files set.now) dir }
    requires index { IndexesRows (row_pages (S.files set.now) dir) (index_pages (S.files set.now)
        dir) }
    ensures { IsSearched name.now (row_pages (S.files set.now) dir) result }
{
    let hash = name_hash(name);
    let mut from = 0;
    while let Some(number) = next_page(set, dir, hash, from) {
        let place = place_on(set, dir, name, number);
        if place.is_some() {
            return place;
        }
        from = number + 1;
    }
    None
}

/// Where the first row of a name stands, searched for on one page after another.
fn place_by_scan<S: BitfileSet>(set: &S, dir: Tag, name: &[u8]) -> Option<Place>
    requires { IsWellFormed (S.files set.now) dir }
    ensures { IsSearched name.now (row_pages (S.files set.now) dir) result }
{
    let pages = set.dir_pages(dir);
    for number in 0..pages {
        let place = place_on(set, dir, name, number);
        if place.is_some() {
            return place;
        }
    }
    None
}

/// Whether a directory has an index.
pub(crate) fn has_index<S: BitfileSet>(set: &S, dir: Tag) -> bool
    ensures some { result ≡ true → 1 ≤ length (index_pages (S.files set.now) dir) }
    ensures none { result ≡ false → index_pages (S.files set.now) dir ≡ [] }
{
    set.index_pages(dir) != 0
}

/// Where the first row of a name stands. With an index it looks only at the pages that have names
/// of the same hash.
pub(crate) fn place_of<S: BitfileSet>(set: &S, dir: Tag, name: &[u8]) -> Option<Place>
    requires { IsWellFormed (S.files set.now) dir }
    ensures { IsSearched name.now (row_pages (S.files set.now) dir) result }
{
    if has_index(set, dir) {
        place_by_index(set, dir, name)
    } else {
        place_by_scan(set, dir, name)
    }
}

/// The tag and kind of the row that has the name. Returns None if and only if no row has it. With
/// an index it looks only at the pages that have names of the same hash. Without one it looks at
/// the pages up to the one that has the row. Takes no memory.
pub fn find_row<S: BitfileSet>(set: &S, dir: Tag, name: &[u8]) -> Option<(Tag, Kind)>
    requires { IsWellFormed (S.files set.now) dir }
    ensures { result ≡ found name.now (rows_in (S.files set.now) dir) }
{
    let place = place_of(set, dir, name)?;
    Some((place.tag, place.kind))
}
