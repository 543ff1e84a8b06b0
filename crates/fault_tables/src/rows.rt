//! Rules of directories: of their rows, of what these lead to, and of indexes.
use crate::given::{Given, home};
use image_lines::Words;
use index_row_faults::{
    HomeSet, IndexThere, OutOfMemory, Tag, insert_directory_faults, insert_few_rows,
    insert_lost_twice, insert_misplaced, insert_names_twice, insert_row_pages,
    insert_wrong_indexes, insert_wrong_links, insert_wrong_parents, insert_wrong_rows,
    insert_wrong_sizes, read_rows,
};
use std::alloc::Global;

/// An index of the directory in slot 1: its first page, the total that its record says, and `no` if
/// it may not be there.
fn index_of(words: &mut Words) -> IndexThere {
    let (first, total) = (words.number(' '), words.number(' '));
    IndexThere {
        tag: Tag { slot: 1, seq: 1 },
        first: home(first),
        total,
        may_be: words.until(' ') != "no",
    }
}

/// Adds the pages at which a rule of an index is broken.
fn insert_index(
    alloc: Global,
    words: &mut Words,
    given: &Given,
    found: &mut HomeSet,
) -> Result<(), OutOfMemory> {
    let Given {
        image,
        frame,
        files,
        ..
    } = given;
    let indexes = [index_of(words)];
    let rows = read_rows(alloc, &image.pages, frame, files)?;
    insert_wrong_indexes(alloc, &image.pages, frame, &rows, &indexes, found)
}

/// Adds the pages at which a rule of rows is broken that looks at no page.
fn insert_by_rows(
    alloc: Global,
    asked: &str,
    given: &Given,
    is_clone: bool,
    found: &mut HomeSet,
) -> Result<(), OutOfMemory> {
    let files = &given.files;
    let rows = read_rows(alloc, &given.image.pages, &given.frame, files)?;
    match asked {
        "names" => insert_names_twice(alloc, &rows, found),
        "links" => insert_wrong_links(alloc, files, &rows, found),
        "lost" => insert_lost_twice(alloc, files, &rows, found),
        "parents" => insert_wrong_parents(alloc, files, &rows, found),
        "rows" => insert_wrong_rows(alloc, files, &rows, is_clone, found),
        "few" => insert_few_rows(alloc, files, &rows, is_clone, found),
        _ => insert_misplaced(alloc, files, &rows, is_clone, found),
    }
}

/// Whether a rule of directories is asked.
pub(crate) fn is_of_rows(asked: &str) -> bool {
    matches!(
        asked,
        "row-pages"
            | "sizes"
            | "indexes"
            | "all-rows"
            | "names"
            | "links"
            | "lost"
            | "parents"
            | "rows"
            | "few"
            | "misplaced"
    )
}

/// Adds the pages at which a rule of directories is broken. After a `clone` the files are those of a
/// clone.
pub(crate) fn insert(
    alloc: Global,
    asked: &str,
    words: &mut Words,
    given: &Given,
    found: &mut HomeSet,
) -> Result<(), OutOfMemory> {
    let Given {
        image,
        frame,
        files,
        ..
    } = given;
    let is_clone = words.rest() == "clone";
    match asked {
        "row-pages" => insert_row_pages(&image.pages, frame, files, found),
        "sizes" => insert_wrong_sizes(files, found),
        "indexes" => insert_index(alloc, words, given, found),
        "all-rows" => insert_directory_faults(alloc, &image.pages, frame, files, is_clone, found),
        _ => insert_by_rows(alloc, asked, given, is_clone, found),
    }
}
