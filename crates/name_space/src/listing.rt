//! The rows that a list of a directory shows.
ghost use Rattle.std.specs.Prelude.{◌≡◌, IfOk, map};
ghost use Rattle.directory_rows.specs.page_store.Bitfiles.{IsDirectory};
ghost use Rattle.plain_program.specs.fileset_model.declared.fileset.FilesetSlot.{FilesetSlot};
ghost use Rattle.name_space.specs.Lists.{AreRowsOf, IsRowCount, item_of};
ghost use Rattle.name_space.specs.Names.{HasNames, Names};

use directory_rows::{BitfileSet, Row, RowList};
use plain_program::{Kind, Name, NameItem, NameList, OutOfMemory, Tag};
use std::alloc::Global;

/// The row of a list for a row of a directory.
fn item_of(row: Row) -> NameItem
    ensures { result ≡ item_of row }
{
    NameItem {
        name: Name::from_vec(row.name.into_vec()),
        directory: match row.kind {
            Kind::File => false,
            Kind::Directory => true,
        },
    }
}

/// The rows of a list for the rows of directories, one after another.
fn items_of(alloc: Global, rows: RowList) -> Result<NameList, OutOfMemory>
    ensures { IfOk result (λ list. list ≡ map item_of rows) }
{
    let mut items = Vec::new(alloc);
    for row in rows.into_vec() {
        items.push(item_of(row))?;
    }
    Ok(NameList::from_vec(items))
}

/// The rows of a directory that the set has, as a list shows them, in byte order of their names:
/// those of the fileset at whatever path leads there.
pub fn list_rows<S: BitfileSet>(set: &S, alloc: Global, dir: Tag) -> Result<NameList, OutOfMemory>
    requires names { HasNames (S.files set.now) }
    requires live { IsDirectory (S.files set.now) dir }
    ensures { IfOk result (λ list. (slot : FilesetSlot) → Names (S.files set.now) slot
        → AreRowsOf (S.files set.now) slot dir list) }
{
    let rows = directory_rows::list_rows(set, alloc, dir)?;
    items_of(alloc, rows)
}

/// How many rows a directory has that the set has.
pub fn row_count<S: BitfileSet>(set: &S, dir: Tag) -> u32
    requires names { HasNames (S.files set.now) }
    requires live { IsDirectory (S.files set.now) dir }
    ensures { (slot : FilesetSlot) → Names (S.files set.now) slot
        → IsRowCount (S.files set.now) slot dir result }
{
    directory_rows::row_count(set, dir)
}
