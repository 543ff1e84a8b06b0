//! What the rows of a fileset are if no rule of directories is broken.
ghost use Rattle.std.specs.Prelude.{List, Option, ℕ};
ghost use Rattle.fileset_shapes.specs.domain_base.declared.place.Home.{Home};
ghost use Rattle.fileset_shapes.specs.domain_base.declared.place.Tag.{Tag};
ghost use Rattle.fileset_shapes.specs.directory_pages.Index.{index_pages};
ghost use Rattle.fileset_shapes.specs.directory_rows.Directory.{IndexesRows, row_pages};
ghost use Rattle.fileset_shapes.specs.domain_layout.DirectoryRules.{IsDirectoryFault, IsIndexFault};
ghost use Rattle.fileset_shapes.specs.domain_layout.Reached.{Frame};
ghost use Rattle.fileset_shapes.specs.domain_layout.Seen.{SeenFile};
ghost use Rattle.fileset_shapes.specs.name_space.Rows.{AreFilesetRows};
ghost use Rattle.fileset_shapes.specs.fileset_table.Table.{Table};
ghost use Rattle.fileset_shapes.specs.page_store.Bitfiles.{Bitfiles};
ghost use Rattle.fileset_shapes.specs.page_store.Pages.{Pages};
ghost use Rattle.filesets_filled.specs.Showing.{HasEachPage, HaveTheirIndexes, ListsDirectories, ShowsFileset, ShowsIndex};

/// If no rule of directories is broken, the rows of what is in a slot are those of a fileset: each
/// directory is well formed, one row leads to it and as many to a file as it has links, and all are
/// below the root.
pub fn rows_are_a_filesets()
    ensures { (pages : Pages) (frame : Frame) (table : Table) (number : ℕ)
        (files : Tag → Option SeenFile) (shown : Bitfiles) (dirs : List Tag)
        → ((home : Home) → ¬ IsDirectoryFault pages frame table home)
        → ShowsFileset pages frame table number files shown → ListsDirectories shown dirs
        → HaveTheirIndexes shown → AreFilesetRows shown }
{}

/// If no rule of directories and of indexes is broken, an index of a directory of an original is
/// that of its rows.
pub fn index_is_of_rows()
    ensures { (pages : Pages) (frame : Frame) (table : Table) (number : ℕ)
        (files : Tag → Option SeenFile) (shown : Bitfiles) (dir : Tag)
        → ((home : Home) → ¬ IsDirectoryFault pages frame table home)
        → ((home : Home) → ¬ IsIndexFault pages frame table home)
        → HasEachPage pages frame table → ShowsFileset pages frame table number files shown
        → ShowsIndex pages frame table number dir (index_pages shown dir)
        → IndexesRows (row_pages shown dir) (index_pages shown dir) }
{}
