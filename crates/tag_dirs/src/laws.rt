//! Laws of tag directories.
ghost use Rattle.std.specs.Prelude.{◌≡◌, List};
ghost use Rattle.metadata_cells.specs.domain_base.declared.place.Home.{Home};
ghost use Rattle.metadata_cells.specs.page_store.Pages.{Pages};
ghost use Rattle.tag_dirs.specs.declared.dir.TagPlace.{TagPlace};
ghost use Rattle.tag_dirs.specs.Directory.{IsDirectoryAt};

/// The pages say which directory it is: if two lists of places begin with a page at the same home,
/// and both are a directory of these pages, they are equal.
pub fn one_directory()
    ensures { (pages : Pages) (first : Home) (a b : List TagPlace)
        → IsDirectoryAt pages first a → IsDirectoryAt pages first b → a ≡ b }
{}
