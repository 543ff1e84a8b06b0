//! What follows from the definitions of this crate.
ghost use Rattle.std.specs.Prelude.{◌∷◌, ℕ, [], List, None};
ghost use Rattle.file_chains.specs.domain_base.declared.place.Home.{Home};
ghost use Rattle.file_chains.specs.page_store.Pages.{Pages};
ghost use Rattle.tag_dirs.specs.declared.dir.TagPlace.{TagPlace};
ghost use Rattle.tag_dirs.specs.Directory.{AddsPage};
ghost use Rattle.fileset_files.specs.Creation.{IsNewDirectory};
ghost use Rattle.fileset_files.specs.Files.{AreFiles};
ghost use Rattle.fileset_files.specs.Shown.{ShowOnce};

/// The files of a fileset show at most one set of files and directories.
pub fn files_show_once()
    ensures { ShowOnce }
{}

/// A tag directory of one new page leads to no file.
pub fn a_new_directory_names_none()
    ensures { (fileset : ℕ) (pages : Pages) (places : List TagPlace)
        → IsNewDirectory pages places → AreFiles fileset places pages (λ tag. None) }
{}

/// The first page that is added to a tag directory makes it a new one.
pub fn a_first_page_is_new()
    ensures { (home : Home) (old new : Pages)
        → AddsPage (record { index = 0; home = home }) [] old new
        → IsNewDirectory new (record { index = 0; home = home } ∷ []) }
{}
