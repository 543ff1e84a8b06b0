//! What follows from the definitions of this crate.
ghost use Rattle.std.specs.Prelude.{◌≡◌, ℕ, List};
ghost use Rattle.index_pages.specs.domain_base.declared.place.Tag.{Tag};
ghost use Rattle.index_pages.specs.page_store.Bitfiles.{AreBitfiles, Bitfiles};
ghost use Rattle.index_pages.specs.page_store.Pages.{AreWhole, Pages};
ghost use Rattle.index_pages.specs.tag_dirs.declared.dir.TagPlace.{TagPlace};
ghost use Rattle.index_pages.specs.free_cells.Cells.{Cells};
ghost use Rattle.index_pages.specs.free_space.Spaces.{Spaces};
ghost use Rattle.stored_set.specs.Elsewhere.{AllStay};
ghost use Rattle.stored_set.specs.Sets.{HasSet, StandsAsSet};

/// The pages of a fileset are shown as at most one set.
pub fn one_set_is_shown()
    ensures { (fileset : ℕ) (places : List TagPlace) (space other_space : Spaces)
        (cells other_cells : Cells) (pages : Pages) (one other : Bitfiles) (tag : Tag)
        → StandsAsSet fileset places space cells pages one
        → StandsAsSet fileset places other_space other_cells pages other → one tag ≡ other tag }
{}

/// Each file or directory that is shown is within its limits, each page of it and of its index has
/// all its bytes, and only a directory has any.
pub fn sets_are_sound()
    ensures { (fileset : ℕ) (places : List TagPlace) (space : Spaces) (cells : Cells)
        (pages : Pages) (files : Bitfiles) → AreWhole pages
        → StandsAsSet fileset places space cells pages files → AreBitfiles files }
{}

/// If it is known that the files of a fileset are shown as some set, that set is at hand. So a
/// value may keep the fact as a type with at most one proof.
pub fn shown_set_is_at_hand()
    ensures { (fileset : ℕ) (places : List TagPlace) (space : Spaces) (cells : Cells)
        (pages : Pages) → ∥ HasSet fileset places space cells pages ∥₁
        → HasSet fileset places space cells pages }
{}

/// The files of a fileset are shown as the same set if nothing of their own changes.
pub fn another_set_is_shown_still()
    ensures { (fileset : ℕ) (places : List TagPlace) (space space_now : Spaces)
        (cells cells_now : Cells) (old new : Pages) (files : Bitfiles)
        → (was : StandsAsSet fileset places space cells old files)
        → AllStay places space_now cells_now old new was.chains was.indexes
        → StandsAsSet fileset places space_now cells_now new files }
{}
