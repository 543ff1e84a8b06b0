//! What belongs together before steps also does after them.
ghost use Rattle.std.specs.Prelude.{◌≡◌, ℕ, List, Some, false};
ghost use Rattle.std.specs.Option.{option_and_then};
ghost use Rattle.release_list.specs.domain_base.declared.place.CellAt.{CellAt};
ghost use Rattle.release_list.specs.domain_base.declared.place.Tag.{Tag};
ghost use Rattle.release_list.specs.domain_base.declared.version.Version.{Version};
ghost use Rattle.release_list.specs.tag_dirs.declared.dir.TagPlace.{TagPlace};
ghost use Rattle.release_list.specs.page_store.Bitfiles.{same_tag};
ghost use Rattle.release_list.specs.page_store.Pages.{Pages};
ghost use Rattle.release_list.specs.free_cells.Cells.{Cells};
ghost use Rattle.release_list.specs.free_space.Spaces.{Spaces};
ghost use Rattle.release_list.specs.fileset_files.Files.{Chains};
ghost use Rattle.release_list.specs.fileset_files.Together.{AreTogether};
ghost use Rattle.release_list.specs.Steps.{IsWell, Now, Steps};
ghost use Rattle.release_steps.specs.Kept.{IsBeside};
ghost use Rattle.release_steps.specs.Tags.{AreAmong, chains_in, start_of};

/// All files of the domain, free cells, free space and pages belong together, and what is left on
/// the list is of these files.
pub fn all_stays_well()
    ensures { (group : ℕ) (version : Version) (first : Now) (count : ℕ) (last : Now)
        → IsWell first → Steps group version first count last → IsWell last }
{}

/// The files that the tags of a fileset name belong together with their tag directory, if they are
/// among the domain's files and none of them is to be removed. Each is the file that begins where
/// it began. So each call on the fileset's files may come after any number of steps.
pub fn tags_stay_together()
    ensures { (group : ℕ) (version : Version) (first : Now) (count : ℕ) (last : Now)
        → IsWell first → Steps group version first count last
        → (fileset : ℕ) (places : List TagPlace) (chains : Chains)
        → AreTogether fileset places first.space first.cells first.pages chains
        → AreAmong first places chains
        → AreTogether fileset places last.space last.cells last.pages
        (chains_in last.files chains)
        × AreAmong last places (chains_in last.files chains) }
{}

/// A tag's file keeps the chain that it had, if no entry is about it and none gives it as its
/// clone's.
pub fn tags_beside_the_list_stay()
    ensures { (group : ℕ) (version : Version) (first : Now) (count : ℕ) (last : Now)
        → Steps group version first count last → (places : List TagPlace) (chains : Chains)
        → AreAmong first places chains → (tag : Tag) → ((at : CellAt)
        → option_and_then start_of (chains tag) ≡ Some at → IsBeside first.list at)
        → chains_in last.files chains tag ≡ chains tag }
{}

/// The files of two tags begin at two cells.
pub fn files_of_tags_begin_apart()
    ensures { (fileset : ℕ) (places : List TagPlace) (space : Spaces) (cells : Cells)
        (pages : Pages) (chains : Chains) → AreTogether fileset places space cells pages chains
        → (one other : Tag) → same_tag one other ≡ false → (at : CellAt)
        → option_and_then start_of (chains one) ≡ Some at
        → ¬ option_and_then start_of (chains other) ≡ Some at }
{}
