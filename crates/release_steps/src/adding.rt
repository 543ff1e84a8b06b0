//! Putting something on the list leaves all as it was.
ghost use Rattle.std.specs.Prelude.{◌≡◌, ◌++◌, ◌∷◌, [], ℕ, List, Option, Some, false};
ghost use Rattle.std.specs.Option.{option_and_then};
ghost use Rattle.release_list.specs.domain_base.declared.place.CellAt.{CellAt};
ghost use Rattle.release_list.specs.domain_base.declared.place.Home.{Home};
ghost use Rattle.release_list.specs.domain_base.declared.place.Tag.{Tag};
ghost use Rattle.release_list.specs.cell_records.declared.record.Leftover.TheVariants.{Remove, Trim};
ghost use Rattle.release_list.specs.page_store.Pages.{Pages};
ghost use Rattle.release_list.specs.tag_dirs.declared.dir.TagPlace.{TagPlace};
ghost use Rattle.release_list.specs.tag_dirs.Directory.{IsDirectory, has_home};
ghost use Rattle.release_list.specs.fileset_files.Files.{Chains};
ghost use Rattle.release_list.specs.fileset_files.Truncation.{says_truncated};
ghost use Rattle.release_list.specs.Listed.{IsEntry, left_of};
ghost use Rattle.release_list.specs.Listing.{Adds, Listing};
ghost use Rattle.release_list.specs.Steps.{IsWell, Now};
ghost use Rattle.release_steps.specs.Calls.{Drops, FilesetNow, SetsFirst};
ghost use Rattle.release_steps.specs.Links.{LeadOn, homes_of};
ghost use Rattle.release_steps.specs.Lists.{with_list};
ghost use Rattle.release_steps.specs.Tags.{AreAmong, start_of};
ghost use Rattle.release_steps.specs.Waits.{StandsApart};

/// A file that is put on the list, or whose clone is set anew there, may then be let go with all
/// else on the list. The file must be there and say what goes of it, and the clone must be the one
/// whose file reads through it.
pub fn all_stays_well_where_a_file_is_listed()
    ensures { (first : Now) (at : CellAt) (clone : Option CellAt) (list : Listing)
        → IsWell first → IsEntry first.files (record { at = at; clone = clone })
        → Adds at clone first.list.entries list.entries
        → list.tag_pages ≡ first.list.tag_pages → IsWell (with_list list first) }
{}

/// A page of a tag directory that may be put on the list may then also be let go with all else on
/// it.
pub fn all_stays_well_where_a_page_is_listed()
    ensures { (first : Now) (home : Home) (list : Listing) → IsWell first → StandsApart first home
        → list.tag_pages ≡ first.list.tag_pages ++ home ∷ []
        → list.entries ≡ first.list.entries → IsWell (with_list list first) }
{}

/// If the pages of a tag directory are listed in their chain's order, each leads to the next one on
/// the list, and the last to none, as all others on it do.
pub fn a_directory_is_listed_in_order()
    ensures { (pages : Pages) (homes : List Home) (places : List TagPlace)
        → IsDirectory pages places → LeadOn pages homes
        → LeadOn pages (homes ++ homes_of places) }
{}

/// The files of a fileset are still among the domain's after a file is listed, if the listed file,
/// when a tag names it, is to be trimmed.
pub fn tags_stay_among_where_a_file_is_listed()
    ensures { (first : Now) (list : Listing) (places : List TagPlace) (chains : Chains)
        → AreAmong first places chains → (at : CellAt) (clone : Option CellAt)
        → Adds at clone first.list.entries list.entries
        → list.tag_pages ≡ first.list.tag_pages
        → ((tag : Tag) → option_and_then start_of (chains tag) ≡ Some at → option_and_then
        left_of (chains tag) ≡ Some Trim)
        → AreAmong (with_list list first) places chains }
{}

/// They also are after a page of a tag directory is listed that is not the fileset's.
pub fn tags_stay_among_where_a_page_is_listed()
    ensures { (first : Now) (list : Listing) (places : List TagPlace) (chains : Chains)
        → AreAmong first places chains → (home : Home)
        → list.tag_pages ≡ first.list.tag_pages ++ home ∷ []
        → list.entries ≡ first.list.entries → has_home places home ≡ false
        → AreAmong (with_list list first) places chains }
{}

/// A file whose tag was taken out of use says that it is to be removed.
pub fn dropped_files_are_to_be_removed()
    ensures { (fileset : ℕ) (tag : Tag) (old new : FilesetNow) → (drops : Drops fileset tag old new)
        → option_and_then left_of (new.domain.files drops.at) ≡ Some Remove }
{}

/// A file that was made shorter, and keeps fewer pages, says that stale ones are to be let go.
pub fn cut_files_are_to_be_trimmed()
    ensures { (fileset : ℕ) (tag : Tag) (size keep : ℕ) (old new : FilesetNow)
        → (cuts : SetsFirst fileset tag (says_truncated size (Some keep)) old new)
        → option_and_then left_of (new.domain.files cuts.first.at) ≡ Some Trim }
{}
