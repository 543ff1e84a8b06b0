//! What steps leave as it was.
ghost use Rattle.std.specs.Prelude.{◌≡◌, ◌+◌, ◌*◌, ◌≤◌, ◌⊎◌, ◌↔◌, ℕ, List, [], Some, None, Contains, IsSome};
ghost use Rattle.release_list.specs.domain_base.declared.place.CellAt.{CellAt};
ghost use Rattle.release_list.specs.domain_base.declared.place.Home.{Home};
ghost use Rattle.release_list.specs.domain_base.declared.place.Tag.{Tag};
ghost use Rattle.release_list.specs.domain_base.declared.version.Version.{Version};
ghost use Rattle.release_list.specs.cell_records.declared.record.Leftover.TheVariants.{Trim};
ghost use Rattle.release_list.specs.metadata_cells.Chain.{PlacedCell};
ghost use Rattle.release_list.specs.page_store.Bitfiles.{Bitfile};
ghost use Rattle.release_list.specs.tag_dirs.declared.dir.TagPlace.{TagPlace};
ghost use Rattle.release_list.specs.tag_dirs.Directory.{IsDirectory};
ghost use Rattle.release_list.specs.free_cells.Cells.{table_of};
ghost use Rattle.release_list.specs.free_space.Spaces.{IsHeld};
ghost use Rattle.release_list.specs.file_chains.MapChanges.{ChangesAtMost};
ghost use Rattle.release_list.specs.fileset_files.Files.{Chains};
ghost use Rattle.release_list.specs.fileset_files.Shown.{ShowsFile};
ghost use Rattle.release_list.specs.declared.list.Entry.{Entry};
ghost use Rattle.release_list.specs.Listed.{GoesWhole, left_of};
ghost use Rattle.release_list.specs.Standing.{ReadsThrough, read_at};
ghost use Rattle.release_list.specs.Steps.{IsWell, Now, Steps};
ghost use Rattle.release_steps.specs.Kept.{HasNoEntry, IsBeside, KeepsAll, KeepsFront, KeepsOrIsTrimmed, SaysTheSame, Stays};
ghost use Rattle.release_steps.specs.Links.{IsLeft, LeadOn, homes_of};
ghost use Rattle.release_steps.specs.Shown.{StaysShown};
ghost use Rattle.release_steps.specs.Tags.{AreAmong, chains_in};
ghost use Rattle.release_steps.specs.ToDo.{left_to_do};
ghost use Rattle.release_steps.specs.Waits.{IsGivenUp};

/// A file that no entry is about, and that no entry gives as its clone's, has the same chain after
/// the steps.
pub fn others_stay()
    ensures { (group : ℕ) (version : Version) (first : Now) (count : ℕ) (last : Now)
        → Steps group version first count last → (at : CellAt) → IsBeside first.list at
        → last.files at ≡ first.files at }
{}

/// A file that is there is still there after the steps, if no entry is about it or each entry about
/// it only trims it. So is the clone's file that an entry gives, if no entry is about that file.
pub fn files_that_do_not_go_are_there()
    ensures { (group : ℕ) (version : Version) (first : Now) (count : ℕ) (last : Now)
        → IsWell first → Steps group version first count last
        → (at : CellAt) (chain : List PlacedCell) → first.files at ≡ Some chain
        → ((entry : Entry) → Contains first.list.entries entry → entry.at ≡ at
        → left_of chain ≡ Some Trim) → IsSome (last.files at) }
{}

/// A file that is trimmed, and that no entry gives as its clone's, is still there, and each page
/// before those that go stands where it stood.
pub fn trimmed_files_keep_their_front()
    ensures { (group : ℕ) (version : Version) (first : Now) (count : ℕ) (last : Now)
        → IsWell first → Steps group version first count last
        → (entry : Entry) → Contains first.list.entries entry
        → ((other : Entry) → Contains first.list.entries other → ¬ other.clone ≡ Some entry.at)
        → (chain : List PlacedCell) → first.files entry.at ≡ Some chain
        → left_of chain ≡ Some Trim → KeepsFront chain (last.files entry.at) }
{}

/// Each page of each file, except those that go, is read at the home at which it was read, or as
/// zeros as before. This also holds in clones, which read pages through the files that go.
pub fn pages_are_read_as_before()
    ensures { (group : ℕ) (version : Version) (first : Now) (count : ℕ) (last : Now)
        → IsWell first → Steps group version first count last
        → (at : CellAt) (page : ℕ) → Stays first at page
        → read_at last.files at page ≡ read_at first.files at page }
{}

/// A file that goes as a whole is gone once no entry is about it, and so once no file is on the
/// list.
pub fn removed_files_are_gone()
    ensures { (group : ℕ) (version : Version) (first : Now) (count : ℕ) (last : Now)
        → IsWell first → Steps group version first count last
        → (entry : Entry) → Contains first.list.entries entry → HasNoEntry last.list entry.at
        → (chain : List PlacedCell) → first.files entry.at ≡ Some chain
        → GoesWhole chain → last.files entry.at ≡ None }
{}

/// A file that was to be trimmed keeps all of 65,536 pages once no entry is about it, and nothing
/// of it is left to be let go. So it is once no file is on the list.
pub fn trimmed_files_keep_all()
    ensures { (group : ℕ) (version : Version) (first : Now) (count : ℕ) (last : Now)
        → IsWell first → Steps group version first count last
        → (entry : Entry) → Contains first.list.entries entry → HasNoEntry last.list entry.at
        → (chain : List PlacedCell) → first.files entry.at ≡ Some chain
        → left_of chain ≡ Some Trim → KeepsAll (last.files entry.at) }
{}

/// With each step less is left to be let go: of the cells and pages of the entries' files that go,
/// of the entries and their clones, and of the pages of tag directories. So there are no more steps
/// than that, and letting go until nothing is left ends.
pub fn each_step_leaves_less()
    ensures { (group : ℕ) (version : Version) (first : Now) (count : ℕ) (last : Now)
        → IsWell first → Steps group version first count last
        → count + left_to_do last ≤ left_to_do first }
{}

/// Each step changes at most five pages of metadata.
pub fn few_pages_change()
    ensures { (group : ℕ) (version : Version) (first : Now) (count : ℕ) (last : Now)
        → Steps group version first count last
        → ChangesAtMost (5 * count) first.pages last.pages }
{}

/// Exactly these pages are held after the steps: those that were held before and were not given up,
/// and those of cells. So apart from what files and the list let go, steps only take pages of
/// cells.
pub fn pages_are_held_exactly_over_steps()
    ensures { (group : ℕ) (version : Version) (first : Now) (count : ℕ) (last : Now)
        → IsWell first → Steps group version first count last → (home : Home) → 1 ≤ home.vol
        → IsHeld last.space home.vol home.page
        ↔ ((IsHeld first.space home.vol home.page × ¬ IsGivenUp first last home)
        ⊎ Contains (table_of last.cells home.vol) home.page) }
{}

/// A file that is there after the steps was there before, and its first cell said the same: its
/// attributes, when it was born, where it stands, where its index begins, and for a clone's file
/// how many pages were frozen. How many pages it keeps, through which file it reads, what is left
/// to be done with it, and where its pages stand may differ.
pub fn what_files_say_stays()
    ensures { (group : ℕ) (version : Version) (first : Now) (count : ℕ) (last : Now)
        → IsWell first → Steps group version first count last
        → (at : CellAt) (after : List PlacedCell) → last.files at ≡ Some after
        → (chain : List PlacedCell) × (first.files at ≡ Some chain) × SaysTheSame chain after }
{}

/// A file that is there after the steps keeps as many pages as it did before them, and the same is
/// left to be done with it; or it was to be trimmed by an entry, keeps all of 65,536 pages, and
/// nothing is left to be done with it.
pub fn what_is_left_to_do_stays()
    ensures { (group : ℕ) (version : Version) (first : Now) (count : ℕ) (last : Now)
        → IsWell first → Steps group version first count last
        → (at : CellAt) (after : List PlacedCell) → last.files at ≡ Some after
        → (chain : List PlacedCell) × (first.files at ≡ Some chain)
        × KeepsOrIsTrimmed first.list at chain after }
{}

/// A file that reads through another after the steps did before them.
pub fn nothing_more_is_read_through()
    ensures { (group : ℕ) (version : Version) (first : Now) (count : ℕ) (last : Now)
        → IsWell first → Steps group version first count last → (clone at : CellAt)
        → ReadsThrough last.files clone at → ReadsThrough first.files clone at }
{}

/// If each page of a tag directory that is on the list leads to the next one on it, or to none, it
/// also does after the steps. So no page leads to one that was given back.
pub fn listed_pages_lead_on()
    ensures { (group : ℕ) (version : Version) (first : Now) (count : ℕ) (last : Now)
        → IsWell first → Steps group version first count last
        → LeadOn first.pages first.list.tag_pages → LeadOn last.pages last.list.tag_pages }
{}

/// If the pages of a tag directory are on the list, in their chain's order, the first of them are
/// still on it after the steps, and what is left of the directory is a directory whose last page
/// leads to none.
pub fn listed_directories_stay_ones()
    ensures { (group : ℕ) (version : Version) (first : Now) (count : ℕ) (last : Now)
        → IsWell first → Steps group version first count last → (places : List TagPlace)
        → homes_of places ≡ first.list.tag_pages → IsDirectory first.pages places
        → IsLeft places last }
{}

/// A set of files shows the same of a tag's file after the steps. This holds for each file, and for
/// a directory that no entry is about, with its pages and those of its index, if these are held and
/// are none of cells, of a file or of the list.
pub fn what_is_shown_stays()
    ensures { (group : ℕ) (version : Version) (first : Now) (count : ℕ) (last : Now)
        → IsWell first → Steps group version first count last
        → (places : List TagPlace) (chains : Chains) → AreAmong first places chains
        → (tag : Tag) (cells : List PlacedCell) → chains tag ≡ Some cells
        → (after : List PlacedCell) → chains_in last.files chains tag ≡ Some after
        → (file : Bitfile) → StaysShown first cells file
        → ShowsFile first.pages cells file → ShowsFile last.pages after file }
{}
