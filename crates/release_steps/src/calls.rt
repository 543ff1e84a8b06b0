//! What calls on one tag of a fileset leave as it was.
ghost use Rattle.std.specs.Prelude.{◌≡◌, ◌≤◌, ◌⊎◌, ◌↔◌, ℕ, List, Option, Some, Contains, false, true};
ghost use Rattle.std.specs.Option.{option_and_then};
ghost use Rattle.release_list.specs.domain_base.declared.place.CellAt.{CellAt};
ghost use Rattle.release_list.specs.metadata_cells.Chain.{PlacedCell};
ghost use Rattle.release_list.specs.domain_base.declared.place.Home.{Home};
ghost use Rattle.release_list.specs.domain_base.declared.place.Tag.{Tag};
ghost use Rattle.release_list.specs.domain_base.declared.version.Version.{Version};
ghost use Rattle.release_list.specs.page_store.Bitfiles.{same_tag};
ghost use Rattle.release_list.specs.tag_dirs.declared.dir.TagPlace.{TagPlace};
ghost use Rattle.release_list.specs.tag_dirs.Directory.{has_home};
ghost use Rattle.release_list.specs.free_cells.Cells.{table_of};
ghost use Rattle.release_list.specs.free_space.declared.waiting.Waiting.{Waiting};
ghost use Rattle.release_list.specs.fileset_files.Files.{Chains};
ghost use Rattle.release_list.specs.fileset_files.Together.{AreTogether};
ghost use Rattle.release_list.specs.declared.cursor.Cursor.{Cursor};
ghost use Rattle.release_list.specs.Cursors.{IsAhead, IsOfEntry};
ghost use Rattle.release_list.specs.Standing.{source_at};
ghost use Rattle.release_list.specs.Steps.{IsWell, Now};
ghost use Rattle.release_steps.specs.Ahead.{GoesOnIn};
ghost use Rattle.release_steps.specs.Beside.{AreApartOf, StandsBeside};
ghost use Rattle.release_steps.specs.Calls.{Calls, FilesetNow, StandsWell};
ghost use Rattle.release_steps.specs.Tags.{AreAmong, start_of};
ghost use Rattle.release_steps.specs.Taken.{HasHome, IsGiven, IsHeldAt, IsPutElsewhere, IsTaken};
ghost use Rattle.release_steps.specs.Waits.{Waits};

/// Every other tag has the chain that it had, if it had one, with all that its cells say: its
/// file's attributes, and where its pages stand.
pub fn other_tags_stay()
    ensures { (fileset : ℕ) (version : Version) (tag : Tag) (first last : FilesetNow)
        → Calls fileset version tag first last → (other : Tag) → same_tag other tag ≡ false
        → last.chains other ≡ first.chains other }
{}

/// The fileset's files belong together with their tag directory, free cells, free space and pages,
/// if they did before the calls. No call undoes this, whatever it answers.
pub fn files_stay_together()
    ensures { (fileset : ℕ) (version : Version) (tag : Tag) (first last : FilesetNow)
        → Calls fileset version tag first last
        → AreTogether fileset first.places first.domain.space first.domain.cells
        first.domain.pages first.chains
        → AreTogether fileset last.places last.domain.space last.domain.cells last.domain.pages
        last.chains }
{}

/// Before and after the calls what is left on the list may be let go: all files of the domain
/// belong together with free cells, free space and pages, the list is one of them, and the
/// fileset's files are among them. So steps may follow calls, and calls may follow steps.
pub fn all_stays_well_over_calls()
    ensures { (fileset : ℕ) (version : Version) (tag : Tag) (first last : FilesetNow)
        → Calls fileset version tag first last
        → AreTogether fileset first.places first.domain.space first.domain.cells
        first.domain.pages first.chains
        → IsWell first.domain → AreAmong first.domain first.places first.chains
        → IsWell last.domain × AreAmong last.domain last.places last.chains }
{}

/// Exactly these pages are held after the calls: those that were held before, those that were taken
/// for a page of the tag's file, and those of cells and of the tag directory. So no call gives a
/// page back: what a file lets go is let go by steps.
pub fn pages_are_held_exactly()
    ensures { (fileset : ℕ) (version : Version) (tag : Tag) (first last : FilesetNow)
        → Calls fileset version tag first last
        → AreTogether fileset first.places first.domain.space first.domain.cells
        first.domain.pages first.chains
        → (home : Home) → 1 ≤ home.vol
        → IsHeldAt last home
        ↔ (IsHeldAt first home ⊎ IsTaken fileset version tag first last home) }
{}

/// A page that is held after the calls and was not before, and is no page of cells or of the tag
/// directory, is then a page of a file, or a page of the tag's file stood there and was moved to
/// another home in one of the calls. That one is the caller's, to give back or to take along.
pub fn new_pages_are_of_files()
    ensures { (fileset : ℕ) (version : Version) (tag : Tag) (first last : FilesetNow)
        → Calls fileset version tag first last → StandsWell fileset first
        → (home : Home) → 1 ≤ home.vol → IsHeldAt last home → ¬ IsHeldAt first home
        → ¬ Contains (table_of last.domain.cells home.vol) home.page
        → ¬ has_home last.places home ≡ true → HasHome last.domain.files home
        ⊎ IsPutElsewhere fileset version tag first last home }
{}

/// A page that was taken for a page of the tag's file was not held before the calls.
pub fn given_pages_were_free()
    ensures { (fileset : ℕ) (version : Version) (tag : Tag) (first last : FilesetNow) (home : Home)
        → IsGiven fileset version tag first last home → ¬ IsHeldAt first home }
{}

/// Every file of the domain except the tag's has the chain that it had: those of other filesets, of
/// clones, and those that no tag names.
pub fn other_files_stay()
    ensures { (fileset : ℕ) (version : Version) (tag : Tag) (first last : FilesetNow)
        → Calls fileset version tag first last
        → AreTogether fileset first.places first.domain.space first.domain.cells
        first.domain.pages first.chains
        → IsWell first.domain → AreAmong first.domain first.places first.chains
        → (at : CellAt) (chain : List PlacedCell) → first.domain.files at ≡ Some chain
        → ¬ option_and_then start_of (first.chains tag) ≡ Some at
        → last.domain.files at ≡ Some chain }
{}

/// Each page that is no page of cells and none of the fileset's tag directory after the calls
/// stays: what files hold, indexes, and the tag pages of other filesets.
pub fn other_pages_stay()
    ensures { (fileset : ℕ) (version : Version) (tag : Tag) (first last : FilesetNow)
        → Calls fileset version tag first last
        → AreTogether fileset first.places first.domain.space first.domain.cells
        first.domain.pages first.chains
        → (home : Home) → ¬ Contains (table_of last.domain.cells home.vol) home.page
        → has_home last.places home ≡ false → last.domain.pages home ≡ first.domain.pages home }
{}

/// Another fileset of the domain has the same tags with the same files, which belong together with
/// its tag directory as they did. So calls on its files may follow. If a call puts a page at a home
/// that the caller held, that home must be none of that directory.
pub fn other_filesets_stay()
    ensures { (fileset : ℕ) (version : Version) (tag : Tag) (first last : FilesetNow)
        → (calls : Calls fileset version tag first last) → StandsWell fileset first
        → (other : ℕ) → ¬ other ≡ fileset → (places : List TagPlace) (chains : Chains)
        → StandsBeside other places chains first
        → AreApartOf fileset version tag places first last calls
        → StandsBeside other places chains last }
{}

/// Exactly those pages wait after the calls that waited before, with the same use and for the same
/// group.
pub fn what_waits_stays()
    ensures { (fileset : ℕ) (version : Version) (tag : Tag) (first last : FilesetNow)
        → Calls fileset version tag first last → (vol : ℕ) (page : Waiting)
        → Waits last.domain.space vol page ↔ Waits first.domain.space vol page }
{}

/// Each file is still read through the same file as before, and a file that was made is read
/// through none.
pub fn what_is_read_through_stays()
    ensures { (fileset : ℕ) (version : Version) (tag : Tag) (first last : FilesetNow)
        → Calls fileset version tag first last → StandsWell fileset first → (at : CellAt)
        → source_at last.domain.files at ≡ source_at first.domain.files at }
{}

/// If all belongs together, and the next step continues in the file of an entry, as it does after
/// each call that let something go, that file is one of the domain's.
pub fn steps_go_on_in_a_file_of_the_domain()
    ensures { (now : Now) → IsWell now → (cursor : Option Cursor) → IsAhead now.pages cursor
        → IsOfEntry now.list.entries cursor → GoesOnIn now cursor }
{}

/// The cell at which the next step continues is still a cell of its file's chain, if that file was
/// one of the domain's before the calls, and the file still is. So the steps after the calls may
/// continue where those before the calls stopped, and need not start over.
pub fn where_steps_go_on_stays()
    ensures { (fileset : ℕ) (version : Version) (tag : Tag) (first last : FilesetNow)
        → Calls fileset version tag first last → StandsWell fileset first
        → (cursor : Option Cursor) → GoesOnIn first.domain cursor → GoesOnIn last.domain cursor }
{}

/// No call changes the list.
pub fn the_list_stays()
    ensures { (fileset : ℕ) (version : Version) (tag : Tag) (first last : FilesetNow)
        → Calls fileset version tag first last → last.domain.list ≡ first.domain.list }
{}
