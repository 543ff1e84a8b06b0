//! The laws.
ghost use Rattle.std.specs.Prelude.{◌≡◌, ◌∷◌, ◌<◌, ◌≤◌, [], ℕ, List, Some, insert};
ghost use Rattle.index_pages.specs.domain_base.declared.place.Home.{Home};
ghost use Rattle.index_pages.specs.domain_base.declared.place.Tag.{Tag};
ghost use Rattle.index_pages.specs.page_store.Bitfiles.{Bitfile, Bitfiles, IsDirectory, count_pages, insert_index, kind_at, links_at, new_file as shown_new, page_at, put_index, put_page, shown_index, with_change, with_file, without_file};
ghost use Rattle.index_pages.specs.page_store.Pages.{Pages, with_page};
ghost use Rattle.index_pages.specs.tag_dirs.declared.dir.TagPlace.{TagPlace};
ghost use Rattle.index_pages.specs.extent_maps.declared.run.PagePlace.TheVariants.{At};
ghost use Rattle.index_pages.specs.free_cells.Cells.{Cells};
ghost use Rattle.index_pages.specs.free_space.VolumeSpace.{with_page as space_with};
ghost use Rattle.index_pages.specs.free_space.Spaces.{CanTake, Spaces, change_volume};
ghost use Rattle.index_pages.specs.fileset_files.declared.attributes.Attributes.{Attributes};
ghost use Rattle.index_pages.specs.domain_base.declared.version.Version.{Version};
ghost use Rattle.index_pages.specs.fileset_files.declared.new_cells.NewFile.{NewFile};
ghost use Rattle.index_pages.specs.fileset_files.Changes.{CanSay, ChangesBeside, ChangesFirst, IsLive, says_attributes, with_chain, with_first, without_chain};
ghost use Rattle.index_pages.specs.fileset_files.Creation.{Creates, LeavesBeside, TakesForFile, with_new};
ghost use Rattle.index_pages.specs.fileset_files.Files.{Chains, attributes_of, of_live, place_at};
ghost use Rattle.std.specs.Option.{option_and_then, option_map, option_map_or};
ghost use Rattle.index_pages.specs.metadata_cells.Chain.{PlacedCell};
ghost use Rattle.index_pages.specs.file_chains.MapChanges.{LeavesOffTables};
ghost use Rattle.index_pages.specs.fileset_files.declared.indexing.IndexPlace.{IndexPlace};
ghost use Rattle.index_pages.specs.fileset_files.Index.{says_index};
ghost use Rattle.index_pages.specs.fileset_files.Pages.{ChangesFile, TakesHome};
ghost use Rattle.index_pages.specs.fileset_files.Shown.{index_of, page_there};
ghost use Rattle.index_pages.specs.Homes.{shown_at};
ghost use Rattle.index_pages.specs.fileset_files.Together.{AreTogether};
ghost use Rattle.index_pages.specs.Changes.{DropsIndex, InsertsIndexPage, PutsIndexPage};
ghost use Rattle.stored_set.specs.Elsewhere.{AllStay};
ghost use Rattle.stored_set.specs.Standing.{AreTagsOnVolumes, Indexes, StandsShown, owned, with_index};

/// A set shows a directory's page changed, and nothing else, if other bytes stand at the page's
/// home.
pub fn page_is_written()
    ensures { (fileset : ℕ) (places : List TagPlace) (space : Spaces) (cells : Cells)
        (pages : Pages) (chains : Chains) (indexes : Indexes) (files : Bitfiles) (tag : Tag)
        (number : ℕ) (home : Home) (page : List ℕ)
        → StandsShown fileset places space cells pages chains indexes files
        → IsDirectory files tag → number < count_pages files tag
        → place_at chains tag number ≡ At home
        → StandsShown fileset places space cells (with_page home page pages) chains indexes
        (with_change tag (put_page number page) files) }
{}

/// A set shows another owner and other links of a file or directory whose attributes are set, and
/// nothing else.
pub fn attributes_are_set()
    ensures { (fileset : ℕ) (places : List TagPlace) (space : Spaces) (cells : Cells)
        (old new : Pages) (chains : Chains) (indexes : Indexes) (files : Bitfiles) (tag : Tag)
        (value : Attributes) → StandsShown fileset places space cells old chains indexes files
        → CanSay value tag chains → ChangesFirst (chains tag) old new
        → AreTogether fileset places space cells new
        (with_chain tag (with_first (says_attributes value)) chains)
        → StandsShown fileset places space cells new
        (with_chain tag (with_first (says_attributes value)) chains) indexes
        (with_change tag (owned value) files) }
{}

/// A set shows no file or directory at a tag that is taken out of use, and nothing else new.
pub fn tag_is_taken_out()
    ensures { (fileset : ℕ) (places : List TagPlace) (space : Spaces) (cells : Cells)
        (old new : Pages) (chains : Chains) (indexes : Indexes) (files : Bitfiles) (tag : Tag)
        → StandsShown fileset places space cells old chains indexes files → IsLive tag chains
        → ChangesBeside places (chains tag) old new
        → AreTogether fileset places space cells new (without_chain tag chains)
        → StandsShown fileset places space cells new (without_chain tag chains)
        (with_index tag [] indexes) (without_file tag files) }
{}

/// This also holds if the pages of its index, to which its tag then no longer leads, are given
/// back.
pub fn tag_is_taken_out_with_index()
    ensures { (fileset group : ℕ) (places : List TagPlace) (space space_now : Spaces)
        (cells : Cells) (old between new : Pages) (chains : Chains) (indexes : Indexes)
        (files : Bitfiles) (tag : Tag)
        → StandsShown fileset places space cells old chains indexes files
        → AreTagsOnVolumes places → IsLive tag chains
        → ChangesBeside places (chains tag) old between
        → AreTogether fileset places space cells between (without_chain tag chains)
        → DropsIndex group space space_now between new (indexes tag)
        → StandsShown fileset places space_now cells new (without_chain tag chains)
        (with_index tag [] indexes) (without_file tag files) }
{}

/// A set shows a file or directory that is made, with one link and no page, and nothing else new.
pub fn file_is_made()
    ensures { (fileset prefer : ℕ) (places places_now : List TagPlace) (space space_now : Spaces)
        (cells cells_now : Cells) (old new : Pages) (chains : Chains) (indexes : Indexes)
        (files : Bitfiles) (tag : Tag) (version : Version) (what : NewFile)
        → StandsShown fileset places space cells old chains indexes files
        → (creates : Creates fileset places_now tag version what chains space_now cells cells_now
        old new)
        → TakesForFile prefer places places_now space space_now cells cells_now old
        → LeavesBeside cells_now places_now old new
        → StandsShown fileset places_now space_now cells_now new
        (with_new tag (creates.first ∷ []) chains) indexes
        (with_file tag (shown_new what.kind what.uid what.gid) files) }
{}

/// A set shows a page of a directory's index changed, and nothing else new, if it is put in place
/// of another.
pub fn index_page_is_put()
    ensures { (fileset : ℕ) (places : List TagPlace) (space : Spaces) (cells : Cells)
        (old new : Pages) (chains : Chains) (indexes : Indexes) (files : Bitfiles) (tag : Tag)
        (number : ℕ) (page : List ℕ)
        → StandsShown fileset places space cells old chains indexes files
        → IsDirectory files tag
        → PutsIndexPage (option_and_then index_of (chains tag)) number page old new (indexes tag)
        → StandsShown fileset places space cells new chains indexes
        (with_change tag (put_index number (shown_index page)) files) }
{}

/// A set shows one more page of a directory, and nothing else new, if the directory is given a page
/// after its last one and these bytes are put there.
pub fn page_is_added()
    ensures { (fileset prefer : ℕ) (places : List TagPlace) (space space_now : Spaces)
        (cells cells_now : Cells) (old new : Pages) (chains : Chains) (indexes : Indexes)
        (files : Bitfiles) (tag : Tag) (number : ℕ) (home : Home) (page : List ℕ)
        (version : Version) (chain : List PlacedCell)
        → StandsShown fileset places space cells old chains indexes files
        → IsDirectory files tag → number ≡ count_pages files tag → chains tag ≡ Some chain
        → (changes : ChangesFile fileset places tag number (At home) version chains space_now cells
        cells_now old new chain)
        → TakesHome prefer number home chain space space_now cells cells_now old
        → LeavesOffTables cells_now old new
        → StandsShown fileset places space_now cells_now (with_page home page new)
        (with_chain tag (λ _. changes.change.changes.after) chains) indexes
        (with_change tag (put_page number page) files) }
{}

/// Files belong together if an index gets one more page, on a page that was free. So the first cell
/// of its directory can be made to tell where the index then begins.
pub fn index_page_joins()
    ensures { (fileset : ℕ) (places : List TagPlace) (space : Spaces) (cells : Cells)
        (old new : Pages) (chains : Chains) (indexes : Indexes) (files : Bitfiles) (tag : Tag)
        (number : ℕ) (page : List ℕ) (home : Home) (index : IndexPlace)
        → StandsShown fileset places space cells old chains indexes files
        → 1 ≤ home.vol → CanTake space home.vol home.page
        → InsertsIndexPage index.first home number page old new (indexes tag)
        → AreTogether fileset places (change_volume (space_with home.page) space home.vol) cells new
        chains }
{}

/// A set shows one more page of a directory's index, before the one with a number or after the
/// last, and nothing else new, if that page was inserted on a free page and the directory's first
/// cell then tells where the index begins.
pub fn index_page_is_inserted()
    ensures { (fileset : ℕ) (places : List TagPlace) (space : Spaces) (cells : Cells)
        (old between new : Pages) (chains : Chains) (indexes : Indexes) (files : Bitfiles)
        (tag : Tag) (number : ℕ) (page : List ℕ) (home : Home) (index : IndexPlace)
        → StandsShown fileset places space cells old chains indexes files
        → IsDirectory files tag → 1 ≤ home.vol → CanTake space home.vol home.page
        → InsertsIndexPage index.first home number page old between (indexes tag)
        → ChangesFirst (chains tag) between new
        → AreTogether fileset places (change_volume (space_with home.page) space home.vol) cells new
        (with_chain tag (with_first (says_index (Some index))) chains)
        → StandsShown fileset places (change_volume (space_with home.page) space home.vol) cells new
        (with_chain tag (with_first (says_index (Some index))) chains)
        (with_index tag (insert (indexes tag) number home) indexes)
        (with_change tag (insert_index number (shown_index page)) files) }
{}

/// A set shows one more page of a directory's index, before the one with a number or after the
/// last, and nothing else new, if the directory's first cell tells where the index begins before
/// that page is inserted.
pub fn index_page_is_linked()
    ensures { (fileset : ℕ) (places : List TagPlace) (space : Spaces) (cells : Cells)
        (old said new : Pages) (chains : Chains) (indexes : Indexes) (files : Bitfiles) (tag : Tag)
        (number : ℕ) (page : List ℕ) (home : Home) (index : IndexPlace)
        → StandsShown fileset places space cells old chains indexes files
        → IsDirectory files tag → 1 ≤ home.vol → CanTake space home.vol home.page
        → ChangesFirst (chains tag) old said
        → AreTogether fileset places (change_volume (space_with home.page) space home.vol) cells
        said (with_chain tag (with_first (says_index (Some index))) chains)
        → InsertsIndexPage index.first home number page said new (indexes tag)
        → StandsShown fileset places (change_volume (space_with home.page) space home.vol) cells new
        (with_chain tag (with_first (says_index (Some index))) chains)
        (with_index tag (insert (indexes tag) number home) indexes)
        (with_change tag (insert_index number (shown_index page)) files) }
{}

/// A set shows the same files after the number of entries of a directory's index is written again.
pub fn index_entries_are_said()
    ensures { (fileset : ℕ) (places : List TagPlace) (space : Spaces) (cells : Cells)
        (old new : Pages) (chains : Chains) (indexes : Indexes) (files : Bitfiles) (tag : Tag)
        (index : IndexPlace) → StandsShown fileset places space cells old chains indexes files
        → option_and_then index_of (chains tag) ≡ Some index.first
        → ChangesFirst (chains tag) old new
        → AreTogether fileset places space cells new
        (with_chain tag (with_first (says_index (Some index))) chains)
        → StandsShown fileset places space cells new
        (with_chain tag (with_first (says_index (Some index))) chains) indexes files }
{}

/// What calls tell of a tag's file is what a set shows of it: whether it is a file or a directory,
/// how many rows name it, and each page of a directory and of its index.
pub fn set_is_told()
    ensures kind { (fileset : ℕ) (places : List TagPlace) (space : Spaces) (cells : Cells)
        (pages : Pages) (chains : Chains) (indexes : Indexes) (files : Bitfiles) (tag : Tag)
        → StandsShown fileset places space cells pages chains indexes files
        → kind_at files tag ≡ option_map (λ (is : Attributes). is.kind)
        (option_and_then (of_live attributes_of) (chains tag)) }
    ensures links { (fileset : ℕ) (places : List TagPlace) (space : Spaces) (cells : Cells)
        (pages : Pages) (chains : Chains) (indexes : Indexes) (files : Bitfiles) (tag : Tag)
        → StandsShown fileset places space cells pages chains indexes files
        → links_at files tag ≡ option_map_or (λ (is : Attributes). is.links)
        (option_and_then (of_live attributes_of) (chains tag)) 0 }
    ensures page { (fileset : ℕ) (places : List TagPlace) (space : Spaces) (cells : Cells)
        (pages : Pages) (chains : Chains) (indexes : Indexes) (files : Bitfiles) (tag : Tag)
        (number : ℕ) → StandsShown fileset places space cells pages chains indexes files
        → IsDirectory files tag
        → page_at files tag number ≡ page_there pages (place_at chains tag number) }
    ensures index { (fileset : ℕ) (places : List TagPlace) (space : Spaces) (cells : Cells)
        (pages : Pages) (chains : Chains) (indexes : Indexes) (files : Bitfiles) (tag : Tag)
        → StandsShown fileset places space cells pages chains indexes files
        → IsDirectory files tag
        → option_map_or (λ (file : Bitfile). file.index) (files tag) []
        ≡ shown_at pages (indexes tag) }
{}

/// A set is shown as before if nothing of its own changes: no page of its tags, its files and its
/// indexes, and no cell of its files; and if these are used and stand on tables as before. This
/// holds for the set of a fileset when a call changes another one.
pub fn another_set_stays()
    ensures { (fileset : ℕ) (places : List TagPlace) (space space_now : Spaces)
        (cells cells_now : Cells) (old new : Pages) (chains : Chains) (indexes : Indexes)
        (files : Bitfiles) → StandsShown fileset places space cells old chains indexes files
        → AllStay places space_now cells_now old new chains indexes
        → StandsShown fileset places space_now cells_now new chains indexes files }
{}
