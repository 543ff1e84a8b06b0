//! The laws.
ghost use Rattle.std.specs.Prelude.{◌≡◌, ℕ, List, Option, Some, None, IsSomeAnd};
ghost use Rattle.std.specs.Option.{option_and_then, option_map};
ghost use Rattle.file_chains.specs.domain_base.declared.place.CellAt.{CellAt};
ghost use Rattle.file_chains.specs.domain_base.declared.place.Tag.{Tag};
ghost use Rattle.file_chains.specs.domain_base.declared.version.Version.{Version};
ghost use Rattle.file_chains.specs.page_store.Pages.{Pages};
ghost use Rattle.tag_dirs.specs.declared.dir.TagPlace.{TagPlace};
ghost use Rattle.file_chains.specs.extent_maps.declared.run.PagePlace.{PagePlace};
ghost use Rattle.file_chains.specs.free_cells.Cells.{Cells};
ghost use Rattle.file_chains.specs.free_space.Spaces.{Spaces};
ghost use Rattle.fileset_files.specs.declared.attributes.Attributes.{Attributes};
ghost use Rattle.fileset_files.specs.declared.indexing.IndexPlace.{IndexPlace};
ghost use Rattle.fileset_files.specs.declared.new_cells.NewFile.{NewFile};
ghost use Rattle.fileset_files.specs.declared.striping.Stripe.{Stripe};
ghost use Rattle.fileset_files.specs.Changes.{Removes, says_attributes, says_parent, with_chain, with_first, without_chain};
ghost use Rattle.fileset_files.specs.Creation.{Creates};
ghost use Rattle.fileset_files.specs.Files.{AreFiles, Chains, attributes_of, keep_of, of_live, place_at};
ghost use Rattle.fileset_files.specs.Index.{index_place_of, says_index};
ghost use Rattle.fileset_files.specs.Pages.{ChangesFile};
ghost use Rattle.fileset_files.specs.State.{FileState, States, with_changed, with_state, without_state};
ghost use Rattle.fileset_files.specs.Stripes.{says_stripe};
ghost use Rattle.fileset_files.specs.Together.{AreTogether};
ghost use Rattle.fileset_files.specs.Truncation.{TruncatesTogether};
ghost use Rattle.fileset_files.specs.States.{CutsFile, HaveStates, StandsAlone, described, indexed, live_at, new_state, place_in, placed, put_in, to_remove};

/// If a file or directory is made, its tag named nothing before and now names the new one. Each
/// other tag names what it named.
pub fn one_file_is_made()
    ensures fresh { (fileset : ℕ) (places places_now : List TagPlace) (space space_now : Spaces)
        (cells cells_now : Cells) (old new : Pages) (tag : Tag) (version : Version)
        (what : NewFile) (states : States) → HaveStates fileset places space cells old states
        → ((chains : Chains) → AreTogether fileset places space cells old chains
        → Creates fileset places_now tag version what chains space_now cells cells_now old new)
        → states tag ≡ None }
    ensures now { (fileset : ℕ) (places places_now : List TagPlace) (space space_now : Spaces)
        (cells cells_now : Cells) (old new : Pages) (tag : Tag) (version : Version)
        (what : NewFile) (states : States) → HaveStates fileset places space cells old states
        → ((chains : Chains) → AreTogether fileset places space cells old chains
        → Creates fileset places_now tag version what chains space_now cells cells_now old new)
        → HaveStates fileset places_now space_now cells_now new
        (with_state tag (new_state what tag) states) }
{}

/// If a page of a tag's file is given a home, or another home, that file has the page there, and
/// all else as it was. Each other tag names what it named.
pub fn one_page_is_placed()
    ensures { (fileset : ℕ) (places : List TagPlace) (space space_now : Spaces)
        (cells cells_now : Cells) (old new : Pages) (tag : Tag) (page : ℕ) (place : PagePlace)
        (version : Version) (states : States)
        → HaveStates fileset places space cells old states
        → ((chains : Chains) → AreTogether fileset places space cells old chains
        → IsSomeAnd (chains tag) (ChangesFile fileset places tag page place version chains
        space_now cells cells_now old new))
        → HaveStates fileset places space_now cells_now new
        (with_changed tag (placed page place) states) }
{}

/// If a tag's file is cut, it has that size, keeps fewer pages and waits for a trim if there are
/// stale ones, and has all else as it was. Each other tag names what it named.
pub fn one_file_is_cut()
    ensures { (fileset : ℕ) (places : List TagPlace) (space : Spaces) (cells : Cells)
        (old new : Pages) (tag : Tag) (size : ℕ) (states : States)
        → HaveStates fileset places space cells old states
        → ((chains : Chains) → AreTogether fileset places space cells old chains
        → TruncatesTogether fileset places tag size space cells chains new)
        → CutsFile fileset places space cells tag size states new }
{}

/// If a tag is taken out of use, it names nothing, and each other tag names what it named. Its file
/// stands alone, as it was except that it is to be removed.
pub fn one_file_is_removed()
    ensures now { (fileset : ℕ) (places : List TagPlace) (space : Spaces) (cells : Cells)
        (old new : Pages) (tag : Tag) (states : States)
        → HaveStates fileset places space cells old states
        → ((chains : Chains) → AreTogether fileset places space cells old chains
        → AreTogether fileset places space cells new (without_chain tag chains))
        → HaveStates fileset places space cells new (without_state tag states) }
    ensures alone { (fileset : ℕ) (places : List TagPlace) (space : Spaces) (cells : Cells)
        (old new : Pages) (tag : Tag) (at : CellAt) (states : States) (state : FileState)
        → HaveStates fileset places space cells old states
        → ((chains : Chains) → AreFiles fileset places old chains
        → Removes fileset places tag at chains new)
        → states tag ≡ Some state → StandsAlone new at (to_remove state) }
{}

/// If the attributes of a tag's file are set anew, it has those attributes, and all else as it was.
/// Each other tag names what it named.
pub fn one_file_is_described()
    ensures { (fileset : ℕ) (places : List TagPlace) (space : Spaces) (cells : Cells)
        (old new : Pages) (tag : Tag) (value : Attributes) (states : States)
        → HaveStates fileset places space cells old states
        → ((chains : Chains) → AreTogether fileset places space cells old chains
        → AreTogether fileset places space cells new
        (with_chain tag (with_first (says_attributes value)) chains))
        → HaveStates fileset places space cells new
        (with_changed tag (described value) states) }
{}

/// If a tag's directory is put into another one, it stands there, and has all else as it was. Each
/// other tag names what it named.
pub fn one_parent_is_set()
    ensures { (fileset : ℕ) (places : List TagPlace) (space : Spaces) (cells : Cells)
        (old new : Pages) (tag parent : Tag) (states : States)
        → HaveStates fileset places space cells old states
        → ((chains : Chains) → AreTogether fileset places space cells old chains
        → AreTogether fileset places space cells new
        (with_chain tag (with_first (says_parent parent)) chains))
        → HaveStates fileset places space cells new
        (with_changed tag (put_in parent) states) }
{}

/// If it is set where the index of a tag's directory begins, or that it has none, the directory has
/// that, and all else as it was. Each other tag names what it named.
pub fn one_index_is_set()
    ensures { (fileset : ℕ) (places : List TagPlace) (space : Spaces) (cells : Cells)
        (old new : Pages) (tag : Tag) (index : Option IndexPlace) (states : States)
        → HaveStates fileset places space cells old states
        → ((chains : Chains) → AreTogether fileset places space cells old chains
        → AreTogether fileset places space cells new
        (with_chain tag (with_first (says_index index)) chains))
        → HaveStates fileset places space cells new
        (with_changed tag (indexed index) states) }
{}

/// If the stripe of a tag's file is set, each tag names what it named: the map says nothing of
/// stripes.
pub fn one_stripe_is_set()
    ensures { (fileset : ℕ) (places : List TagPlace) (space : Spaces) (cells : Cells)
        (old new : Pages) (tag : Tag) (stripe : Stripe) (states : States)
        → HaveStates fileset places space cells old states
        → ((chains : Chains) → AreTogether fileset places space cells old chains
        → AreTogether fileset places space cells new
        (with_chain tag (with_first (says_stripe stripe)) chains))
        → HaveStates fileset places space cells new states }
{}

/// What calls tell of a tag's file is what the map of files says: its attributes, how many pages it
/// keeps, where its index begins and where each page stands. The first three are told only of a
/// file that is not to be removed.
pub fn files_are_told()
    ensures attributes { (fileset : ℕ) (places : List TagPlace) (space : Spaces) (cells : Cells)
        (pages : Pages) (tag : Tag) (states : States) (told : Option Attributes)
        → HaveStates fileset places space cells pages states
        → ((chains : Chains) → AreFiles fileset places pages chains
        → told ≡ option_and_then (of_live attributes_of) (chains tag))
        → told ≡ option_map (λ (state : FileState). state.attributes) (live_at states tag) }
    ensures keep { (fileset : ℕ) (places : List TagPlace) (space : Spaces) (cells : Cells)
        (pages : Pages) (tag : Tag) (states : States) (told : Option ℕ)
        → HaveStates fileset places space cells pages states
        → ((chains : Chains) → AreFiles fileset places pages chains
        → told ≡ option_and_then (of_live keep_of) (chains tag))
        → told ≡ option_map (λ (state : FileState). state.keep) (live_at states tag) }
    ensures index { (fileset : ℕ) (places : List TagPlace) (space : Spaces) (cells : Cells)
        (pages : Pages) (tag : Tag) (states : States) (told : Option IndexPlace)
        → HaveStates fileset places space cells pages states
        → ((chains : Chains) → AreFiles fileset places pages chains
        → told ≡ option_and_then (of_live index_place_of) (chains tag))
        → told ≡ option_and_then (λ (state : FileState). state.index) (live_at states tag) }
    ensures home { (fileset : ℕ) (places : List TagPlace) (space : Spaces) (cells : Cells)
        (pages : Pages) (tag : Tag) (page : ℕ) (states : States) (told : PagePlace)
        → HaveStates fileset places space cells pages states
        → ((chains : Chains) → AreFiles fileset places pages chains
        → told ≡ place_at chains tag page)
        → told ≡ place_in states tag page }
{}

/// The pages of a fileset have at most one map of files.
pub fn files_are_one_map()
    ensures { (fileset : ℕ) (places : List TagPlace) (space other_space : Spaces)
        (cells other_cells : Cells) (pages : Pages) (states others : States)
        → HaveStates fileset places space cells pages states
        → HaveStates fileset places other_space other_cells pages others → states ≡ others }
{}
