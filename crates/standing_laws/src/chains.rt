//! The chains of cells of a domain.
ghost use Rattle.std.specs.Prelude.{◌≡◌, ◌⊎◌, ℕ, List, Option, Some, IsSomeAnd, Contains};
ghost use Rattle.std.specs.Option.{option_and_then};
ghost use Rattle.domain_standing.specs.domain_base.declared.place.CellAt.{CellAt};
ghost use Rattle.domain_standing.specs.domain_base.declared.place.Home.{Home};
ghost use Rattle.domain_standing.specs.domain_base.declared.place.Tag.{Tag};
ghost use Rattle.domain_standing.specs.metadata_cells.Cell.{Cell};
ghost use Rattle.domain_standing.specs.metadata_cells.Chain.{PlacedCell};
ghost use Rattle.domain_standing.specs.fileset_files.Files.{Chains};
ghost use Rattle.domain_standing.specs.fileset_files.Shown.{index_of};
ghost use Rattle.domain_standing.specs.index_pages.Homes.{AreIndexHomes};
ghost use Rattle.domain_standing.specs.release_list.Listed.{IsEntry};
ghost use Rattle.domain_standing.specs.release_list.Listing.{Adds, Listing};
ghost use Rattle.domain_standing.specs.release_list.Standing.{Files};
ghost use Rattle.domain_standing.specs.release_steps.Tags.{start_of};
ghost use Rattle.domain_standing.specs.domain_layout.CellRules.{IsFirstPlace};
ghost use Rattle.domain_standing.specs.domain_layout.Layout.{first_tag_of};
ghost use Rattle.domain_standing.specs.domain_layout.Owners.{IsOnTable};
ghost use Rattle.domain_standing.specs.Chains.{AreQuotasOf, HasEmptyTags, IndexesAt, IsInChain, IsOnList, IsQuotaOf, IsQuotaToGo, IsSomebodys, IsToDo, StandChains, StandsInSlot};
ghost use Rattle.domain_standing.specs.Domain.{DomainNow, layout_of, named_by};
ghost use Rattle.standing_laws.specs.Leads.{LeadsOn, StandsBelow, fileset_now};
ghost use Rattle.standing_laws.specs.Left.{LeavesNothing};

/// If a domain stands, each cell in use is the first of its volume or one of a chain after a call
/// on a file.
pub fn cells_in_use_stay_in_chains()
    ensures { (number : ℕ) (tag : Tag) (d now : DomainNow) (chains chains_now : Chains)
        (files files_now : Files) (indexes : IndexesAt) → StandsBelow d files indexes
        → LeadsOn number tag d now chains chains_now files files_now
        → (at : CellAt) (cell : Cell) → IsOnTable now.pages (layout_of now) at cell
        → IsFirstPlace now.frame at ⊎ IsInChain files_now at }
{}

/// Each chain belongs to a file that a tag names, to a file that is to be removed, or is one of
/// quota cells.
pub fn chains_stay_somebodys()
    ensures { (number : ℕ) (tag : Tag) (d now : DomainNow) (chains chains_now : Chains)
        (files files_now : Files) (indexes : IndexesAt) → StandsBelow d files indexes
        → LeadsOn number tag d now chains chains_now files files_now
        → (at : CellAt) (chain : List PlacedCell) → files_now at ≡ Some chain
        → IsSomebodys now at chain }
{}

/// What an entry of the list has is still to be done, or is the quota cells of what is being
/// removed.
pub fn entries_stay_to_be_done()
    ensures { (number : ℕ) (tag : Tag) (d now : DomainNow) (chains chains_now : Chains)
        (files files_now : Files) (indexes : IndexesAt) → StandsBelow d files indexes
        → LeadsOn number tag d now chains chains_now files files_now
        → (at : CellAt) → IsOnList now at → IsToDo files_now at ⊎ IsQuotaToGo now at }
{}

/// The pages of tag directories on the list are still those of what is being removed.
pub fn listed_tag_pages_stay()
    ensures { (number : ℕ) (tag : Tag) (d now : DomainNow) (chains chains_now : Chains)
        (files files_now : Files) (indexes : IndexesAt) → StandsBelow d files indexes
        → LeadsOn number tag d now chains chains_now files files_now
        → (home : Home) → Contains now.list.tag_pages home → (n : ℕ) × HasEmptyTags now n }
{}

/// The index that a file names has the same pages, and a new file names none.
pub fn indexes_stay()
    ensures { (number : ℕ) (tag : Tag) (d now : DomainNow) (chains chains_now : Chains)
        (files files_now : Files) (indexes : IndexesAt) → StandsBelow d files indexes
        → LeadsOn number tag d now chains chains_now files files_now
        → (at : CellAt)
        → AreIndexHomes now.pages (option_and_then index_of (files_now at)) (indexes at) }
{}

/// The tag directory of each slot still stands: the files that its tags name are among the
/// domain's, or none of its tags leads to a cell and its pages are on the list.
pub fn slots_stand_on()
    ensures { (number : ℕ) (tag : Tag) (d now : DomainNow) (chains chains_now : Chains)
        (files files_now : Files) (indexes : IndexesAt) → StandsBelow d files indexes
        → LeadsOn number tag d now chains chains_now files files_now
        → (n : ℕ) → StandsInSlot now files_now n (named_by first_tag_of now n) }
{}

/// The quota cells that a slot names are a chain of its fileset, which says nothing about an owner
/// twice.
pub fn quota_cells_stand_on()
    ensures { (number : ℕ) (tag : Tag) (d now : DomainNow) (chains chains_now : Chains)
        (files files_now : Files) (indexes : IndexesAt) → StandsBelow d files indexes
        → LeadsOn number tag d now chains chains_now files files_now
        → (n : ℕ) (at : CellAt) → IsQuotaOf now n at
        → IsSomeAnd (files_now at) (AreQuotasOf now n at) }
{}

/// If a call leaves nothing of a file to be let go of, all chains of the domain still stand.
pub fn chains_stand_on()
    ensures { (number : ℕ) (tag : Tag) (d now : DomainNow) (chains chains_now : Chains)
        (files files_now : Files) (indexes : IndexesAt) → StandsBelow d files indexes
        → (leads : LeadsOn number tag d now chains chains_now files files_now)
        → LeavesNothing number d.frame.version tag (fileset_now d number chains files)
        (fileset_now now number chains_now files_now) leads.call
        → StandChains now files_now indexes }
{}

/// If the tag's file has something left to be let go of, the chains still stand once an entry of it
/// is put on the list. This is the case after a call that drops the file or makes pages of it
/// stale.
pub fn chains_stand_on_where_a_file_is_listed()
    ensures { (number : ℕ) (tag : Tag) (d now : DomainNow) (chains chains_now : Chains)
        (files files_now : Files) (indexes : IndexesAt) → StandsBelow d files indexes
        → LeadsOn number tag d now chains chains_now files files_now
        → (start : CellAt) (clone : Option CellAt) (listed : Listing)
        → option_and_then start_of (chains tag) ≡ Some start → IsToDo files_now start
        → IsEntry files_now (record { at = start; clone = clone })
        → Adds start clone now.list.entries listed.entries
        → listed.tag_pages ≡ now.list.tag_pages
        → StandChains (record now { list = listed }) files_now indexes }
{}
