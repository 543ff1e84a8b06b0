//! Files and directories that are taken away.
ghost use Rattle.std.specs.Prelude.{◌≡◌, ℕ, None};
ghost use Rattle.standing_laws.specs.domain_base.declared.place.CellAt.{CellAt};
ghost use Rattle.standing_laws.specs.domain_base.declared.place.Tag.{Tag};
ghost use Rattle.standing_laws.specs.fileset_files.Changes.{KeepsSequences, Removes, without_chain};
ghost use Rattle.standing_laws.specs.fileset_files.Together.{AreTogether};
ghost use Rattle.standing_laws.specs.stored_set.Sets.{GivesIndexBack, without_index};
ghost use Rattle.standing_laws.specs.release_list.Listing.{Adds, Listing};
ghost use Rattle.standing_laws.specs.release_list.Standing.{Files, source_at};
ghost use Rattle.standing_laws.specs.fileset_model.Filesets.{FilesetMap};
ghost use Rattle.standing_laws.specs.free_space.Spaces.{Spaces};
ghost use Rattle.standing_laws.specs.domain_standing.Chains.{HasFilesAmong, IndexesAt, IsRemoved};
ghost use Rattle.standing_laws.specs.domain_standing.Domain.{DomainNow, item_in};
ghost use Rattle.standing_laws.specs.IndexCalls.{KeepsTables};
ghost use Rattle.standing_laws.specs.Leads.{StandsBelow};
ghost use Rattle.standing_laws.specs.Sound.{IsSound, StandsSound};
ghost use Rattle.standing_laws.specs.domain_standing.Sources.{StandAlone};
ghost use Rattle.standing_laws.specs.domain_standing.Standing.{HaveParents, IsMarkedBut, StandsDomain};
ghost use Rattle.set_standing.specs.Around.{BytesFollow, GoesOnAround, GoesOnAtSlot, StandsAround, StandsAtSlot};

/// The domain around the slot still stands if a file or directory is taken away with its index,
/// once it is put on the list. No clone is given its file, since no file of the domain is read
/// through another.
pub fn all_stands_around_a_file_that_is_taken_away()
    ensures { (number : ℕ) (tag : Tag) (start : CellAt) (group : ℕ) (d now : DomainNow)
        → (around : StandsAround number d) → KeepsTables d now → BytesFollow d now
        → AreTogether number (d.tags number) now.space d.cells now.pages
        (without_chain tag around.chains)
        → Removes number (d.tags number) tag start (without_index tag around.chains) now.pages
        → GivesIndexBack group (d.tags number) (around.chains tag) (around.indexes start) d.space
        now.space d.pages now.pages → KeepsSequences (d.tags number) d.pages now.pages
        → (listed : Listing)
        → Adds start None d.list.entries listed.entries → listed.tag_pages ≡ d.list.tag_pages
        → GoesOnAround None number d (record now { list = listed }) }
{}

/// The files that the tags of any slot name, be it an original's or of what is being removed,
/// belong together with its tag directory, if the domain is as the rules of pages ask.
pub fn files_of_any_slot_belong_together()
    ensures { (number : ℕ) (d : DomainNow) (files : Files) (indexes : IndexesAt)
        → StandsBelow d files indexes → StandsSound d files indexes
        → ((at : CellAt) → source_at files at ≡ None) → HasFilesAmong d files number
        → StandsAtSlot number d }
{}

/// If a file or directory of what is in any slot is taken away, all goes on around it.
pub fn all_goes_on_where_a_file_of_any_slot_is_taken_away()
    ensures { (number : ℕ) (tag : Tag) (start : CellAt) (group : ℕ) (d now : DomainNow)
        → (at : StandsAtSlot number d) → KeepsTables d now → BytesFollow d now
        → AreTogether number (d.tags number) now.space d.cells now.pages
        (without_chain tag at.chains)
        → Removes number (d.tags number) tag start (without_index tag at.chains) now.pages
        → GivesIndexBack group (d.tags number) (at.chains tag) (at.indexes start) d.space
        now.space d.pages now.pages → KeepsSequences (d.tags number) d.pages now.pages
        → (listed : Listing)
        → Adds start None d.list.entries listed.entries → listed.tag_pages ≡ d.list.tag_pages
        → GoesOnAtSlot None number d (record now { list = listed }) at }
{}

/// If a file or directory is taken from what is being removed, the domain stands for the same
/// filesets, and is as the rules of pages ask if it was before.
pub fn filesets_stay_where_a_file_of_what_is_removed_goes()
    ensures stands { (number : ℕ) (d now : DomainNow) (at : StandsAtSlot number d)
        → IsRemoved (item_in d number) → GoesOnAtSlot None number d now at
        → (all : FilesetMap) → StandsDomain d all → StandsDomain now all }
    ensures alone { (number : ℕ) (d now : DomainNow) (at : StandsAtSlot number d)
        → GoesOnAtSlot None number d now at → StandAlone now }
    ensures sound { (number : ℕ) (d now : DomainNow) (at : StandsAtSlot number d)
        → GoesOnAtSlot None number d now at → StandsSound d at.files at.indexes → IsSound now }
    ensures marked { (number : ℕ) (d now : DomainNow) (at : StandsAtSlot number d)
        → GoesOnAtSlot None number d now at → (space : Spaces)
        → IsMarkedBut (record d { space = space }) → IsMarkedBut (record now { space = space }) }
    ensures parents { (number : ℕ) (d now : DomainNow) (at : StandsAtSlot number d)
        → IsRemoved (item_in d number) → GoesOnAtSlot None number d now at
        → (all : FilesetMap) → StandsDomain d all → HaveParents d → HaveParents now }
{}
