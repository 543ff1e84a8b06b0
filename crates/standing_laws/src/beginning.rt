//! A fileset that begins.
ghost use Rattle.std.specs.Prelude.{◌≡◌, ◌≤◌, ℕ};
ghost use Rattle.std.specs.FinMap.{insert};
ghost use Rattle.domain_standing.specs.domain_base.declared.place.CellAt.{CellAt};
ghost use Rattle.domain_standing.specs.domain_base.declared.place.Home.{Home};
ghost use Rattle.domain_standing.specs.extent_maps.declared.run.PagePlace.TheVariants.{At};
ghost use Rattle.domain_standing.specs.fileset_files.Creation.{root_tag};
ghost use Rattle.domain_standing.specs.fileset_files.Files.{Chains};
ghost use Rattle.domain_standing.specs.fileset_model.Filesets.{FilesetMap};
ghost use Rattle.domain_standing.specs.fileset_table.declared.slot.FilesetEntry.{FilesetEntry};
ghost use Rattle.domain_standing.specs.release_list.Standing.{Files, place_in};
ghost use Rattle.domain_standing.specs.release_steps.Calls.{Makes, StandsWell};
ghost use Rattle.domain_standing.specs.domain_layout.Shape.{FilesetShape};
ghost use Rattle.domain_standing.specs.Chains.{IndexesAt};
ghost use Rattle.domain_standing.specs.Domain.{DomainNow};
ghost use Rattle.domain_standing.specs.Slots.{StandSlots};
ghost use Rattle.domain_standing.specs.Standing.{StandsDomain};
ghost use Rattle.standing_laws.specs.Leads.{StandsBelow, fileset_now};
ghost use Rattle.standing_laws.specs.NewFileset.{IsPlainRoot, JoinsEmpty, SetsNoLimit, empty_slot, no_chains};
ghost use Rattle.standing_laws.specs.Slots.{StandsSlot};

/// If an original whose tag directory is one new page joins the table, the domain still stands.
/// Calls on the original's tags may follow; none of them names a file yet.
pub fn an_empty_fileset_begins()
    ensures { (number : ℕ) (entry : FilesetEntry) (d now : DomainNow) (files : Files)
        (indexes : IndexesAt) → StandsBelow d files indexes → JoinsEmpty number entry d now
        → StandsBelow now files indexes
        × StandsWell number (fileset_now now number no_chains files) }
{}

/// A domain that an original has joined still stands once the original's root is made.
pub fn a_fileset_begins()
    ensures { (number : ℕ) (entry : FilesetEntry) (d joined now : DomainNow) (chains_now : Chains)
        (files files_now : Files) (indexes : IndexesAt) → StandsBelow d files indexes
        → JoinsEmpty number entry d joined
        → (makes : Makes number joined.frame.version root_tag
        (fileset_now joined number no_chains files) (fileset_now now number chains_now files_now))
        → makes.what.birth ≤ joined.table.made → now.frame ≡ joined.frame
        → now.table ≡ joined.table
        → ((other : ℕ) → ¬ other ≡ number → now.tags other ≡ joined.tags other)
        → StandsBelow now files_now indexes }
{}

/// If that root is a directory of user 0 and group 0 and the original sets no limits, it then
/// stands for the fileset with nothing but an empty root.
pub fn the_fileset_that_begins_is_empty()
    ensures { (number : ℕ) (entry : FilesetEntry) (d joined now : DomainNow) (chains_now : Chains)
        (files files_now : Files) (indexes : IndexesAt) → StandsBelow d files indexes
        → JoinsEmpty number entry d joined
        → (makes : Makes number joined.frame.version root_tag
        (fileset_now joined number no_chains files) (fileset_now now number chains_now files_now))
        → makes.what.birth ≤ joined.table.made → now.frame ≡ joined.frame
        → now.table ≡ joined.table
        → ((other : ℕ) → ¬ other ≡ number → now.tags other ≡ joined.tags other)
        → IsPlainRoot makes.what → SetsNoLimit entry
        → (shape : FilesetShape) × StandsSlot now number entry shape empty_slot }
{}

/// The domain then stands for that fileset beside all others, if pages of files keep their bytes
/// and, while the original joins the table, each unchanged page does.
pub fn filesets_stand_on_where_one_begins()
    ensures { (number : ℕ) (entry : FilesetEntry) (d joined now : DomainNow) (chains_now : Chains)
        (files files_now : Files) (indexes : IndexesAt) → StandsBelow d files indexes
        → JoinsEmpty number entry d joined
        → (makes : Makes number joined.frame.version root_tag
        (fileset_now joined number no_chains files) (fileset_now now number chains_now files_now))
        → makes.what.birth ≤ joined.table.made → now.frame ≡ joined.frame
        → now.table ≡ joined.table
        → ((other : ℕ) → ¬ other ≡ number → now.tags other ≡ joined.tags other)
        → IsPlainRoot makes.what → SetsNoLimit entry
        → ((home : Home) → joined.pages home ≡ d.pages home
        → joined.contents home ≡ d.contents home)
        → ((at : CellAt) (page : ℕ) (home : Home) → place_in files at page ≡ At home
        → joined.contents home ≡ now.contents home)
        → (all : FilesetMap) → StandSlots d all
        → StandSlots now (insert all entry.name empty_slot) }
{}

/// All together: a domain stands for its filesets beside the new one.
pub fn a_domain_stands_on_where_a_fileset_begins()
    ensures { (number : ℕ) (entry : FilesetEntry) (d joined now : DomainNow) (chains_now : Chains)
        (files_now : Files) (all : FilesetMap) → (stands : StandsDomain d all)
        → JoinsEmpty number entry d joined
        → (makes : Makes number joined.frame.version root_tag
        (fileset_now joined number no_chains stands.files)
        (fileset_now now number chains_now files_now))
        → makes.what.birth ≤ joined.table.made → now.frame ≡ joined.frame
        → now.table ≡ joined.table
        → ((other : ℕ) → ¬ other ≡ number → now.tags other ≡ joined.tags other)
        → IsPlainRoot makes.what → SetsNoLimit entry
        → ((home : Home) → joined.pages home ≡ d.pages home
        → joined.contents home ≡ d.contents home)
        → ((at : CellAt) (page : ℕ) (home : Home) → place_in stands.files at page ≡ At home
        → joined.contents home ≡ now.contents home)
        → StandsDomain now (insert all entry.name empty_slot) }
{}
