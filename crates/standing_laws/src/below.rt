//! All of a domain that stands, except its filesets.
ghost use Rattle.std.specs.Option.{option_and_then};
ghost use Rattle.std.specs.Prelude.{◌≡◌, ℕ, Option, Some};
ghost use Rattle.domain_standing.specs.domain_base.declared.place.CellAt.{CellAt};
ghost use Rattle.domain_standing.specs.domain_base.declared.place.Tag.{Tag};
ghost use Rattle.domain_standing.specs.fileset_model.Filesets.{FilesetMap};
ghost use Rattle.domain_standing.specs.fileset_files.Files.{Chains};
ghost use Rattle.domain_standing.specs.release_list.Listed.{IsEntry};
ghost use Rattle.domain_standing.specs.release_list.Listing.{Adds, Listing};
ghost use Rattle.domain_standing.specs.release_list.Standing.{Files};
ghost use Rattle.domain_standing.specs.release_steps.Tags.{start_of};
ghost use Rattle.domain_standing.specs.Chains.{IndexesAt, IsToDo};
ghost use Rattle.domain_standing.specs.Domain.{DomainNow};
ghost use Rattle.domain_standing.specs.Slots.{StandSlots};
ghost use Rattle.standing_laws.specs.Leads.{LeadsOn, StandsBelow, fileset_now};
ghost use Rattle.standing_laws.specs.Left.{LeavesNothing};

/// All of a domain except its filesets still stands after a call that leaves nothing of its file to
/// be let go of, so the next call may follow.
pub fn all_below_stands_on()
    ensures { (number : ℕ) (tag : Tag) (d now : DomainNow) (chains chains_now : Chains)
        (files files_now : Files) (indexes : IndexesAt) → StandsBelow d files indexes
        → (leads : LeadsOn number tag d now chains chains_now files files_now)
        → LeavesNothing number d.frame.version tag (fileset_now d number chains files)
        (fileset_now now number chains_now files_now) leads.call
        → StandsBelow now files_now indexes }
{}

/// If the call leaves something, all of the domain except its filesets still stands once an entry
/// of the file is put on the list.
pub fn all_below_stands_on_where_a_file_is_listed()
    ensures { (number : ℕ) (tag : Tag) (d now : DomainNow) (chains chains_now : Chains)
        (files files_now : Files) (indexes : IndexesAt) → StandsBelow d files indexes
        → LeadsOn number tag d now chains chains_now files files_now
        → (start : CellAt) (clone : Option CellAt) (listed : Listing)
        → option_and_then start_of (chains tag) ≡ Some start → IsToDo files_now start
        → IsEntry files_now (record { at = start; clone = clone })
        → Adds start clone now.list.entries listed.entries
        → listed.tag_pages ≡ now.list.tag_pages
        → StandsBelow (record now { list = listed }) files_now indexes }
{}

/// The filesets for which a domain stands are the same whatever is on its list.
pub fn filesets_stay_where_a_file_is_listed()
    ensures { (d : DomainNow) (listed : Listing) (all : FilesetMap) → StandSlots d all
        → StandSlots (record d { list = listed }) all }
{}
