//! Calls on files.
ghost use Rattle.std.specs.Prelude.{ℕ};
ghost use Rattle.domain_memory.specs.domain_base.declared.place.Tag.{Tag};
ghost use Rattle.domain_memory.specs.fileset_files.Files.{Chains};
ghost use Rattle.domain_memory.specs.release_list.Standing.{Files};
ghost use Rattle.domain_memory.specs.domain_standing.Chains.{IndexesAt};
ghost use Rattle.domain_memory.specs.domain_standing.Domain.{DomainNow};
ghost use Rattle.domain_memory.specs.standing_laws.Leads.{LeadsOn, StandsBelow};
ghost use Rattle.domain_memory.specs.standing_laws.Sound.{StandsSound};

/// A page that a file, a table of cells or a tag directory gets by a call on a file is a member's,
/// a cell that joins the file says one record of extents, and pages of indexes stay.
pub fn soundness_stays_after_a_call()
    ensures { (number : ℕ) (tag : Tag) (d now : DomainNow) (chains chains_now : Chains)
        (files files_now : Files) (indexes : IndexesAt) → StandsBelow d files indexes
        → StandsSound d files indexes
        → LeadsOn number tag d now chains chains_now files files_now
        → StandsSound now files_now indexes }
{}
