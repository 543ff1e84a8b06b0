//! What the pages of a domain are held for.
ghost use Rattle.std.specs.Prelude.{ℕ};
ghost use Rattle.domain_standing.specs.domain_base.declared.place.Tag.{Tag};
ghost use Rattle.domain_standing.specs.fileset_files.Files.{Chains};
ghost use Rattle.domain_standing.specs.release_list.Standing.{Files};
ghost use Rattle.domain_standing.specs.Chains.{IndexesAt};
ghost use Rattle.domain_standing.specs.Domain.{DomainNow};
ghost use Rattle.domain_standing.specs.Holders.{HoldsOwned};
ghost use Rattle.standing_laws.specs.Leads.{LeadsOn, StandsBelow};

/// If a domain stands, each page is held for one thing alone after a call on a file, and all that
/// are held for nothing and do not wait are free.
pub fn held_pages_stand_on()
    ensures { (number : ℕ) (tag : Tag) (d now : DomainNow) (chains chains_now : Chains)
        (files files_now : Files) (indexes : IndexesAt) → StandsBelow d files indexes
        → LeadsOn number tag d now chains chains_now files files_now
        → HoldsOwned now files_now indexes }
{}
