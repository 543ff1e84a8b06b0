//! What is asked of single cells.
ghost use Rattle.std.specs.Prelude.{ℕ};
ghost use Rattle.domain_standing.specs.domain_base.declared.place.Tag.{Tag};
ghost use Rattle.domain_standing.specs.fileset_files.Files.{Chains};
ghost use Rattle.domain_standing.specs.release_list.Standing.{Files};
ghost use Rattle.domain_standing.specs.Chains.{IndexesAt};
ghost use Rattle.domain_standing.specs.Domain.{DomainNow};
ghost use Rattle.domain_standing.specs.Rest.{SaysTheRest};
ghost use Rattle.standing_laws.specs.Leads.{LeadsOn, StandsBelow};

/// If a domain stands, its cells also say what is asked of them after a call on a file.
pub fn rest_stands_on()
    ensures { (number : ℕ) (tag : Tag) (d now : DomainNow) (chains chains_now : Chains)
        (files files_now : Files) (indexes : IndexesAt) → StandsBelow d files indexes
        → LeadsOn number tag d now chains chains_now files files_now → SaysTheRest now files_now }
{}
