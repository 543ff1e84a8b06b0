//! What is asked of single cells.
ghost use Rattle.std.specs.Prelude.{ℕ};
ghost use Rattle.standing_laws.specs.release_list.Standing.{Files};
ghost use Rattle.standing_laws.specs.domain_standing.Chains.{IndexesAt};
ghost use Rattle.standing_laws.specs.domain_standing.Domain.{DomainNow};
ghost use Rattle.standing_laws.specs.domain_standing.Rest.{SaysTheRest};
ghost use Rattle.standing_laws.specs.domain_standing.Sources.{StandAlone};
ghost use Rattle.standing_laws.specs.Leads.{StandsBelow};
ghost use Rattle.release_laws.specs.Released.{Releases};

/// If a domain stands, its cells also say what is asked of them once things on its list were let go
/// of.
pub fn rest_stands_on_over_steps()
    ensures { (group count : ℕ) (d now : DomainNow) (files files_now : Files)
        (indexes : IndexesAt) → StandsBelow d files indexes → StandAlone d
        → Releases group count d now files files_now → SaysTheRest now files_now }
{}
