//! What the pages of a domain are held for.
ghost use Rattle.std.specs.Prelude.{ℕ};
ghost use Rattle.standing_laws.specs.release_list.Standing.{Files};
ghost use Rattle.standing_laws.specs.domain_standing.Chains.{IndexesAt};
ghost use Rattle.standing_laws.specs.domain_standing.Domain.{DomainNow};
ghost use Rattle.standing_laws.specs.domain_standing.Holders.{HoldsOwned};
ghost use Rattle.standing_laws.specs.domain_standing.Sources.{StandAlone};
ghost use Rattle.standing_laws.specs.Leads.{StandsBelow};
ghost use Rattle.release_laws.specs.Released.{Releases};

/// If a domain stands, each page is held for only one thing once things on its list were let go of.
/// What was given up waits, and all pages that are held for nothing and do not wait are free.
pub fn held_pages_stand_on_over_steps()
    ensures { (group count : ℕ) (d now : DomainNow) (files files_now : Files)
        (indexes : IndexesAt) → StandsBelow d files indexes → StandAlone d
        → Releases group count d now files files_now → HoldsOwned now files_now indexes }
{}
