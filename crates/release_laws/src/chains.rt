//! The chains of cells of a domain.
ghost use Rattle.std.specs.Prelude.{ℕ};
ghost use Rattle.standing_laws.specs.release_list.Standing.{Files};
ghost use Rattle.standing_laws.specs.domain_standing.Chains.{IndexesAt, StandChains};
ghost use Rattle.standing_laws.specs.domain_standing.Domain.{DomainNow};
ghost use Rattle.standing_laws.specs.domain_standing.Sources.{StandAlone};
ghost use Rattle.standing_laws.specs.Leads.{StandsBelow};
ghost use Rattle.release_laws.specs.Released.{QuotasStay, Releases};

/// If a domain stands, its chains still stand once things on its list were let go of, if some of
/// the quota cells that a slot names stay. Each cell in use is one of the chains' or a volume's
/// first, each chain is somebody's, exactly what is left to be done is on the list, and indexes
/// stand where they stood.
pub fn chains_stand_on_over_steps()
    ensures { (group count : ℕ) (d now : DomainNow) (files files_now : Files)
        (indexes : IndexesAt) → StandsBelow d files indexes → StandAlone d
        → Releases group count d now files files_now → QuotasStay d files_now
        → StandChains now files_now indexes }
{}
