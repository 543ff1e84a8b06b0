//! Bits of bitmaps, and what was kept of free space.
ghost use Rattle.std.specs.Prelude.{◌≡◌, ℕ};
ghost use Rattle.standing_laws.specs.release_list.Standing.{Files};
ghost use Rattle.standing_laws.specs.domain_standing.Chains.{IndexesAt};
ghost use Rattle.standing_laws.specs.domain_standing.Domain.{DomainNow};
ghost use Rattle.standing_laws.specs.domain_standing.Sources.{StandAlone};
ghost use Rattle.standing_laws.specs.domain_standing.Standing.{IsMarkedBut};
ghost use Rattle.standing_laws.specs.free_space.Spaces.{Spaces, kept_spaces};
ghost use Rattle.standing_laws.specs.Leads.{StandsBelow};
ghost use Rattle.release_laws.specs.Released.{Releases};

/// Once things on the list of a domain were let go of, bitmaps say the same of free space.
pub fn bits_stay_over_steps()
    ensures { (group count : ℕ) (d now : DomainNow) (files files_now : Files)
        (indexes : IndexesAt) → StandsBelow d files indexes
        → StandsBelow now files_now indexes → Releases group count d now files files_now
        → (space : Spaces) → IsMarkedBut (record d { space = space })
        → IsMarkedBut (record now { space = space }) }
{}

/// What was kept of free space is what it was.
pub fn kept_space_stays_over_steps()
    ensures { (group count : ℕ) (d now : DomainNow) (files files_now : Files)
        (indexes : IndexesAt) → StandsBelow d files indexes → StandAlone d
        → Releases group count d now files files_now
        → kept_spaces now.space ≡ kept_spaces d.space }
{}
