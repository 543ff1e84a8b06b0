//! All of a domain that stands, except its filesets.
ghost use Rattle.std.specs.Prelude.{ℕ};
ghost use Rattle.standing_laws.specs.release_list.Standing.{Files};
ghost use Rattle.standing_laws.specs.domain_standing.Chains.{IndexesAt};
ghost use Rattle.standing_laws.specs.domain_standing.Domain.{DomainNow};
ghost use Rattle.standing_laws.specs.domain_standing.Sources.{StandAlone};
ghost use Rattle.standing_laws.specs.Leads.{StandsBelow};
ghost use Rattle.standing_laws.specs.Sound.{IsSound, StandsSound};
ghost use Rattle.release_laws.specs.Released.{QuotasStay, Releases};

/// All of a domain except its filesets still stands once things on its list were let go of, so the
/// next call may follow.
pub fn all_below_stands_on_over_steps()
    ensures { (group count : ℕ) (d now : DomainNow) (files files_now : Files)
        (indexes : IndexesAt) → StandsBelow d files indexes → StandAlone d
        → Releases group count d now files files_now → QuotasStay d files_now
        → StandsBelow now files_now indexes }
{}

/// No file starts to be read through another one.
pub fn files_stand_alone_over_steps()
    ensures { (group count : ℕ) (d now : DomainNow) (files files_now : Files)
        (indexes : IndexesAt) → StandsBelow d files indexes → StandAlone d
        → Releases group count d now files files_now → QuotasStay d files_now → StandAlone now }
{}

/// What the rules of pages ask besides stays true.
pub fn soundness_stays_over_steps()
    ensures stands { (group count : ℕ) (d now : DomainNow) (files files_now : Files)
        (indexes : IndexesAt) → StandsBelow d files indexes → StandAlone d
        → StandsSound d files indexes → Releases group count d now files files_now
        → StandsSound now files_now indexes }
    ensures is { (group count : ℕ) (d now : DomainNow) (files_now : Files)
        → (sound : IsSound d) → StandAlone d
        → Releases group count d now sound.files files_now → QuotasStay d files_now
        → IsSound now }
{}
