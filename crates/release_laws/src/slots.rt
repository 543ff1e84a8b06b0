//! The filesets of slots.
ghost use Rattle.std.specs.Prelude.{ℕ};
ghost use Rattle.standing_laws.specs.release_list.Standing.{Files};
ghost use Rattle.standing_laws.specs.fileset_model.Filesets.{FilesetMap};
ghost use Rattle.standing_laws.specs.domain_standing.Chains.{IndexesAt};
ghost use Rattle.standing_laws.specs.domain_standing.Domain.{DomainNow};
ghost use Rattle.standing_laws.specs.domain_standing.Slots.{StandSlots};
ghost use Rattle.standing_laws.specs.domain_standing.Sources.{StandAlone};
ghost use Rattle.standing_laws.specs.domain_standing.Standing.{HaveParents};
ghost use Rattle.standing_laws.specs.Leads.{StandsBelow};
ghost use Rattle.release_laws.specs.Released.{Releases};
ghost use Rattle.release_laws.specs.Trimmed.{TrimsFiles};

/// A domain stands for the same filesets once things on its list were let go of: what a file keeps
/// of its pages is what it kept, and has its bytes.
pub fn filesets_stand_over_steps()
    ensures { (group count : ℕ) (d now : DomainNow) (files files_now : Files)
        (indexes : IndexesAt) → StandsBelow d files indexes
        → StandsBelow now files_now indexes → StandAlone d
        → Releases group count d now files files_now → TrimsFiles d files → (all : FilesetMap)
        → StandSlots d all → StandSlots now all }
{}

/// Each directory still says the one in which its row stands.
pub fn parents_stay_over_steps()
    ensures { (group count : ℕ) (d now : DomainNow) (files files_now : Files)
        (indexes : IndexesAt) → StandsBelow d files indexes
        → StandsBelow now files_now indexes → StandAlone d
        → Releases group count d now files files_now → TrimsFiles d files → (all : FilesetMap)
        → StandSlots d all → HaveParents d → HaveParents now }
{}
