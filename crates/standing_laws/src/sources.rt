//! Files that are read through other ones.
ghost use Rattle.std.specs.Prelude.{◌≡◌, ◌↔◌, None};
ghost use Rattle.domain_standing.specs.domain_base.declared.place.CellAt.{CellAt};
ghost use Rattle.domain_standing.specs.release_list.Standing.{Files, source_at};
ghost use Rattle.domain_standing.specs.Chains.{IndexesAt};
ghost use Rattle.domain_standing.specs.Domain.{DomainNow};
ghost use Rattle.domain_standing.specs.Sources.{StandAlone};
ghost use Rattle.standing_laws.specs.Leads.{StandsBelow};

/// If a domain stands, no file is read through another one if and only if none of the first cells
/// of its chains says that it is.
pub fn files_stand_alone()
    ensures { (d : DomainNow) (files : Files) (indexes : IndexesAt) → StandsBelow d files indexes
        → StandAlone d ↔ ((at : CellAt) → source_at files at ≡ None) }
{}
