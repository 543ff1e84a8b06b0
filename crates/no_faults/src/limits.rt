//! Limits of owners.
ghost use Rattle.std.specs.Prelude.{ℕ};
ghost use Rattle.domain_memory.specs.release_list.Standing.{Files};
ghost use Rattle.domain_memory.specs.domain_standing.Chains.{IndexesAt};
ghost use Rattle.domain_memory.specs.domain_standing.Domain.{DomainNow};
ghost use Rattle.domain_memory.specs.standing_laws.Leads.{StandsBelow};
ghost use Rattle.domain_memory.specs.standing_laws.SetsQuota.{SetsQuota};
ghost use Rattle.domain_memory.specs.standing_laws.Sound.{StandsSound};

/// A domain stays sound if an owner's limits are set: a page that a table of cells gets is a
/// member's, and only quota cells change.
pub fn soundness_stays_where_limits_are_set()
    ensures { (number : ℕ) (d now : DomainNow) (files files_now : Files) (indexes : IndexesAt)
        → StandsBelow d files indexes → StandsSound d files indexes
        → SetsQuota number d now files files_now → StandsSound now files_now indexes }
{}
