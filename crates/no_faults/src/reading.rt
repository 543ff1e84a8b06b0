//! A law: what is read from pages without a fault belongs together.
ghost use Rattle.domain_memory.specs.release_list.Standing.{Files};
ghost use Rattle.domain_memory.specs.domain_standing.Chains.{IndexesAt, StandChains};
ghost use Rattle.domain_memory.specs.domain_standing.Domain.{DomainNow};
ghost use Rattle.domain_memory.specs.domain_standing.Holders.{HoldsOwned};
ghost use Rattle.domain_memory.specs.domain_standing.Rest.{SaysTheRest};
ghost use Rattle.no_faults.specs.Attached.{IsReadFrom};

/// If no rule is broken, the checks that no rule makes are passed, too, and what is kept in memory
/// is as the pages say, then the chains of cells of a domain stand: those of files, also of files
/// that are to be removed and of what is being removed, and the quota cells of each slot, with the
/// pages of their indexes. Each page is held for only one thing or is free, and single cells say
/// what they may.
pub fn read_pages_stand()
    ensures { (d : DomainNow) → IsReadFrom d → (files : Files) × (indexes : IndexesAt)
        × StandChains d files indexes × HoldsOwned d files indexes × SaysTheRest d files }
{}
