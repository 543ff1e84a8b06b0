//! The files of a domain that is known to stand.
ghost use Rattle.standing_laws.specs.release_list.Standing.{Files};
ghost use Rattle.standing_laws.specs.release_list.Steps.{IsWell};
ghost use Rattle.standing_laws.specs.domain_standing.Domain.{DomainNow, all_of};
ghost use Rattle.release_laws.specs.AtHand.{StandsWithSome};

/// If it is known that a domain stands, its files are at hand: each cell in use is one of theirs,
/// so that the pages say which they are.
pub fn files_are_at_hand()
    ensures { (d : DomainNow) → ∥ StandsWithSome d ∥₁ → (files : Files) × IsWell (all_of d files) }
{}
