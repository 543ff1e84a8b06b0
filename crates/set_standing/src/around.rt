//! One change after another.
ghost use Rattle.std.specs.Prelude.{None, ℕ};
ghost use Rattle.standing_laws.specs.fileset_model.declared.fileset.FilesetSlot.{FilesetSlot};
ghost use Rattle.standing_laws.specs.fileset_table.declared.slot.FilesetEntry.{FilesetEntry};
ghost use Rattle.standing_laws.specs.domain_layout.Shape.{FilesetShape};
ghost use Rattle.standing_laws.specs.domain_standing.Domain.{DomainNow};
ghost use Rattle.standing_laws.specs.Slots.{StandsSlot};
ghost use Rattle.standing_laws.specs.Sound.{IsSound};
ghost use Rattle.set_standing.specs.Around.{GoesOnAround, StandsAround};
ghost use Rattle.set_standing.specs.Follow.{Said};

/// If nothing is changed, the domain around a slot still stands.
pub fn all_stays_around()
    ensures { (number : ℕ) (d : DomainNow) → StandsAround number d → GoesOnAround None number d d }
{}

/// The domain around a slot still stands after two changes, if it does after each. If the first
/// says nothing of directories, both together say of one what the second says of it.
pub fn changes_around_join()
    ensures { (said : Said) (number : ℕ) (d between now : DomainNow)
        → GoesOnAround None number d between → GoesOnAround said number between now
        → GoesOnAround said number d now }
{}

/// If the original in the slot stands for a fileset, the domain around it is wholly as the rules of
/// pages ask: all that was left out is that pages of its own files' indexes are well formed.
pub fn a_domain_around_a_fileset_is_sound()
    ensures { (number : ℕ) (d : DomainNow) → StandsAround number d → (entry : FilesetEntry)
        (shape : FilesetShape) (fileset : FilesetSlot) → StandsSlot d number entry shape fileset
        → IsSound d }
{}
