//! Freeing pages that wait.
ghost use Rattle.standing_laws.specs.release_list.Standing.{Files};
ghost use Rattle.standing_laws.specs.fileset_model.Filesets.{FilesetMap};
ghost use Rattle.standing_laws.specs.domain_standing.Chains.{IndexesAt};
ghost use Rattle.standing_laws.specs.domain_standing.Domain.{DomainNow};
ghost use Rattle.standing_laws.specs.domain_standing.Slots.{StandSlots};
ghost use Rattle.standing_laws.specs.domain_standing.Standing.{IsMarkedBut};
ghost use Rattle.standing_laws.specs.Leads.{StandsBelow};
ghost use Rattle.release_laws.specs.Freed.{freed};

/// If a domain stands, it still stands once all pages that wait are free: they are held for
/// nothing.
pub fn all_below_stands_on_where_pages_come_free()
    ensures { (d : DomainNow) (files : Files) (indexes : IndexesAt) → StandsBelow d files indexes
        → StandsBelow (freed d) files indexes }
{}

/// A domain stands for the same filesets once all pages that wait are free.
pub fn filesets_stand_on_where_pages_come_free()
    ensures { (d : DomainNow) (files : Files) (indexes : IndexesAt) → StandsBelow d files indexes
        → (all : FilesetMap) → StandSlots d all → StandSlots (freed d) all }
{}

/// Bits of bitmaps still say which pages are used and do not wait.
pub fn bits_say_what_is_held_where_pages_come_free()
    ensures { (d : DomainNow) → IsMarkedBut d → IsMarkedBut (freed d) }
{}
