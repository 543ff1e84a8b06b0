//! Laws of what the rules of pages say about tables, parents and bits.
ghost use Rattle.std.specs.Prelude.{◌≡◌, Some};
ghost use Rattle.domain_memory.specs.domain_base.declared.place.Home.{Home};
ghost use Rattle.domain_memory.specs.log_recovery.Range.{IsLogInside};
ghost use Rattle.domain_memory.specs.domain_standing.Marks.{HasBitmaps, IsMarked};
ghost use Rattle.domain_memory.specs.domain_standing.Space.{AreCellsOf, AreFew};
ghost use Rattle.domain_memory.specs.domain_layout.Faults.{HasNoFault};
ghost use Rattle.domain_memory.specs.domain_layout.Layout.{IsLayout};
ghost use Rattle.domain_memory.specs.domain_layout.Reached.{IsWithin};
ghost use Rattle.domain_memory.specs.domain_standing.Domain.{DomainNow, layout_of};
ghost use Rattle.domain_memory.specs.domain_standing.Standing.{HaveParents, IsMarkedBut};
ghost use Rattle.domain_memory.specs.domain_standing.Tables.{StandTables};

/// If no rule is broken, the log lies within its volume, no volume is too large, and the page of
/// the fileset table is a member's, then the tables of a domain stand, with the free cells that the
/// pages say.
pub fn read_tables_stand()
    ensures { (d : DomainNow) → IsLayout d.pages (layout_of d) → HasNoFault d.pages d.frame
        → IsLogInside d.frame.version d.frame.anchor → AreFew (layout_of d)
        → ((home : Home) → d.frame.anchor.table ≡ Some home → IsWithin d.frame home)
        → AreCellsOf d.pages (layout_of d) d.cells → StandTables d }
{}

/// If no rule is broken, each directory says the one in which its row stands.
pub fn read_parents_are_right()
    ensures { (d : DomainNow) → IsLayout d.pages (layout_of d) → HasNoFault d.pages d.frame
        → HaveParents d }
{}

/// If no rule is broken, and free space is as the bits of bitmaps say it, then a bit is 1 if and
/// only if its page is used, or lies outside the volume.
pub fn read_bits_are_right()
    ensures { (d : DomainNow) → IsLayout d.pages (layout_of d) → HasNoFault d.pages d.frame
        → AreFew (layout_of d) → HasBitmaps d.pages d.frame → IsMarked d.pages d.frame d.space
        → IsMarkedBut d }
{}
