//! Pages that are written in place.
ghost use Rattle.domain_standing.specs.release_list.Standing.{Files};
ghost use Rattle.domain_standing.specs.fileset_model.Filesets.{FilesetMap};
ghost use Rattle.domain_standing.specs.Chains.{IndexesAt};
ghost use Rattle.domain_standing.specs.Domain.{DomainNow};
ghost use Rattle.domain_standing.specs.Slots.{StandSlots};
ghost use Rattle.domain_standing.specs.Standing.{HaveParents};
ghost use Rattle.standing_laws.specs.Leads.{StandsBelow};
ghost use Rattle.standing_laws.specs.OtherPages.{KeepsBytes, KeepsPages, KeepsPlaces, KeepsWhere};

/// All of a domain except its filesets still stands if only pages of files, pages of bitmaps and
/// pages that are held for nothing change: each page of the fileset table, of a table of cells, of
/// a tag directory and of an index is as it was.
pub fn all_stands_on_where_other_pages_change()
    ensures { (d now : DomainNow) (files : Files) (indexes : IndexesAt)
        → StandsBelow d files indexes → KeepsPlaces d now → KeepsWhere d now files indexes
        → StandsBelow now files indexes }
{}

/// Its filesets still stand if no page of a file changes either, and each page that is held for a
/// file has its bytes. This is the case if the bits of bitmaps change, and pages that are held for
/// nothing.
pub fn all_slots_stand_on_where_bits_change()
    ensures { (d now : DomainNow) (files : Files) (indexes : IndexesAt) (all : FilesetMap)
        → StandsBelow d files indexes → KeepsPlaces d now → KeepsPages d now files indexes
        → KeepsBytes d now files indexes → StandSlots d all → StandSlots now all }
{}

/// Each directory still says the one in which its row stands.
pub fn parents_stay_where_bits_change()
    ensures { (d now : DomainNow) (files : Files) (indexes : IndexesAt) (all : FilesetMap)
        → StandsBelow d files indexes → StandSlots d all → KeepsPlaces d now
        → KeepsPages d now files indexes → HaveParents d → HaveParents now }
{}
