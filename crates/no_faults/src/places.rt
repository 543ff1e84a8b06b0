//! Changes by which no cell and no page of an index changes.
ghost use Rattle.std.specs.Prelude.{◌≡◌, ℕ};
ghost use Rattle.domain_memory.specs.free_space.Spaces.{Spaces};
ghost use Rattle.domain_memory.specs.free_cells.Cells.{Cells, Holds, is_closed, is_free, kept_of, table_of};
ghost use Rattle.domain_memory.specs.fileset_model.declared.fileset.Limits.{Limits};
ghost use Rattle.domain_memory.specs.fileset_table.declared.slot.FilesetEntry.{FilesetEntry};
ghost use Rattle.domain_memory.specs.release_list.Listing.{Listing};
ghost use Rattle.domain_memory.specs.release_list.Standing.{Files};
ghost use Rattle.domain_memory.specs.domain_standing.Chains.{IndexesAt};
ghost use Rattle.domain_memory.specs.domain_standing.Domain.{DomainNow};
ghost use Rattle.domain_memory.specs.standing_laws.BoundedFileset.{BoundsFileset};
ghost use Rattle.domain_memory.specs.standing_laws.GoingFileset.{BeginsToGo};
ghost use Rattle.domain_memory.specs.standing_laws.Leads.{StandsBelow};
ghost use Rattle.domain_memory.specs.standing_laws.NewFileset.{JoinsEmpty};
ghost use Rattle.domain_memory.specs.standing_laws.OtherPages.{KeepsPlaces, KeepsWhere};
ghost use Rattle.domain_memory.specs.standing_laws.Sound.{StandsSound};

/// A domain stays sound if only pages of files, pages of bitmaps and pages that are held for
/// nothing change.
pub fn soundness_stays_where_other_pages_change()
    ensures { (d now : DomainNow) (files : Files) (indexes : IndexesAt)
        → StandsSound d files indexes → KeepsPlaces d now → KeepsWhere d now files indexes
        → StandsSound now files indexes }
{}

/// A domain stays sound if an original joins the table whose first tag page is a member's.
pub fn soundness_stays_where_a_fileset_begins()
    ensures { (number : ℕ) (entry : FilesetEntry) (d now : DomainNow) (files : Files)
        (indexes : IndexesAt) → StandsBelow d files indexes → StandsSound d files indexes
        → JoinsEmpty number entry d now → StandsSound now files indexes }
{}

/// A domain stays sound if the removal of an original begins.
pub fn soundness_stays_where_a_fileset_begins_to_go()
    ensures { (number : ℕ) (entry : FilesetEntry) (d now : DomainNow) (files : Files)
        (indexes : IndexesAt) → StandsBelow d files indexes → StandsSound d files indexes
        → BeginsToGo number entry d now → StandsSound now files indexes }
{}

/// A domain stays sound if the limits of a whole fileset are set.
pub fn soundness_stays_where_a_fileset_is_bounded()
    ensures { (number : ℕ) (entry : FilesetEntry) (limits : Limits) (d now : DomainNow)
        (files : Files) (indexes : IndexesAt) → StandsBelow d files indexes
        → StandsSound d files indexes → BoundsFileset number entry limits d now
        → StandsSound now files indexes }
{}

/// A domain stays sound if its free space and its free cells are kept as they are.
pub fn soundness_stays_where_a_domain_is_kept()
    ensures { (d : DomainNow) (files : Files) (indexes : IndexesAt) (space : Spaces)
        (cells : Cells) → StandsSound d files indexes
        → Holds (table_of d.cells) (is_closed d.cells) (is_free d.cells) (kept_of cells) cells
        → StandsSound (record d { space = space; cells = cells }) files indexes }
{}

/// A domain stays sound if the list of what is to be let go of changes, as after a call that drops
/// a file.
pub fn soundness_stays_where_the_list_changes()
    ensures { (d : DomainNow) (files : Files) (indexes : IndexesAt) (listed : Listing)
        → StandsSound d files indexes
        → StandsSound (record d { list = listed }) files indexes }
{}
