//! The fileset table, pages of cells, cells and tags.
ghost use Rattle.std.specs.Prelude.{ℕ};
ghost use Rattle.domain_memory.specs.domain_base.declared.place.Home.{Home};
ghost use Rattle.domain_memory.specs.fileset_model.Filesets.{FilesetMap};
ghost use Rattle.domain_memory.specs.domain_layout.CellRules.{IsCellsFault};
ghost use Rattle.domain_memory.specs.domain_layout.Faults.{IsTableFault};
ghost use Rattle.domain_memory.specs.domain_layout.TagRules.{IsTagsFault};
ghost use Rattle.domain_memory.specs.domain_standing.Domain.{DomainNow};
ghost use Rattle.domain_memory.specs.domain_standing.Standing.{StandsDomain};
ghost use Rattle.domain_memory.specs.domain_standing.Tables.{StandTables};
ghost use Rattle.domain_memory.specs.standing_laws.Sound.{StandsSound};

/// If a domain stands, the page of its fileset table says a table, and stands where it may.
pub fn no_table_fault()
    ensures { (d : DomainNow) (home : Home) → StandTables d
        → ¬ IsTableFault d.pages d.frame home }
{}

/// No rule of cells is broken.
pub fn no_cells_fault()
    ensures { (d : DomainNow) (all : FilesetMap) (stands : StandsDomain d all)
        → StandsSound d stands.files stands.indexes → (home : Home)
        → ¬ IsCellsFault d.pages d.frame d.table home }
{}

/// No rule of tags, of what they name, and of the slots of the fileset table is broken.
pub fn no_tags_fault()
    ensures { (d : DomainNow) (all : FilesetMap) (stands : StandsDomain d all)
        → StandsSound d stands.files stands.indexes → (home : Home)
        → ¬ IsTagsFault d.pages d.frame d.table home }
{}
