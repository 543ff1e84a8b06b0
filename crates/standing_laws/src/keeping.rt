//! What a domain's free space and free cells were when they were last kept.
ghost use Rattle.std.specs.Prelude.{◌≡◌, ℕ};
ghost use Rattle.domain_standing.specs.domain_base.declared.place.CellAt.{CellAt};
ghost use Rattle.domain_standing.specs.free_space.Spaces.{Spaces, change_volumes};
ghost use Rattle.domain_standing.specs.free_space.VolumeSpace.{keeping};
ghost use Rattle.domain_standing.specs.free_cells.Cells.{Cells, Holds, is_closed, is_free, kept_of, table_of};
ghost use Rattle.domain_standing.specs.fileset_model.Filesets.{FilesetMap};
ghost use Rattle.domain_standing.specs.Domain.{DomainNow};
ghost use Rattle.domain_standing.specs.Standing.{StandsDomain};

/// A domain that stands still stands once its free space and its free cells are kept as they are.
pub fn a_domain_that_is_kept_stands()
    ensures { (d : DomainNow) (all : FilesetMap) (cells : Cells) → StandsDomain d all
        → Holds (table_of d.cells) (is_closed d.cells) (is_free d.cells) (kept_of cells) cells
        → StandsDomain (record d { space = change_volumes keeping d.space; cells = cells }) all }
{}
