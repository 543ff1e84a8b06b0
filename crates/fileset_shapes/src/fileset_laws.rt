//! The shapes of all filesets.
ghost use Rattle.std.specs.Prelude.{List, Option};
ghost use Rattle.filesets_reading.specs.page_store.Pages.{Pages};
ghost use Rattle.filesets_reading.specs.fileset_table.Table.{IsTable, Table};
ghost use Rattle.filesets_reading.specs.domain_layout.Shape.{Shapes};
ghost use Rattle.fileset_shapes.specs.Shapes.{AreShapesSeen, SeesSlots};
ghost use Rattle.fileset_shapes.specs.declared.found.FilesetSeen.{FilesetSeen};

/// A table whose slots were all read has a shape for each of its filesets.
pub fn slots_have_shapes()
    ensures { (pages : Pages) (table : Table) (found : List (Option FilesetSeen)) → IsTable table
        → SeesSlots pages table found
        → (shapes : Shapes) × AreShapesSeen pages table found shapes }
{}
