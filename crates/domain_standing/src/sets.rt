//! Originals as sets of files and directories.
ghost use Rattle.std.specs.Prelude.{◌≡◌, ℕ, Some, slice_get};
ghost use Rattle.fileset_shapes.specs.page_store.Pages.{Pages};
ghost use Rattle.fileset_shapes.specs.free_cells.Cells.{Cells};
ghost use Rattle.fileset_shapes.specs.free_space.Spaces.{Spaces};
ghost use Rattle.fileset_shapes.specs.log_recovery.Range.{IsLogInside};
ghost use Rattle.stored_set.specs.Sets.{StandsAsSet};
ghost use Rattle.fileset_shapes.specs.fileset_table.declared.slot.FilesetEntry.{FilesetEntry};
ghost use Rattle.fileset_shapes.specs.fileset_table.declared.slot.SlotItem.TheVariants as slot;
ghost use Rattle.fileset_shapes.specs.domain_layout.Layout.{Layout};
ghost use Rattle.fileset_shapes.specs.domain_layout.Shape.{FilesetShape, IsOriginal};
ghost use Rattle.fileset_shapes.specs.Files.{IsWhole};
ghost use Rattle.domain_standing.specs.Keeping.{KeepDirectories};
ghost use Rattle.domain_standing.specs.Space.{AreCellsOf, AreFew, IsSpaceOf};

/// If no rule is broken, all pages are there and no directory is to be cut, the files of an
/// original are the set of files and directories that its shape shows, with the free space and the
/// free cells that the pages say.
pub fn an_original_is_a_set()
    ensures { (pages : Pages) (layout : Layout) (space : Spaces) (cells : Cells) (number : ℕ)
        (entry : FilesetEntry) (shape : FilesetShape) → IsWhole pages layout
        → IsLogInside layout.version layout.anchor → AreFew layout
        → IsSpaceOf pages layout space → AreCellsOf pages layout cells
        → slice_get layout.table.slots number ≡ Some (slot.Original entry)
        → IsOriginal pages number entry shape → KeepDirectories pages layout.table number
        → StandsAsSet number (layout.tags number) space cells pages shape.shown }
{}
