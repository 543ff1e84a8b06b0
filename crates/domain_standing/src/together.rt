//! Files that belong together with free space and free cells.
ghost use Rattle.std.specs.Prelude.{ℕ};
ghost use Rattle.fileset_shapes.specs.domain_base.declared.place.Home.{Home};
ghost use Rattle.fileset_shapes.specs.page_store.Pages.{Pages};
ghost use Rattle.fileset_shapes.specs.free_cells.Cells.{Cells};
ghost use Rattle.fileset_shapes.specs.free_space.Spaces.{Spaces};
ghost use Rattle.fileset_shapes.specs.log_recovery.Range.{IsLogInside};
ghost use Rattle.fileset_shapes.specs.fileset_files.Files.{AreFiles, Chains};
ghost use Rattle.fileset_shapes.specs.fileset_files.Together.{AreTogether};
ghost use Rattle.fileset_shapes.specs.domain_layout.Faults.{HasNoFault};
ghost use Rattle.fileset_shapes.specs.domain_layout.Layout.{IsLayout, Layout};
ghost use Rattle.fileset_shapes.specs.domain_layout.Owners.{frame_of};
ghost use Rattle.fileset_shapes.specs.domain_layout.TagRules.{HasTags};
ghost use Rattle.domain_standing.specs.Space.{AreCellsOf, IsSpaceOf};

/// If no rule is broken and the log stands after the first pages of its volume, the files of what
/// is in a slot, also of a fileset that is being removed, belong together with the free space and
/// the free cells that the pages say.
pub fn files_belong_together()
    ensures { (pages : Pages) (layout : Layout) (space : Spaces) (cells : Cells) (number : ℕ)
        (first : Home) (chains : Chains) → IsLayout pages layout
        → HasNoFault pages (frame_of layout) → IsLogInside layout.version layout.anchor
        → IsSpaceOf pages layout space → AreCellsOf pages layout cells
        → HasTags layout.table number first
        → AreFiles number (layout.tags number) pages chains
        → AreTogether number (layout.tags number) space cells pages chains }
{}
