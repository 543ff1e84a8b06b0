//! Files that stand as a set shows them.
ghost use Rattle.std.specs.Prelude.{ℕ};
ghost use Rattle.fileset_shapes.specs.domain_base.declared.place.Home.{Home};
ghost use Rattle.fileset_shapes.specs.page_store.Bitfiles.{Bitfiles};
ghost use Rattle.fileset_shapes.specs.page_store.Pages.{Pages};
ghost use Rattle.fileset_shapes.specs.free_cells.Cells.{Cells};
ghost use Rattle.fileset_shapes.specs.free_space.Spaces.{Spaces};
ghost use Rattle.fileset_shapes.specs.log_recovery.Range.{IsLogInside};
ghost use Rattle.fileset_shapes.specs.log_ring.Homes.{IsMember, member_of};
ghost use Rattle.fileset_shapes.specs.fileset_files.Files.{AreFiles, Chains};
ghost use Rattle.fileset_shapes.specs.fileset_files.Shown.{Shows};
ghost use Rattle.stored_set.specs.Standing.{AreTagsOnVolumes, Indexes, StandsShown};
ghost use Rattle.fileset_shapes.specs.domain_layout.Faults.{HasNoFault};
ghost use Rattle.fileset_shapes.specs.domain_layout.Layout.{IsLayout, Layout};
ghost use Rattle.fileset_shapes.specs.domain_layout.Owners.{frame_of};
ghost use Rattle.fileset_shapes.specs.domain_layout.TagRules.{HasTags};
ghost use Rattle.domain_standing.specs.Space.{AreCellsOf, AreFew, IsSpaceOf};

/// If no rule is broken, the files of what is in a slot stand as the set that they show, and its
/// indexes stand on pages of their own.
pub fn files_stand_shown()
    ensures { (pages : Pages) (layout : Layout) (space : Spaces) (cells : Cells) (number : ℕ)
        (first : Home) (chains : Chains) (set : Bitfiles) → IsLayout pages layout
        → HasNoFault pages (frame_of layout) → IsLogInside layout.version layout.anchor
        → AreFew layout → IsSpaceOf pages layout space → AreCellsOf pages layout cells
        → HasTags layout.table number first
        → AreFiles number (layout.tags number) pages chains → Shows pages chains set
        → (indexes : Indexes) × StandsShown number (layout.tags number) space cells pages chains
        indexes set }
{}
