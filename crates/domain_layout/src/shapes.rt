//! On which pages the shapes of filesets depend.
ghost use Rattle.std.specs.Prelude.{◌≡◌, Some};
ghost use Rattle.file_release.specs.domain_base.declared.place.Home.{Home};
ghost use Rattle.file_release.specs.page_store.Pages.{Pages};
ghost use Rattle.domain_layout.specs.Faults.{HasNoFault};
ghost use Rattle.domain_layout.specs.Layout.{IsLayout, Layout};
ghost use Rattle.domain_layout.specs.Owners.{frame_of};
ghost use Rattle.domain_layout.specs.Shape.{HaveShapes, Shapes};
ghost use Rattle.domain_layout.specs.Metadata.{AgreeOnMetadata};

/// If no rule is broken, the shapes of filesets depend only on pages of metadata: pages that differ
/// only in pages of files and in pages without an owner have the same shapes.
pub fn same_shapes()
    ensures { (one other : Pages) (layout : Layout) (home : Home) (shapes : Shapes)
        → IsLayout one layout → HasNoFault one (frame_of layout)
        → layout.anchor.table ≡ Some home → HaveShapes one home shapes
        → AgreeOnMetadata one other layout shapes → HaveShapes other home shapes }
{}
