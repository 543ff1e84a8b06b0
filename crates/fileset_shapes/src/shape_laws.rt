//! If no rule is broken, the shapes of filesets depend on no page at which no rule looks.
ghost use Rattle.std.specs.Prelude.{◌≡◌, Some};
ghost use Rattle.filesets_reading.specs.domain_base.declared.place.Home.{Home};
ghost use Rattle.filesets_reading.specs.page_store.Pages.{Pages};
ghost use Rattle.filesets_reading.specs.domain_layout.Faults.{HasNoFault};
ghost use Rattle.filesets_reading.specs.domain_layout.Layout.{IsLayout, Layout};
ghost use Rattle.filesets_reading.specs.domain_layout.Owners.{frame_of};
ghost use Rattle.filesets_reading.specs.domain_layout.Shape.{HaveShapes, Shapes};
ghost use Rattle.filesets_reading.specs.domain_layout.Looks.{AgreeWhereRulesLook};

/// If no rule is broken, pages that agree where the rules look have the same shapes. No other page
/// is needed to read these.
pub fn shapes_agree()
    ensures { (one other : Pages) (layout : Layout) (home : Home) (shapes : Shapes)
        → IsLayout one layout → HasNoFault one (frame_of layout)
        → layout.anchor.table ≡ Some home → HaveShapes one home shapes
        → AgreeWhereRulesLook one other (frame_of layout) → HaveShapes other home shapes }
{}
