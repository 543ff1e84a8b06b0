//! Laws of what pages mean.
ghost use Rattle.file_release.specs.domain_base.declared.place.Home.{Home};
ghost use Rattle.file_release.specs.page_store.Pages.{Pages};
ghost use Rattle.name_space.specs.fileset_model.Filesets.{FilesetMap};
ghost use Rattle.name_space.specs.fileset_model.LooksLike.{LooksLike};
ghost use Rattle.domain_layout.specs.Faults.{HasNoExtentFault, HasNoFault, HasNoTablesFault};
ghost use Rattle.domain_layout.specs.Filled.{AreFilled, Contents};
ghost use Rattle.domain_layout.specs.Reached.{Frame};
ghost use Rattle.name_space.specs.fileset_values.Orders.{Name};
ghost use Rattle.domain_layout.specs.Shape.{HaveShapes, IsSameShapeThere, Shapes};

/// Pages that break no rule break no rule of the fileset table, of cells, or of tags and what they
/// name.
pub fn tables_have_no_fault()
    ensures { (pages : Pages) (frame : Frame) → HasNoFault pages frame
        → HasNoTablesFault pages frame }
{}

/// Pages that break no rule break no rule of extents.
pub fn extents_have_no_fault()
    ensures { (pages : Pages) (frame : Frame) → HasNoFault pages frame
        → HasNoExtentFault pages frame }
{}

/// Pages of metadata have at most one shape for each fileset.
pub fn one_shape()
    ensures { (pages : Pages) (home : Home) (a b : Shapes) (name : Name)
        → HaveShapes pages home a → HaveShapes pages home b
        → IsSameShapeThere (a name) (b name) }
{}

/// Filesets of one shape that are filled from the same contents look alike: no reply tells them
/// apart.
pub fn one_filling()
    ensures { (pages : Pages) (home : Home) (contents : Contents) (shapes : Shapes)
        (all other : FilesetMap) → HaveShapes pages home shapes → AreFilled contents shapes all
        → AreFilled contents shapes other → LooksLike all other }
{}
