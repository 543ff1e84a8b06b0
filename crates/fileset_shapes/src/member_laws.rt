//! What stands on no page of a member tells nothing.
ghost use Rattle.std.specs.Prelude.{◌≡◌, ◌↔◌, Some};
ghost use Rattle.filesets_reading.specs.domain_base.declared.place.Home.{Home};
ghost use Rattle.filesets_reading.specs.page_store.Pages.{Pages};
ghost use Rattle.filesets_reading.specs.fileset_model.Filesets.{FilesetMap};
ghost use Rattle.filesets_reading.specs.domain_layout.Faults.{FaultRow, HasNoFault, IsFault};
ghost use Rattle.filesets_reading.specs.domain_layout.Layout.{IsLayout, Layout};
ghost use Rattle.filesets_reading.specs.domain_layout.Owners.{frame_of};
ghost use Rattle.filesets_reading.specs.domain_layout.Reached.{Frame};
ghost use Rattle.filesets_reading.specs.domain_layout.Read.{ReadsFrom};
ghost use Rattle.fileset_shapes.specs.Found.{HasAllPages};
ghost use Rattle.fileset_shapes.specs.Within.{AgreeWithin, IsInside};

/// Which rules are broken depends only on the pages of members.
pub fn faults_within()
    ensures { (one other : Pages) (frame : Frame) (row : FaultRow) → IsInside frame
        → AgreeWithin one other frame → (IsFault one frame row ↔ IsFault other frame row) }
{}

/// If no rule is broken and each page of a file is there, the filesets that pages have depend only
/// on the pages of members.
pub fn filesets_within()
    ensures { (one other : Pages) (layout : Layout) (home : Home) (all : FilesetMap)
        → IsInside (frame_of layout) → AgreeWithin one other (frame_of layout)
        → IsLayout one layout → HasNoFault one (frame_of layout)
        → HasAllPages one (frame_of layout) → layout.anchor.table ≡ Some home
        → ReadsFrom one home all → ReadsFrom other home all }
{}
