//! On which pages the rules of cells and tags depend.
ghost use Rattle.std.specs.Prelude.{◌↔◌};
ghost use Rattle.file_release.specs.domain_base.declared.place.Home.{Home};
ghost use Rattle.file_release.specs.page_store.Pages.{Pages};
ghost use Rattle.fileset_table.specs.Table.{Table};
ghost use Rattle.domain_layout.specs.CellRules.{IsCellsFault};
ghost use Rattle.domain_layout.specs.TagRules.{IsTagsFault};
ghost use Rattle.domain_layout.specs.Reached.{Frame};
ghost use Rattle.domain_layout.specs.Alike.{AgreeOnCells, AgreeOnTags};

/// Which rules of cells are broken depends only on the pages of cells that are reached.
pub fn cells_faults_agree()
    ensures { (one other : Pages) (frame : Frame) (table : Table) (home : Home)
        → AgreeOnCells one other frame
        → (IsCellsFault one frame table home ↔ IsCellsFault other frame table home) }
{}

/// Which rules of tags and slots are broken depends only on the pages of cells and of tags that are
/// reached.
pub fn tags_faults_agree()
    ensures { (one other : Pages) (frame : Frame) (table : Table) (home : Home)
        → AgreeOnCells one other frame → AgreeOnTags one other frame table
        → (IsTagsFault one frame table home ↔ IsTagsFault other frame table home) }
{}
