//! The list of faults depends only on the pages at which the rules look.
ghost use Rattle.std.specs.Prelude.{◌↔◌, List};
ghost use Rattle.file_release.specs.page_store.Pages.{Pages};
ghost use Rattle.domain_layout.specs.Faults.{AreFaults, FaultRow, IsFault};
ghost use Rattle.domain_layout.specs.Reached.{Frame};
ghost use Rattle.domain_layout.specs.Looks.{AgreeWhereRulesLook};

/// Pages that agree where the rules look break the same rules at the same pages. This depends on no
/// other page, be it one of a file, one without an owner, or one that tables may not have.
pub fn faults_agree()
    ensures { (one other : Pages) (frame : Frame) (row : FaultRow)
        → AgreeWhereRulesLook one other frame
        → (IsFault one frame row ↔ IsFault other frame row) }
{}

/// So they have the same list of faults; if it is empty, no rule is broken in either.
pub fn lists_agree()
    ensures { (one other : Pages) (frame : Frame) (rows : List FaultRow)
        → AgreeWhereRulesLook one other frame
        → (AreFaults one frame rows ↔ AreFaults other frame rows) }
{}
