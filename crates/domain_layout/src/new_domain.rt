//! What the pages of a domain that was just made mean.
ghost use Rattle.std.specs.FinMap.{empty};
ghost use Rattle.file_release.specs.page_store.Pages.{Pages};
ghost use Rattle.domain_layout.specs.Faults.{HasNoFault};
ghost use Rattle.domain_layout.specs.Reached.{Frame};
ghost use Rattle.domain_layout.specs.Read.{ReadsFrom};
ghost use Rattle.domain_layout.specs.NewDomain.{IsNew, firsts, on_first};

/// A domain that was just made breaks no rule.
pub fn new_domain_has_no_fault()
    ensures { (pages : Pages) (frame : Frame) → IsNew pages frame → HasNoFault pages frame }
{}

/// A domain that was just made has no fileset.
pub fn new_domain_has_no_fileset()
    ensures { (pages : Pages) (frame : Frame) → IsNew pages frame
        → ReadsFrom pages (on_first (firsts frame).table) empty }
{}
