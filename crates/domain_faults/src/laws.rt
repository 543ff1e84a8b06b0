//! A law of what an empty list of faults says.
ghost use Rattle.std.specs.Prelude.{[]};
ghost use Rattle.slot_files.specs.page_store.Pages.{Pages};
ghost use Rattle.slot_files.specs.domain_layout.Faults.{AreFaults, HasNoFault};
ghost use Rattle.slot_files.specs.domain_layout.Reached.{Frame};

/// Pages for which no fault is told have no fault.
pub fn none_told_is_no_fault()
    ensures { (pages : Pages) (frame : Frame) → AreFaults pages frame [] → HasNoFault pages frame }
{}
