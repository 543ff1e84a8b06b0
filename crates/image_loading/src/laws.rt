//! A law: what is said of pages that were brought is said of the image of the rack.
ghost use Rattle.std.specs.Prelude.{List};
ghost use Rattle.slot_files.specs.domain_layout.Looks.{AgreeWhereRulesLook};
ghost use Rattle.slot_files.specs.domain_layout.Reached.{Frame};
ghost use Rattle.slot_files.specs.log_ring.Groups.{Group, redone};
ghost use Rattle.image_loading.specs.Loading.{AreImagesOf, Brings, HasWhereRulesLook};
ghost use Rattle.slot_files.specs.page_store.Pages.{Pages};
ghost use Rattle.slot_files.specs.volume_disk.Disk.{Disk, Tells};

/// If pages were brought to the images of a log, and each page at which the rules look is there,
/// they agree at those with what the rack has once the log is redone, which thus has the same list
/// of faults.
pub fn brought_pages_agree()
    ensures { (old new : Disk) (before after : Pages) (groups : List Group) (frame : Frame)
        → Tells old → AreImagesOf groups before → Brings old new before after
        → HasWhereRulesLook after frame
        → AgreeWhereRulesLook after (redone groups old.now.contents) frame }
{}
