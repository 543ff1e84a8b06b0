//! Laws of what the pages mean that are brought from a rack.
ghost use Rattle.std.specs.Prelude.{◌≡◌, ◌↔◌, List, ℕ, Some};
ghost use Rattle.domain_faults.specs.domain_base.declared.place.Home.{Home};
ghost use Rattle.domain_faults.specs.domain_layout.Read.{Means, ReadsFrom};
ghost use Rattle.domain_faults.specs.domain_layout.Reached.{Frame};
ghost use Rattle.domain_faults.specs.fileset_model.Filesets.{FilesetMap};
ghost use Rattle.domain_faults.specs.log_recovery.declared.redone.Redone.{Redone};
ghost use Rattle.domain_faults.specs.page_store.Pages.{Pages};
ghost use Rattle.domain_faults.specs.volume_disk.Image.{Image};
ghost use Rattle.domain_bringing.specs.Brought.{HasBitmaps, HasDomainPages, IsBroughtFrom, IsGoodFrame};

/// Pages that are brought from an image have exactly the filesets that the image means.
pub fn brought_pages_mean()
    ensures { (sizes : List ℕ) (image : Image) (pages : Pages) (found : Redone) (frame : Frame)
        → IsGoodFrame frame → HasDomainPages pages frame → frame.anchor ≡ found.anchor
        → IsBroughtFrom sizes image pages found → (all : FilesetMap) → Means sizes image all
        ↔ ((home : Home) → frame.anchor.table ≡ Some home → ReadsFrom pages home all) }
{}

/// The pages of members' bitmaps are among the pages that are brought.
pub fn bitmaps_are_brought()
    ensures { (pages : Pages) (frame : Frame) → IsGoodFrame frame → HasDomainPages pages frame
        → HasBitmaps pages frame }
{}
