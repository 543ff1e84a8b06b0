//! What follows from the contracts of this crate, for those who call it.
ghost use Rattle.std.specs.Prelude.{ℕ, Option};
ghost use Rattle.volume_disk.specs.Disk.{Disk};
ghost use Rattle.volume_disk.specs.Image.{Image};
ghost use Rattle.disk_label.specs.Laws.{
  AnchorStays,
  KeepsAnchor,
  KeepsAnchorByGates,
  LeavesAnchors,
  ShowsAnchor,
  StaysReady,
};
ghost use Rattle.disk_label.specs.declared.anchor.Anchor.{Anchor};

/// Laws of anchors. An anchor depends only on the pages of anchors: images that agree there have
/// the same one (`depends`). What `read_anchor` returns on a rack on which nothing is pending there
/// is what each image has that a stop may leave (`shows`). And a slot that is ready stays ready as
/// long as each image agrees there with one that might have been left before (`stays`), as it does
/// after calls that touch none of these pages (`beside`).
///
/// Such calls leave the anchor that each image had, at each moment (`keeps`), as `write_label`
/// does. So does `close_gates`, once both slots of its volume are ready (`gates`): then the volume
/// is not the anchor's own, and nothing that follows its gates still counts, whatever these hold.
/// `ready_slot` itself says that it leaves the anchor (`ReadiesSlot`).
pub fn anchor_laws()
    ensures depends { (old new : Image) → AnchorStays old new }
    ensures shows { (disk : Disk) (anchor : Option Anchor) → ShowsAnchor disk anchor }
    ensures stays { (old new : Disk) (anchor : Option Anchor) (vol slot : ℕ)
        → StaysReady old new anchor vol slot }
    ensures beside { (old new : Disk) → LeavesAnchors old new }
    ensures keeps { (old new : Disk) (anchor : Option Anchor) → KeepsAnchor old new anchor }
    ensures gates { (old new : Disk) (anchor : Option Anchor) (vol : ℕ)
        → KeepsAnchorByGates old new anchor vol }
{}
