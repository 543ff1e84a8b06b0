//! What holds of recovery, for those who call this crate.
ghost use Rattle.std.specs.Prelude.{ℕ, List};
ghost use Rattle.log_ring.specs.volume_disk.Disk.{Disk};
ghost use Rattle.log_ring.specs.volume_disk.Image.{Image};
ghost use Rattle.log_ring.specs.disk_label.declared.anchor.Anchor.{Anchor};
ghost use Rattle.log_ring.specs.declared.image.PageImage.{PageImage};
ghost use Rattle.log_ring.specs.Groups.{Group};
ghost use Rattle.log_recovery.specs.Laws.{
  HasNoFault,
  HasOneFault,
  HasOneLog,
  MaySettleSynced,
  ReadiesToSettle,
  StaysRecovered,
};
ghost use Rattle.log_recovery.specs.Readable.{
  KeepsGoodAnchor,
  KeepsGoodBeside,
  LeavesReadable,
  RestartsGood,
};
ghost use Rattle.log_recovery.specs.Settled.{SettlesAsMoves};
ghost use Rattle.log_recovery.specs.declared.redone.Redone.{Redone};

/// Laws of recovery. What is recovered of contents may be settled if nothing is pending and the
/// next anchor's slot is ready (`synced`), as it is once `ready_slot` was called after `recover`
/// (`readied`, which also says that the anchor is good on each image). Then a log that stands as it
/// was recovered is brought home (`settles`). From the start of `recover` until `ready_slot` has
/// returned, whatever it returns, each image that a stop may leave is recovered in the same way
/// (`readying`): only the slot's body differs, which no other page shows.
///
/// An image that has a good anchor and a log has no place at which there is no domain (`sound`).
/// Any image has at most one first such place (`one`), and the log that an image has is the one
/// that is recovered of it (`one_log`). So the image alone tells what `recover` returns.
///
/// A good anchor stays good in calls that touch only pages after those of anchors (`keeps`), and in
/// those that touch no label of a member and leave the anchor of each image (`beside`), as
/// `write_label` and `ready_slot` do on a volume that is no member, and `close_gates` once both its
/// slots are ready. Recovery accepts each image that is left while images are brought home and an
/// anchor is written (`readable`): it refuses no log that was written in this way. This needs the
/// next anchor to be good. It is if only its number, slot, start and first group differ from those
/// of a good one (`restarts`).
pub fn recovery_laws()
    ensures synced { (disk : Disk) (groups : List Group) (redone : Redone)
        → MaySettleSynced disk groups redone }
    ensures readied { (start found ready : Disk) (groups : List Group) (redone : Redone)
        → ReadiesToSettle start found ready groups redone }
    ensures readying { (start found ready : Disk) (groups : List Group) (redone : Redone)
        → StaysRecovered start found ready groups redone }
    ensures settles { (disk : Disk) (groups : List Group) (redone : Redone)
        → SettlesAsMoves disk groups redone }
    ensures sound { (sizes : List ℕ) (image : Image) (anchor : Anchor) (groups : List Group)
        (vol at : ℕ) → HasNoFault sizes image anchor groups vol at }
    ensures one { (sizes : List ℕ) (image : Image) (vol at other_vol other_at : ℕ)
        → HasOneFault sizes image vol at other_vol other_at }
    ensures one_log { (sizes : List ℕ) (image : Image) (anchor : Anchor)
        (groups others : List Group) (redone : Redone)
        → HasOneLog sizes image anchor groups others redone }
    ensures keeps { (old new : Disk) (anchor : Anchor) → KeepsGoodAnchor old new anchor }
    ensures beside { (old new : Disk) (anchor : Anchor) → KeepsGoodBeside old new anchor }
    ensures restarts { (disk : Disk) (anchor : Anchor) (number slot start group : ℕ)
        → RestartsGood disk anchor number slot start group }
    ensures readable { (old new : Disk) (images : List PageImage) (anchor : Anchor)
        (groups : List Group) (next : Anchor)
        → LeavesReadable old new images anchor groups next }
{}
