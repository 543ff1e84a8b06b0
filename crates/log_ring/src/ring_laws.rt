//! What follows from the definitions of this crate, for those who call the crates above it.
ghost use Rattle.std.specs.Prelude.{◌≡◌, ℕ, List};
ghost use Rattle.disk_label.specs.volume_disk.Disk.{Disk};
ghost use Rattle.disk_label.specs.volume_disk.Image.{Image};
ghost use Rattle.disk_label.specs.declared.anchor.Anchor.{Anchor};
ghost use Rattle.log_ring.specs.Groups.{Group};
ghost use Rattle.log_ring.specs.LogLaws.{
  DependsOnRead,
  HaveOneWay,
  IsReadOnLog,
  KeepsLog,
  KeepsLogAlong,
  KeepsLogBeside,
  RedoesAlike,
  RedoesNothing,
  RedoesOneMore,
};

/// Laws of a log on images. Calls that touch neither the pages of anchors nor the ring leave what
/// stands of the log (`stays`), and so do runs of such calls, however many (`along`). Calls that
/// touch no page of the ring also leave it if they leave the anchor of each image (`beside`):
/// making a slot ready does, and so does closing the gates of a volume that has both slots ready.
///
/// From a place on an image has at most one list of groups (`one_way`). It depends only on the
/// pages of these groups and on the next gate (`depends`), and these lie on the ring (`on_ring`).
pub fn log_laws()
    ensures stays { (old new : Disk) (anchor : Anchor) (groups : List Group)
        → KeepsLog old new anchor groups }
    ensures along { (old : Disk) (disks : List Disk) (anchor : Anchor) (groups : List Group)
        → KeepsLogAlong old disks anchor groups }
    ensures beside { (old new : Disk) (anchor : Anchor) (groups : List Group)
        → KeepsLogBeside old new anchor groups }
    ensures one_way { (anchor : Anchor) (place number : ℕ) (groups others : List Group)
        (image : Image) → HaveOneWay anchor place number groups others image }
    ensures depends { (anchor : Anchor) (place number : ℕ) (groups : List Group)
        (old new : Image) → DependsOnRead anchor place number groups old new }
    ensures on_ring { (anchor : Anchor) (place : ℕ) (groups : List Group)
        → IsReadOnLog anchor place groups }
{}

/// Laws of redone pages. One more group is one more overlay (`one_more`). Two images on which the
/// same groups are redone have the same page at each home that a group has, and at each on which
/// they agree (`alike`). So groups may be redone again. And if each home has the last image of it,
/// redoing changes nothing (`home`).
pub fn redo_laws()
    ensures one_more { (groups : List Group) (group : Group) (image : Image)
        → RedoesOneMore groups group image }
    ensures alike { (groups : List Group) (old new : Image) → RedoesAlike groups old new }
    ensures home { (groups : List Group) (image : Image) → RedoesNothing groups image }
{}
