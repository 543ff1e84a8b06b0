//! What the calls of a logged rack keep, for those who call this crate.
ghost use Rattle.std.specs.Prelude.{List};
ghost use Rattle.meta_log.specs.disk_label.declared.anchor.Anchor.{Anchor};
ghost use Rattle.meta_log.specs.domain_base.declared.place.Home.{Home};
ghost use Rattle.meta_log.specs.log_ring.Groups.{Group};
ghost use Rattle.meta_log.specs.log_ring.declared.image.PageImage.{PageImage};
ghost use Rattle.meta_log.specs.volume_disk.Disk.{Disk};
ghost use Rattle.meta_log.specs.volume_disk.Image.{Image};
ghost use Rattle.meta_log.specs.Log.{Log};
ghost use Rattle.logged_rack.specs.Sides.{
  AppendShows,
  ForceShows,
  ReadShows,
  SyncShows,
  WriteShows,
};

/// One law for each call of a logged rack, of what the images show that a stop may leave since
/// then. Each has the page of an image of before at each home, and so it does once groups are
/// redone on both (`redo_laws`), whichever these are: those that are durable, or these and what is
/// pending. A page that is written in place is the one exception (`write`). An append lays its
/// images over what is shown once all before it is redone (`append`). A checkpoint changes pages
/// only to what they were once redone, which it says itself (`Checkpoints`).
pub fn side_laws()
    ensures append { (log : Log) (change : List PageImage) (groups : List Group) (image : Image)
        → AppendShows log change groups image }
    ensures force { (old new : Disk) (log : Log) → ForceShows old new log }
    ensures read { (old new : Disk) → ReadShows old new }
    ensures write { (old new : Disk) (anchor : Anchor) (groups : List Group) (home : Home)
        → WriteShows old new anchor groups home }
    ensures sync { (old new : Disk) (anchor : Anchor) (groups : List Group)
        → SyncShows old new anchor groups }
{}
