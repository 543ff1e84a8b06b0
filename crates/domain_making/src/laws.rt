//! What holds for making, for those who call this crate.
ghost use Rattle.std.specs.Prelude.{◌≡◌, length};
ghost use Rattle.domain_layout.specs.volume_disk.Disk.{Disk, IsSettled};
ghost use Rattle.domain_making.specs.Laws.{HoldsNoOtherAnchor};
ghost use Rattle.domain_making.specs.Making.{HasNoOtherAnchor};

/// Laws of making. No image has an anchor that counts on a volume other than the first if the rack
/// has only one volume (`alone`), or if nothing is pending and its contents have no such anchor
/// (`settled`).
pub fn making_laws()
    ensures alone { (disk : Disk) → length disk.sizes ≡ 1 → HasNoOtherAnchor disk }
    ensures settled { (disk : Disk) → IsSettled disk.now → HoldsNoOtherAnchor disk
        → HasNoOtherAnchor disk }
{}
