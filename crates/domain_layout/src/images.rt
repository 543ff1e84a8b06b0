//! What an image means.
ghost use Rattle.std.specs.Prelude.{ℕ, List};
ghost use Rattle.log_recovery.specs.volume_disk.Image.{Image};
ghost use Rattle.name_space.specs.fileset_model.Filesets.{FilesetMap};
ghost use Rattle.name_space.specs.fileset_model.LooksLike.{LooksLike};
ghost use Rattle.domain_layout.specs.Read.{Reads};

/// An image of a rack has filesets in one way at most: no reply tells any two readings apart.
pub fn image_reads_once()
    ensures { (sizes : List ℕ) (image : Image) (all other : FilesetMap) → Reads sizes image all
        → Reads sizes image other → LooksLike all other }
{}
