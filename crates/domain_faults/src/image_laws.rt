//! A law: an image means one thing at most.
ghost use Rattle.std.specs.Prelude.{ℕ, List};
ghost use Rattle.slot_files.specs.volume_disk.Image.{Image};
ghost use Rattle.domain_faults.specs.Meaning.{AreSameMeaning, IsMeaningOf};
ghost use Rattle.domain_faults.specs.declared.meaning.Meaning.{Meaning};

/// An image means one thing at most: the same first page that does not belong to a domain, the same
/// rows of faults, or filesets that no reply tells apart. So if it means filesets, it has no fault.
pub fn a_meaning_is_one()
    ensures { (sizes : List ℕ) (image : Image) (one other : Meaning)
        → IsMeaningOf sizes image one → IsMeaningOf sizes image other
        → AreSameMeaning one other }
{}
