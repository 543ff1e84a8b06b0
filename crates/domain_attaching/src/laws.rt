//! Laws of what a domain leaves on its volumes, each the contract of a function with an empty body.
ghost use Rattle.std.specs.FinMap.{empty};
ghost use Rattle.attached_domain.specs.disk_label.declared.anchor.Anchor.{Anchor};
ghost use Rattle.domain_attaching.specs.Attaching.{IsAttachable};
ghost use Rattle.domain_attaching.specs.Closing.{IsClosed};
ghost use Rattle.attached_domain.specs.domain_memory.Memory.{StandsFor};
ghost use Rattle.attached_domain.specs.domain_memory.declared.memory.DomainMemory.{DomainMemory};
ghost use Rattle.attached_domain.specs.domain_making.Making.{IsMade};
ghost use Rattle.attached_domain.specs.fileset_model.Filesets.{FilesetMap};
ghost use Rattle.attached_domain.specs.volume_disk.Disk.{Disk, MayLeave};
ghost use Rattle.attached_domain.specs.volume_disk.Image.{Image};

/// Each image that a stop may leave of a rack on which a domain was closed means the filesets for
/// which its memory stood. It is never refused as no domain, or as a domain that cannot be
/// attached. Its anchor, which names the members, is the memory's, and no group follows it, so
/// nothing has to be settled.
pub fn a_closed_domain_is_attachable()
    ensures { (disk : Disk) (memory : DomainMemory) (all : FilesetMap) → IsClosed disk memory
        → StandsFor memory all → (image : Image) → MayLeave disk.now image
        → IsAttachable disk.sizes image memory.frame.anchor all }
{}

/// Each image that a stop may leave of a rack on which a domain was just made means no fileset, and
/// is never refused, either. Its anchor is the one with which the domain was made.
pub fn a_made_domain_is_attachable()
    ensures { (disk : Disk) (anchor : Anchor) → IsMade disk anchor → (image : Image)
        → MayLeave disk.now image → IsAttachable disk.sizes image anchor empty }
{}
