//! Laws of a change that is laid over a domain's memory.
ghost use Rattle.standing_laws.specs.fileset_model.Filesets.{FilesetMap};
ghost use Rattle.domain_memory.specs.Kept.{KeepsKept};
ghost use Rattle.domain_memory.specs.Memory.{StandsFor};
ghost use Rattle.domain_memory.specs.Staged.{IsSettled, MayBeKept};
ghost use Rattle.domain_memory.specs.declared.memory.DomainMemory.{DomainMemory as MemoryOf};

/// If no change is laid over a domain's memory, it may be kept as it is, for the filesets for which
/// the domain stands.
pub fn what_is_settled_may_be_kept()
    ensures { (memory : MemoryOf) (all : FilesetMap) → IsSettled memory → StandsFor memory all
        → MayBeKept memory all }
{}

/// As long as what was kept stays, memory is that of a domain with the filesets that it had.
pub fn what_was_kept_stands()
    ensures { (old new : MemoryOf) → KeepsKept old new → (all : FilesetMap) → StandsFor old all
        → StandsFor new all }
{}

/// What was kept stays over two changes, one after the other.
pub fn changes_leave_what_was_kept()
    ensures { (first between last : MemoryOf) → KeepsKept first between → KeepsKept between last
        → KeepsKept first last }
{}
