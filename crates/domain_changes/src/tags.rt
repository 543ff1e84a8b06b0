//! Tag directories of new filesets.
ghost use Rattle.std.specs.Prelude.{◌≡◌, ℕ, IfErr, IfOk};
ghost use Rattle.domain_memory.specs.free_space.Spaces.{CanTake};
ghost use Rattle.domain_memory.specs.page_store.declared.fault.StoreFault.TheVariants.{NoPage};
ghost use Rattle.domain_changes.specs.Beginning.{BeginsTags};
ghost use Rattle.domain_memory.specs.Kept.{KeepsKept};

use domain_memory::{Bitfiles, DomainMemory, FilesetNo, Home, StoreFault, TagDir, VolIx};
use std::alloc::Global;

/// The files of a new fileset, which has none yet, and the first page of its tag directory.
#[derive(Drop)]
pub(crate) struct NewTags {
    pub files: Bitfiles,
    pub home: Home,
}

/// Takes a free page, from the preferred volume if it has one, for the tag directory of a new
/// fileset. NoPage is returned only if none is free.
pub(crate) fn begin_tags(
    memory: &mut DomainMemory,
    alloc: Global,
    number: FilesetNo,
    prefer: VolIx,
) -> Result<NewTags, StoreFault>
    ensures ok { IfOk result (λ begun. BeginsTags number begun.home begun.files memory.old
        memory.new) }
    ensures kept { KeepsKept memory.old memory.new }
    ensures same { memory.new ≡ record memory.old {
      pages = memory.new.pages;
      space = memory.new.space;
    } }
    ensures cause { IfErr result (λ fault. fault ≡ NoPage
        → (vol p : ℕ) → ¬ CanTake memory.old.space vol p) }
{
    let Some(home) = memory.space.allocate(prefer) else {
        return Err(StoreFault::NoPage);
    };
    let first = home;
    let mut tags = TagDir::new(alloc);
    tags.add_page(alloc, &mut memory.pages, 0, home)?;
    Ok(NewTags {
        files: Bitfiles::new(number, tags),
        home: first,
    })
}
