//! The memory of a domain that is made.
ghost use Rattle.std.specs.Prelude.{◌≡◌, ◌<◌, ◌≤◌, IfOk};
ghost use Rattle.std.specs.FinMap.{empty};
ghost use Rattle.standing_laws.specs.domain_base.Version.{most_pages};
ghost use Rattle.standing_laws.specs.disk_label.FirstPages.{first_pages};
ghost use Rattle.standing_laws.specs.page_ways.Frame.{frame_in};
ghost use Rattle.staged_pages.specs.Store.{before_of};
ghost use Rattle.standing_laws.specs.domain_layout.NewDomain.{IsNew};
ghost use Rattle.domain_making.specs.Making.{new_frame};
ghost use Rattle.domain_making.specs.Pages.{AreNew};
ghost use Rattle.domain_memory.specs.Memory.{StandsFor};
ghost use Rattle.domain_memory.specs.Staged.{IsSettled, MayGoBack};

use crate::{DomainMemory, free_slots, read_cells, read_space};
use domain_making::{NewPages, new_anchor};
use staged_pages::StagedPages;
use standing_laws::{Deferred, DomainFrame, FilesetTable, OutOfMemory, Version};
use std::alloc::Global;

impl DomainMemory {
    /// The memory of a domain that is made in this version from these pages, with `pages` pages of
    /// its volume used. It has no fileset, and no change is laid over it. Fails only if memory runs
    /// out.
    pub fn of_new(
        alloc: Global,
        new: &NewPages,
        version: Version,
        pages: u32,
    ) -> Result<DomainMemory, OutOfMemory>
        requires room { (first_pages version pages).table < pages }
        requires most { pages ≤ most_pages version }
        requires new { AreNew version pages new.now }
        ensures new { IfOk result (λ memory. IsNew (before_of memory.pages)
            (new_frame version pages)) }
        ensures stands { IfOk result (λ memory. StandsFor memory empty) }
        ensures settled { IfOk result IsSettled }
        ensures back { IfOk result MayGoBack }
        ensures frame { IfOk result (λ memory. frame_in memory.frame ≡ new_frame version pages) }
    {
        let frame = DomainFrame {
            anchor: new_anchor(version, pages),
            version,
        };
        let mut store = StagedPages::new(alloc);
        new.bring_into(alloc, &mut store, version, pages)?;
        store.keep();
        let mut space = read_space(alloc, &store, &frame)?;
        space.keep();
        let mut cells = read_cells(alloc, &store, &frame)?;
        cells.keep();
        Ok(DomainMemory {
            frame,
            pages: store,
            space,
            cells,
            table: FilesetTable::new(alloc)?,
            list: Deferred::new(alloc),
            slots: free_slots(alloc)?,
            was: None,
            listed: Vec::new(alloc),
        })
    }
}
