//! Slots of a domain's fileset table.
ghost use Rattle.std.specs.Prelude.{◌≡◌, IsSome, OnErr, OnOk};
ghost use Rattle.domain_memory.specs.fileset_table.Table.{IsTable, with_slot};
ghost use Rattle.domain_memory.specs.staged_pages.Store.{pages_of};
ghost use Rattle.domain_changes.specs.Table.{HasTablePage, PutsSlot};

use domain_memory::{
    DomainMemory, FilesetNo, Home, MetaPages, OutOfMemory, Page, ReplacedSlot, SlotItem,
    StagedPages,
};
use std::alloc::Global;

/// A copy of the page that stands there.
fn copy_page(pages: &StagedPages, alloc: Global, home: &Home) -> Result<Page, OutOfMemory>
    requires { IsSome (pages_of pages.now home.now) }
{
    let Some(page) = pages.get(*home) else {
        unreachable!();
    };
    page.copy(alloc)
}

/// Puts this into a slot, if no slot was set anew before, and writes the page of the table. At an
/// Err nothing has changed.
pub fn put_in_table(
    memory: &mut DomainMemory,
    alloc: Global,
    number: FilesetNo,
    item: SlotItem,
) -> Result<(), OutOfMemory>
    requires table { IsTable (with_slot number item memory.old.table) }
    requires there { HasTablePage memory.old }
    ensures ok { OnOk result (PutsSlot number item memory.old memory.new) }
    ensures err { OnErr result (memory.new ≡ memory.old) }
{
    let Some(home) = memory.frame.anchor.table else {
        unreachable!();
    };
    let mut page = copy_page(&memory.pages, alloc, &home)?;
    let had = memory.table.replace_slot(number, item);
    memory.table.write(&mut page);
    memory.pages.put(home, page);
    memory.was = Some(ReplacedSlot { number, item: had });
    Ok(())
}
