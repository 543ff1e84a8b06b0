//! The list of what is to be let go of, as first cells say it, and the files that read through
//! others.
ghost use Rattle.std.specs.Prelude.{◌↔◌, IfOk, IsTrue, OnOk};
ghost use Rattle.domain_memory.specs.domain_base.declared.place.CellAt.{CellAt};
ghost use Rattle.cell_faults.specs.Links.{AreLinks};
ghost use Rattle.domain_memory.specs.domain_layout.Faults.{HasNoTablesFault};
ghost use Rattle.domain_memory.specs.domain_layout.Layout.{IsLayout, Layout};
ghost use Rattle.domain_memory.specs.domain_layout.Owners.{frame_of};
ghost use Rattle.no_faults.specs.Listing.{AddsLeft, AreAlone, SaysLeft, SaysThrough};
ghost use Rattle.domain_memory.specs.domain_standing.Sources.{HasSource};
ghost use Rattle.no_faults.specs.ToDo.{ListsToDo};

use cell_faults::CellLinks;
use domain_memory::{
    CellAt, CellKind, Deferred, MetaPages, OutOfMemory, Record, find_record, read_used,
};
use std::alloc::Global;

/// Whether the first cell of a file stands at a place and says what is left to be done for the
/// file.
fn says_left<M: MetaPages>(alloc: Global, pages: &M, at: &CellAt) -> Result<bool, OutOfMemory>
    ensures { IfOk result (λ says. IsTrue says ↔ SaysLeft (M.pages pages.now) at.now) }
{
    let Some(used) = read_used(alloc, pages, *at)? else {
        return Ok(false);
    };
    let left = find_record(pages, *at, 6);
    Ok(matches!(used.head.kind, CellKind::Primary) && matches!(left, Some(Record::Pending { .. })))
}

/// Whether the first cell of a file stands at a place and says through which one the file is read.
fn says_through<M: MetaPages>(alloc: Global, pages: &M, at: &CellAt) -> Result<bool, OutOfMemory>
    ensures { IfOk result (λ says. IsTrue says ↔ SaysThrough (M.pages pages.now) at.now) }
{
    let Some(used) = read_used(alloc, pages, *at)? else {
        return Ok(false);
    };
    let source = find_record(pages, *at, 2);
    Ok(
        matches!(used.head.kind, CellKind::Primary)
            && matches!(
                source,
                Some(Record::CloneFile {
                    source_vol: 1..,
                    ..
                })
            ),
    )
}

/// Puts the file that begins at a cell on the list, if its first cell says that something is left
/// to be done for it.
fn add_left<M: MetaPages>(
    alloc: Global,
    pages: &M,
    at: &CellAt,
    list: &mut Deferred,
) -> Result<(), OutOfMemory>
    requires { AreAlone list.old.list }
    ensures { OnOk result (AddsLeft (M.pages pages.now) at.now list.old.list list.new.list) }
{
    if says_left(alloc, pages, at)? {
        list.add(*at, None)?;
    }
    Ok(())
}

/// The list of the files for which something is left to be done, as their first cells say: for a
/// file that was cut, the pages that it does not keep, and for a file that is to be removed, all of
/// it. No tag page is on it. `links` is what is read of each cell in use.
pub fn read_list<M: MetaPages>(
    alloc: Global,
    pages: &M,
    links: &CellLinks,
) -> Result<Deferred, OutOfMemory>
    ensures { IfOk result (λ list. (layout : Layout) → IsLayout (M.pages pages.now) layout
        → HasNoTablesFault (M.pages pages.now) (frame_of layout)
        → AreLinks (M.pages pages.now) (frame_of layout) links.now
        → ListsToDo (M.pages pages.now) layout list.list) }
{
    let mut list = Deferred::new(alloc);
    for (_, (at, _)) in links.as_slice() {
        add_left(alloc, pages, at, &mut list)?;
    }
    Ok(list)
}

/// Whether some file is read through another one: a file of a clone, of what is being removed, or
/// of what is to be removed. `links` is what is read of each cell in use.
pub fn has_readers<M: MetaPages>(
    alloc: Global,
    pages: &M,
    links: &CellLinks,
) -> Result<bool, OutOfMemory>
    ensures { IfOk result (λ found. (layout : Layout) → IsLayout (M.pages pages.now) layout
        → HasNoTablesFault (M.pages pages.now) (frame_of layout)
        → AreLinks (M.pages pages.now) (frame_of layout) links.now
        → IsTrue found ↔ ((at : CellAt) × HasSource (M.pages pages.now) layout at)) }
{
    let mut found = false;
    for (_, (at, _)) in links.as_slice() {
        let says = says_through(alloc, pages, at)?;
        found = found || says;
    }
    Ok(found)
}
