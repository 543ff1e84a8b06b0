//! Bringing the pages of a kind, from the first one on.
ghost use Rattle.std.specs.Prelude.{◌≡◌, ◌<◌, IfOk, IsSome, OnOk};
ghost use Rattle.slot_files.specs.log_ring.Homes.{HasMembers};
ghost use Rattle.image_loading.specs.Loading.{Brings, HasUnread, HasWay, NamesCause};
ghost use Rattle.slot_files.specs.page_ways.Frame.{frame_in};
ghost use Rattle.slot_files.specs.page_ways.Walk.{AreRead, IsWalk, next_of, steps_left};

use crate::fault::LoadFault;
use crate::reading::fetch_next;
use slot_files::{DomainFrame, MetaPages, PageWalk, PageWay, Rack, ReadPages};
use std::alloc::Global;

/// Brings the page that is reached next, if it may be of the kind, and goes on to the page to which
/// it leads.
fn load_next<R: Rack, M: MetaPages, W: PageWay>(
    alloc: Global,
    rack: &mut R,
    frame: &DomainFrame,
    way: &W,
    pages: &mut M,
    walk: &mut PageWalk,
) -> Result<(), LoadFault>
    requires members { HasMembers (R.disk rack.old).sizes frame.now.anchor }
    requires walk { IsWalk (M.pages pages.old) (frame_in frame.now) (W.way way.now) walk.old }
    requires next { IsSome (next_of walk.old) }
    ensures brings { Brings (R.disk rack.old) (R.disk rack.new) (M.pages pages.old)
        (M.pages pages.new) }
    ensures walk { OnOk result
        (IsWalk (M.pages pages.new) (frame_in frame.now) (W.way way.now) walk.new) }
    ensures less { OnOk result (steps_left walk.new < steps_left walk.old) }
    ensures unread { OnOk result (HasUnread (M.pages pages.new) (frame_in frame.now) walk.new) }
    ensures fault { NamesCause (R.disk rack.old) (R.disk rack.new) result }
    ensures before { M.before pages.new ≡ M.before pages.old }
{
    let Some(home) = walk.next() else {
        unreachable!()
    };
    fetch_next(alloc, rack, frame, &home, pages)?;
    walk.step(pages, frame, way)?;
    Ok(())
}

/// Brings the pages of a kind from the first one on, as far as each may be of the kind and begins
/// as one. Returns the pages that are then read. After an error some of them may have been brought.
pub fn load_way<R: Rack, M: MetaPages, W: PageWay>(
    alloc: Global,
    rack: &mut R,
    frame: &DomainFrame,
    way: &W,
    pages: &mut M,
) -> Result<ReadPages, LoadFault>
    requires { HasMembers (R.disk rack.old).sizes frame.now.anchor }
    ensures brings { Brings (R.disk rack.old) (R.disk rack.new) (M.pages pages.old)
        (M.pages pages.new) }
    ensures read { IfOk result (λ read. AreRead (M.pages pages.new) (frame_in frame.now)
        (W.way way.now) read.homes.items read.unread) }
    ensures whole { OnOk result (HasWay (M.pages pages.new) (frame_in frame.now) (W.way way.now)) }
    ensures fault { NamesCause (R.disk rack.old) (R.disk rack.new) result }
    ensures before { M.before pages.new ≡ M.before pages.old }
{
    let mut walk = PageWalk::new(alloc, way);
    while walk.next().is_some() {
        load_next(alloc, rack, frame, way, pages, &mut walk)?;
    }
    Ok(walk.finish())
}
