//! One entry of a page among the pages of metadata.
ghost use Rattle.std.specs.Prelude.{◌≡◌, ◌<◌, IfSome, IsSomeAnd, Some, false, true};
ghost use Rattle.tag_dirs.specs.TagPage.{IsInFront, IsTagPage, next_of};
ghost use Rattle.tag_dirs.specs.Directory.{CanHave, ChangesAt, EndsAt, Leads, LinksAt, Unlinks};

use crate::page::{TagEntry, can_take, entry_bytes, leads_to, next_bytes, read_entry};
use metadata_cells::{Home, MetaPages};

/// Whether an entry of the tag page that stands there may be taken.
fn can_take_at<M: MetaPages>(pages: &M, home: &Home, place: usize) -> bool
    requires page { IsSomeAnd (M.pages pages.now home.now) IsTagPage }
    requires place { place < 1022 }
{
    match pages.get(*home) {
        Some(page) => can_take(&read_entry(page, place)),
        None => false,
    }
}

/// Changes an entry of the tag page that stands there, in place, and returns whether the old entry
/// could be taken. All other entries and pages stay.
pub(crate) fn change_entry<M: MetaPages>(
    pages: &mut M,
    home: &Home,
    place: usize,
    entry: &TagEntry,
) -> bool
    requires page { IsSomeAnd (M.pages pages.old home.now) (CanHave place entry.now) }
    requires place { place < 1022 }
    ensures changes { ChangesAt home.now place entry.now (M.pages pages.old) (M.pages pages.new) }
    ensures room { M.room pages.new ≡ M.room pages.old }
    ensures before { M.before pages.new ≡ M.before pages.old }
{
    let before = can_take_at(pages, home, place);
    pages.set(*home, 16 + 8 * place, &entry_bytes(entry));
    before
}

/// Makes the tag page that stands there lead to another next page, in place.
fn change_next<M: MetaPages>(pages: &mut M, home: &Home, next: &Home)
    requires { IsSomeAnd (M.pages pages.old home.now) IsTagPage }
    ensures changes { LinksAt home.now next.now (M.pages pages.old) (M.pages pages.new) }
    ensures room { M.room pages.new ≡ M.room pages.old }
    ensures before { M.before pages.new ≡ M.before pages.old }
{
    pages.set(*home, 8, &next_bytes(next));
}

/// Makes the page at a home lead to no next page.
fn lead_nowhere<M: MetaPages>(pages: &mut M, home: &Home, next: &Home)
    requires { IsSomeAnd (M.pages pages.old home.now) (IsInFront next.now) }
    ensures ends { EndsAt home.now next.now (M.pages pages.old) (M.pages pages.new) }
    ensures room { M.room pages.new ≡ M.room pages.old }
    ensures before { M.before pages.new ≡ M.before pages.old }
{
    pages.set(*home, 8, &[0; 8]);
}

/// Whether the page at a home says that the next page stands at another home.
fn is_in_front<M: MetaPages>(pages: &M, home: &Home, next: &Home) -> bool
    ensures yes { result ≡ true → IsSomeAnd (M.pages pages.now home.now) (IsInFront next.now) }
    ensures no { result ≡ false → IfSome (M.pages pages.now home.now)
        (λ page. ¬ next_of page ≡ Some next.now) }
{
    match pages.get(*home) {
        Some(page) => leads_to(page, next),
        None => false,
    }
}

/// Makes the page at `front`, if a home is given and its page leads to `next`, lead to no next page
/// of its directory, so that `next` can be given back. Takes no memory.
pub fn unlink_page<M: MetaPages>(pages: &mut M, front: &Option<Home>, next: &Home)
    ensures unlinks { Unlinks front.now next.now (M.pages pages.old) (M.pages pages.new) }
    ensures room { M.room pages.new ≡ M.room pages.old }
    ensures before { M.before pages.new ≡ M.before pages.old }
{
    let Some(home) = front else {
        return;
    };
    if is_in_front(pages, home, next) {
        lead_nowhere(pages, home, next);
    }
}

/// Makes the page at a home, if one is given, lead to another next page.
pub(crate) fn lead_on<M: MetaPages>(pages: &mut M, last: &Option<Home>, next: &Home)
    requires { IfSome last.now (λ home. IsSomeAnd (M.pages pages.old home) IsTagPage) }
    ensures leads { Leads last.now next.now (M.pages pages.old) (M.pages pages.new) }
    ensures room { M.room pages.new ≡ M.room pages.old }
    ensures before { M.before pages.new ≡ M.before pages.old }
{
    if let Some(home) = last {
        change_next(pages, home, next);
    }
}
