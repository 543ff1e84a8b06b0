//! A tag of a directory that may be taken.
ghost use Rattle.std.specs.Prelude.{◌≡◌, IfNone, IfSome, IsSomeAnd, length};
ghost use Rattle.metadata_cells.specs.domain_base.declared.place.Tag.{Tag};
ghost use Rattle.tag_dirs.specs.TagPage.{HasIndex};
ghost use Rattle.tag_dirs.specs.Directory.{CanTake, HasNone, IsDirectory, IsUsedOn, TakesOn, UsesNone};

use crate::dir::TagPlace;
use crate::guess::{Guess, first_entry};
use crate::page::{ENTRIES, find_takeable, find_used, read_entry};
use metadata_cells::{MetaPages, Tag};

/// A tag of the page at a place that may be taken, of its entries from one on.
fn find_on<M: MetaPages>(pages: &M, place: &TagPlace, from: usize) -> Option<Tag>
    requires { IsSomeAnd (M.pages pages.now place.now.home) (HasIndex place.now.index) }
    ensures some { IfSome result (TakesOn (M.pages pages.now) place.now) }
    ensures none { from ≡ 0 → IfNone result (HasNone (M.pages pages.now) place.now) }
{
    let page = pages.get(place.home)?;
    let first = from.max(first_entry(place.index));
    let entry = find_takeable(page, first)?;
    Some(Tag {
        slot: ENTRIES as u32 * place.index + entry as u32,
        seq: read_entry(page, entry).seq + 1,
    })
}

/// A tag in use of the page at a place.
pub(crate) fn used_on<M: MetaPages>(pages: &M, place: &TagPlace) -> Option<Tag>
    requires { IsSomeAnd (M.pages pages.now place.now.home) (HasIndex place.now.index) }
    ensures some { IfSome result (IsUsedOn (M.pages pages.now) place.now) }
    ensures none { IfNone result (UsesNone (M.pages pages.now) place.now) }
{
    let page = pages.get(place.home)?;
    let entry = find_used(page)?;
    Some(Tag {
        slot: ENTRIES as u32 * place.index + entry as u32,
        seq: read_entry(page, entry).seq,
    })
}

/// A tag of the page at a place that may be taken, searched for where the guess says.
fn guess_on<M: MetaPages>(pages: &M, place: &TagPlace, guess: &mut Guess) -> Option<Tag>
    requires { IsSomeAnd (M.pages pages.now place.now.home) (HasIndex place.now.index) }
    ensures { IfSome result (TakesOn (M.pages pages.now) place.now) }
{
    let start = guess.start()?;
    let found = find_on(pages, place, start);
    guess.note_found(&found);
    found
}

/// A tag of a directory that may be taken, on the first page whose guess says that it has one.
pub(crate) fn guess_in<M: MetaPages>(
    pages: &M,
    places: &[TagPlace],
    guesses: &mut [Guess],
) -> Option<Tag>
    requires directory { IsDirectory (M.pages pages.now) places.now }
    requires guesses { length guesses.old ≡ length places.now }
    ensures { IfSome result (CanTake (M.pages pages.now) places.now) }
{
    for (number, place) in places.iter().enumerate() {
        let found = guess_on(pages, place, &mut guesses[number]);
        if found.is_some() {
            return found;
        }
    }
    None
}

/// A tag of a directory that may be taken, on the first page that has one.
pub(crate) fn find_in<M: MetaPages>(pages: &M, places: &[TagPlace]) -> Option<Tag>
    requires { IsDirectory (M.pages pages.now) places.now }
    ensures some { IfSome result (CanTake (M.pages pages.now) places.now) }
    ensures none { IfNone result ((tag : Tag) → ¬ CanTake (M.pages pages.now) places.now tag) }
{
    for place in places {
        let found = find_on(pages, place, 0);
        if found.is_some() {
            return found;
        }
    }
    None
}
