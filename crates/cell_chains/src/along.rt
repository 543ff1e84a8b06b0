//! Cells of a chain, looked at one after the other.
ghost use Rattle.std.specs.Prelude.{◌≡◌, ◌⊎◌, ◌↔◌, ℕ, OnOk};
ghost use Rattle.metadata_cells.specs.domain_base.declared.place.Home.{Home};
ghost use Rattle.metadata_cells.specs.CellPage.{home_of};
ghost use Rattle.metadata_cells.specs.sorted_sets.Members.{IsIn as IsHomeIn};
ghost use Rattle.metadata_cells.specs.sorted_sets.SpanMembers.{HasAnyOf, HasNumber};
ghost use Rattle.cell_chains.specs.Says.{SaysAgain, SaysAt};

use crate::said::{Said, read_spans};
use metadata_cells::{CellAt, Home, HomeSet, MetaPages, OutOfMemory, Span, SpanSet};
use std::alloc::Global;

/// Puts the page of a cell into a set, if one of the spans has a number that was said.
fn insert_met(
    said: &SpanSet,
    spans: &[Span],
    at: &CellAt,
    found: &mut HomeSet,
) -> Result<(), OutOfMemory>
    ensures { OnOk result ((home : Home) → IsHomeIn found.new home ↔ (IsHomeIn found.old home
        ⊎ ((home_of at.now ≡ home) × ((n : ℕ) × HasAnyOf spans.now n × HasNumber said.now n)))) }
{
    if said.has_any(spans) {
        found.insert(&Home {
            vol: at.vol,
            page: at.page,
        })?;
    }
    Ok(())
}

/// Puts the page of a cell into a set, if the cell says what was said before, and adds all that it
/// says to what was said.
fn look_at<M: MetaPages>(
    alloc: Global,
    pages: &M,
    what: Said,
    at: &CellAt,
    said: &mut SpanSet,
    found: &mut HomeSet,
) -> Result<(), OutOfMemory>
    ensures found { OnOk result ((home : Home) → IsHomeIn found.new home ↔ (IsHomeIn found.old home
        ⊎ ((home_of at.now ≡ home) × ((n : ℕ) × SaysAt (M.pages pages.now) what at.now n
        × HasNumber said.old n)))) }
    ensures said { OnOk result ((n : ℕ) → HasNumber said.new n ↔ (HasNumber said.old n
        ⊎ SaysAt (M.pages pages.now) what at.now n)) }
{
    let spans = read_spans(alloc, pages, what, at)?;
    insert_met(said, &spans, at, found)?;
    said.insert_all(&spans)?;
    Ok(())
}

/// Puts into a set the pages of those cells that say what a cell before them says.
pub(crate) fn look_along<M: MetaPages>(
    alloc: Global,
    pages: &M,
    what: Said,
    cells: &[CellAt],
    found: &mut HomeSet,
) -> Result<(), OutOfMemory>
    ensures { OnOk result ((home : Home) → IsHomeIn found.new home ↔ (IsHomeIn found.old home
        ⊎ SaysAgain (M.pages pages.now) what cells.now home)) }
{
    let mut said = SpanSet::new(alloc);
    for at in cells {
        look_at(alloc, pages, what, at, &mut said, found)?;
    }
    Ok(())
}
