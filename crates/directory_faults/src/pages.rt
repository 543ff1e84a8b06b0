//! Pages of directories that are not pages of rows.
ghost use Rattle.std.specs.Prelude.{◌≡◌, ◌⊎◌, ◌↔◌, ℕ, IsTrue, OnOk, Some};
ghost use Rattle.fileset_shapes.specs.domain_base.declared.place.Home.{Home};
ghost use Rattle.fileset_shapes.specs.domain_base.declared.place.Kind.TheVariants.{Directory};
ghost use Rattle.fileset_shapes.specs.fileset_table.Table.{Table};
ghost use Rattle.fileset_shapes.specs.sorted_sets.Members.{IsIn};
ghost use Rattle.fileset_shapes.specs.page_ways.Frame.{frame_in};
ghost use Rattle.directory_faults.specs.Pages.{HasWrongRowPage, IsBadAmong, IsBadPage};
ghost use Rattle.directory_faults.specs.There.{AreFilesIn};

use crate::there::FileThere;
use fileset_shapes::{DomainFrame, Home, HomeSet, Kind, MetaPages, OutOfMemory, is_row_page};

/// Whether a page that stands at a home of a member is not a page of rows.
fn is_bad_page<M: MetaPages>(pages: &M, frame: &DomainFrame, home: &Home) -> bool
    ensures { IsTrue result ↔ IsBadPage (M.pages pages.now) (frame_in frame.now) home.now }
{
    if !frame.is_within(home) {
        return false;
    }
    match pages.get(*home) {
        Some(page) => !is_row_page(page),
        None => false,
    }
}

/// Puts a home into a set, if the page there is not a page of rows.
fn insert_bad<M: MetaPages>(
    pages: &M,
    frame: &DomainFrame,
    home: &Option<Home>,
    found: &mut HomeSet,
) -> Result<(), OutOfMemory>
    ensures { OnOk result ((other : Home) → IsIn found.new other ↔ (IsIn found.old other
        ⊎ ((home.now ≡ Some other) × IsBadPage (M.pages pages.now) (frame_in frame.now) other))) }
{
    let Some(home) = home else {
        return Ok(());
    };
    if is_bad_page(pages, frame, home) {
        found.insert(home)?;
    }
    Ok(())
}

/// Puts into a set those of the homes at which no page of rows stands.
fn insert_bad_pages<M: MetaPages>(
    pages: &M,
    frame: &DomainFrame,
    homes: &[Option<Home>],
    found: &mut HomeSet,
) -> Result<(), OutOfMemory>
    ensures { OnOk result ((other : Home) → IsIn found.new other ↔ (IsIn found.old other
        ⊎ IsBadAmong (M.pages pages.now) (frame_in frame.now) homes.now other)) }
{
    for home in homes {
        insert_bad(pages, frame, home, found)?;
    }
    Ok(())
}

/// Puts into a set those homes of the pages of a directory at which no page of rows stands. A file
/// has none.
fn insert_of_file<M: MetaPages>(
    pages: &M,
    frame: &DomainFrame,
    file: &FileThere,
    found: &mut HomeSet,
) -> Result<(), OutOfMemory>
    ensures { OnOk result ((other : Home) → IsIn found.new other ↔ (IsIn found.old other
        ⊎ ((file.now.seen.is.kind ≡ Directory)
        × IsBadAmong (M.pages pages.now) (frame_in frame.now) file.now.seen.homes.items other))) }
{
    match file.seen.is.kind {
        Kind::Directory => insert_bad_pages(pages, frame, &file.seen.homes, found),
        Kind::File => Ok(()),
    }
}

/// Puts into a set the pages of a fileset's directories that are not pages of rows, from its files
/// and directories.
pub fn insert_row_pages<M: MetaPages>(
    pages: &M,
    frame: &DomainFrame,
    files: &[FileThere],
    found: &mut HomeSet,
) -> Result<(), OutOfMemory>
    ensures { OnOk result ((table : Table) (number : ℕ)
        → AreFilesIn (M.pages pages.now) (frame_in frame.now) table number files.now
        → (home : Home) → IsIn found.new home ↔ (IsIn found.old home
        ⊎ HasWrongRowPage (M.pages pages.now) (frame_in frame.now) table number home)) }
{
    for file in files {
        insert_of_file(pages, frame, file, found)?;
    }
    Ok(())
}
