//! The homes of the pages of directories.
ghost use Rattle.std.specs.Prelude.{◌≡◌, ℕ, IfOk, OnOk, Some};
ghost use Rattle.slot_files.specs.domain_base.declared.place.Home.{Home as HomeOf};
ghost use Rattle.slot_files.specs.domain_layout.Faults.{HasNoTablesFault};
ghost use Rattle.slot_files.specs.filesets_reading.Seen.{home_in};
ghost use Rattle.slot_files.specs.filesets_reading.Tables.{AreTablesOf};
ghost use Rattle.slot_files.specs.sorted_sets.Members.{IsIn};
ghost use Rattle.image_loading.specs.Loaded.{Grows, HoldsDirectories};
ghost use Rattle.slot_files.specs.page_ways.Frame.{frame_in};

use slot_files::{
    DomainFrame, DomainTables, FileThere, FilesetNo, Home, HomeSet, MetaPages, OutOfMemory,
    read_slot_files,
};
use std::alloc::Global;

/// Puts the home of a page into a set, if it has one.
fn insert_place(place: &Option<Home>, found: &mut HomeSet) -> Result<(), OutOfMemory>
    ensures grows { OnOk result (Grows found.old found.new) }
    ensures there { OnOk result ((home : HomeOf) → place.now ≡ Some home → IsIn found.new home) }
{
    match place {
        Some(home) => found.insert(home),
        None => Ok(()),
    }
}

/// Puts into a set the homes of the pages that were read of a directory.
fn insert_pages(file: &FileThere, found: &mut HomeSet) -> Result<(), OutOfMemory>
    ensures grows { OnOk result (Grows found.old found.new) }
    ensures pages { OnOk result ((page : ℕ) (home : HomeOf)
        → home_in file.now.seen.homes.items page ≡ Some home → IsIn found.new home) }
{
    for place in &file.seen.homes {
        insert_place(place, found)?;
    }
    Ok(())
}

/// Puts into a set the homes of the pages of all directories of the fileset in a slot, as far as
/// these are a member's.
fn insert_slot<M: MetaPages>(
    alloc: Global,
    pages: &M,
    frame: &DomainFrame,
    tables: &DomainTables,
    number: FilesetNo,
    found: &mut HomeSet,
) -> Result<(), OutOfMemory>
    requires tables { AreTablesOf (M.pages pages.now) (frame_in frame.now) tables.now }
    requires no_fault { HasNoTablesFault (M.pages pages.now) (frame_in frame.now) }
    ensures grows { OnOk result (Grows found.old found.new) }
    ensures pages { OnOk result (HoldsDirectories (M.pages pages.now) (frame_in frame.now)
        tables.now.filesets number found.new) }
{
    let files = read_slot_files(alloc, pages, frame, tables, number)?;
    for file in &files {
        insert_pages(file, found)?;
    }
    Ok(())
}

/// The homes of the pages of all directories, as far as these are a member's.
pub(crate) fn directory_homes<M: MetaPages>(
    alloc: Global,
    pages: &M,
    frame: &DomainFrame,
    tables: &DomainTables,
) -> Result<HomeSet, OutOfMemory>
    requires tables { AreTablesOf (M.pages pages.now) (frame_in frame.now) tables.now }
    requires no_fault { HasNoTablesFault (M.pages pages.now) (frame_in frame.now) }
    ensures { IfOk result (λ found. (number : ℕ) → HoldsDirectories (M.pages pages.now)
        (frame_in frame.now) tables.now.filesets number found) }
{
    let mut found = HomeSet::new(alloc);
    for n in 0..32_u32 {
        let Some(number) = FilesetNo::new(n) else {
            unreachable!()
        };
        insert_slot(alloc, pages, frame, tables, number, &mut found)?;
    }
    Ok(found)
}
