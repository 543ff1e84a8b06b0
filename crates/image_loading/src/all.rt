//! Bringing all pages at which the rules look.
ghost use Rattle.std.specs.Prelude.{◌≡◌, List, OnOk};
ghost use Rattle.slot_files.specs.domain_layout.Faults.{HasNoTablesFault};
ghost use Rattle.image_loading.specs.Tables.{HasTables};
ghost use Rattle.slot_files.specs.domain_layout.Looks.{AgreeWhereRulesLook};
ghost use Rattle.slot_files.specs.filesets_reading.Good.{IsNamed};
ghost use Rattle.image_loading.specs.Loaded.{BringsFiles};
ghost use Rattle.slot_files.specs.log_ring.Groups.{Group, redone};
ghost use Rattle.slot_files.specs.log_ring.Homes.{HasMembers};
ghost use Rattle.slot_files.specs.fileset_shapes.Within.{IsInside};
ghost use Rattle.image_loading.specs.Loading.{AreImagesOf, Brings, HasCells, HasWhereRulesLook, NamesCause};
ghost use Rattle.slot_files.specs.page_ways.Frame.{frame_in};
ghost use Rattle.slot_files.specs.cell_faults.Read.{IsTableRead, IsWholeTable};
ghost use Rattle.slot_files.specs.volume_disk.Disk.{Tells};

use crate::broken::has_tables_fault;
use crate::directories::directory_homes;
use crate::homes::load_homes;
use crate::{LoadFault, load_indexes, load_tables};
use slot_files::from_filesets_reading::read_tables;
use slot_files::{
    DomainFrame, FilesetTable, MetaPages, Rack, TableRead, read_links, read_tables as read_cells,
};
use std::alloc::Global;

/// Brings the pages of indexes and directories, if no rule of tables is broken.
fn load_files<R: Rack, M: MetaPages>(
    alloc: Global,
    rack: &mut R,
    frame: &DomainFrame,
    pages: &mut M,
) -> Result<(), LoadFault>
    requires members { HasMembers (R.disk rack.old).sizes frame.now.anchor }
    requires named { IsNamed frame.now.anchor frame.now.version }
    requires cells { HasCells (M.pages pages.old) (frame_in frame.now) }
    requires no_fault { HasNoTablesFault (M.pages pages.old) (frame_in frame.now) }
    ensures brings { Brings (R.disk rack.old) (R.disk rack.new) (M.pages pages.old)
        (M.pages pages.new) }
    ensures files { OnOk result (BringsFiles (M.pages pages.old) (M.pages pages.new)
        (frame_in frame.now)) }
    ensures fault { NamesCause (R.disk rack.old) (R.disk rack.new) result }
    ensures before { M.before pages.new ≡ M.before pages.old }
{
    let tables = read_tables(alloc, pages, &frame.anchor, frame.version)?;
    let homes = directory_homes(alloc, pages, frame, &tables)?;
    let cells = read_cells(alloc, pages, frame)?;
    let links = read_links(alloc, pages, frame, &cells)?;
    load_indexes(alloc, rack, frame, &links, pages)?;
    load_homes(alloc, rack, frame, &homes, pages)
}

/// Brings the pages of indexes and directories, by the table that the page of the fileset table
/// says. Nothing is brought if a rule of tables is broken.
#[tactic(auto, using(crate::proofs::Brought::brings_none))]
fn load_said<R: Rack, M: MetaPages>(
    alloc: Global,
    rack: &mut R,
    frame: &DomainFrame,
    table: &FilesetTable,
    pages: &mut M,
) -> Result<(), LoadFault>
    requires members { HasMembers (R.disk rack.old).sizes frame.now.anchor }
    requires named { IsNamed frame.now.anchor frame.now.version }
    requires table { IsWholeTable (M.pages pages.old) (frame_in frame.now) table.now }
    requires tables { HasTables (M.pages pages.old) (frame_in frame.now) }
    ensures brings { Brings (R.disk rack.old) (R.disk rack.new) (M.pages pages.old)
        (M.pages pages.new) }
    ensures files { OnOk result (HasNoTablesFault (M.pages pages.old) (frame_in frame.now)
        → BringsFiles (M.pages pages.old) (M.pages pages.new) (frame_in frame.now)) }
    ensures fault { NamesCause (R.disk rack.old) (R.disk rack.new) result }
    ensures before { M.before pages.new ≡ M.before pages.old }
{
    let is_broken = has_tables_fault(alloc, pages, frame, table)?;
    if is_broken {
        return Ok(());
    }
    load_files(alloc, rack, frame, pages)
}

/// Brings the pages of indexes and directories, by what was read of the page of the fileset table.
#[tactic(auto, using(crate::proofs::Brought::brings_none))]
fn load_behind<R: Rack, M: MetaPages>(
    alloc: Global,
    rack: &mut R,
    frame: &DomainFrame,
    read: &TableRead,
    pages: &mut M,
) -> Result<(), LoadFault>
    requires members { HasMembers (R.disk rack.old).sizes frame.now.anchor }
    requires named { IsNamed frame.now.anchor frame.now.version }
    requires read { IsTableRead (M.pages pages.old) (frame_in frame.now) read.now }
    requires tables { HasTables (M.pages pages.old) (frame_in frame.now) }
    ensures brings { Brings (R.disk rack.old) (R.disk rack.new) (M.pages pages.old)
        (M.pages pages.new) }
    ensures files { OnOk result (HasNoTablesFault (M.pages pages.old) (frame_in frame.now)
        → BringsFiles (M.pages pages.old) (M.pages pages.new) (frame_in frame.now)) }
    ensures fault { NamesCause (R.disk rack.old) (R.disk rack.new) result }
    ensures before { M.before pages.new ≡ M.before pages.old }
{
    match read {
        TableRead::There { table } => load_said(alloc, rack, frame, table, pages),
        _ => Ok(()),
    }
}

/// Brings each page at which the rules of a domain look and that is not there yet: the page of the
/// fileset table, those of bitmaps, cells and tag directories, and if these break no rule, those of
/// indexes and directories. If the table and the bitmaps stand on pages of members, and the pages
/// that were there are the images of groups of a log, then wherever the rules look the pages agree
/// with the rack's contents once the log is redone, and so have the same faults. A fault names the
/// volume whose read failed. After an error some of the pages may have been brought.
pub fn load<R: Rack, M: MetaPages>(
    alloc: Global,
    rack: &mut R,
    frame: &DomainFrame,
    pages: &mut M,
) -> Result<(), LoadFault>
    requires members { HasMembers (R.disk rack.old).sizes frame.now.anchor }
    requires named { IsNamed frame.now.anchor frame.now.version }
    ensures brings { Brings (R.disk rack.old) (R.disk rack.new) (M.pages pages.old)
        (M.pages pages.new) }
    ensures whole { IsInside (frame_in frame.now)
        → OnOk result (HasWhereRulesLook (M.pages pages.new) (frame_in frame.now)) }
    ensures agree { (groups : List Group) → IsInside (frame_in frame.now)
        → let old = R.disk rack.old in Tells old → AreImagesOf groups (M.pages pages.old)
        → OnOk result (AgreeWhereRulesLook (M.pages pages.new)
        (redone groups old.now.contents) (frame_in frame.now)) }
    ensures fault { NamesCause (R.disk rack.old) (R.disk rack.new) result }
    ensures before { M.before pages.new ≡ M.before pages.old }
{
    let read = load_tables(alloc, rack, frame, pages)?;
    load_behind(alloc, rack, frame, &read, pages)
}
