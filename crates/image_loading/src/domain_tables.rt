//! All pages of tables.
ghost use Rattle.std.specs.Prelude.{◌≡◌, IfOk, IsSome, None, OnOk};
ghost use Rattle.image_loading.specs.Tables.{HasNamed, HasTables};
ghost use Rattle.slot_files.specs.fileset_table.Table.{Table};
ghost use Rattle.slot_files.specs.log_ring.Homes.{HasMembers};
ghost use Rattle.image_loading.specs.Loading.{Brings, HasTagPages, NamesCause};
ghost use Rattle.slot_files.specs.page_ways.Frame.{frame_in};
ghost use Rattle.slot_files.specs.cell_faults.Read.{IsTableRead, wrong_home_of};
ghost use Rattle.slot_files.specs.cell_faults.declared.reading.TableRead.TheVariants.{There};

use crate::{LoadFault, load_bitmaps, load_cells, load_table, load_tags};
use slot_files::{DomainFrame, MetaPages, Rack, TableRead, read_table};
use std::alloc::Global;

/// Brings the pages of the tag directories of a table that was read, if it says one.
#[tactic(auto, using(crate::proofs::Brought::brings_none))]
fn load_its_tags<R: Rack, M: MetaPages>(
    alloc: Global,
    rack: &mut R,
    frame: &DomainFrame,
    read: &TableRead,
    pages: &mut M,
) -> Result<(), LoadFault>
    requires { HasMembers (R.disk rack.old).sizes frame.now.anchor }
    ensures brings { Brings (R.disk rack.old) (R.disk rack.new) (M.pages pages.old)
        (M.pages pages.new) }
    ensures tags { OnOk result ((table : Table) → read.now ≡ There table
        → HasTagPages (M.pages pages.new) (frame_in frame.now) table) }
    ensures fault { NamesCause (R.disk rack.old) (R.disk rack.new) result }
    ensures before { M.before pages.new ≡ M.before pages.old }
{
    match read {
        TableRead::There { table } => load_tags(alloc, rack, frame, table, pages),
        _ => Ok(()),
    }
}

/// Brings the pages of bitmaps and cells, and of the tag directories of a table that was read.
fn load_named<R: Rack, M: MetaPages>(
    alloc: Global,
    rack: &mut R,
    frame: &DomainFrame,
    read: &TableRead,
    pages: &mut M,
) -> Result<(), LoadFault>
    requires { HasMembers (R.disk rack.old).sizes frame.now.anchor }
    ensures brings { Brings (R.disk rack.old) (R.disk rack.new) (M.pages pages.old)
        (M.pages pages.new) }
    ensures whole { OnOk result (HasNamed (M.pages pages.new) (frame_in frame.now) read.now) }
    ensures fault { NamesCause (R.disk rack.old) (R.disk rack.new) result }
    ensures before { M.before pages.new ≡ M.before pages.old }
{
    load_bitmaps(alloc, rack, frame, pages)?;
    load_cells(alloc, rack, frame, pages)?;
    load_its_tags(alloc, rack, frame, read, pages)?;
    Ok(())
}

/// Brings the pages of bitmaps and cells, and of the tag directories of a table that was read, if
/// the table breaks no rule of its own; otherwise nothing is brought.
#[tactic(auto, using(crate::proofs::Brought::brings_none))]
fn load_behind<R: Rack, M: MetaPages>(
    alloc: Global,
    rack: &mut R,
    frame: &DomainFrame,
    read: &TableRead,
    pages: &mut M,
) -> Result<(), LoadFault>
    requires { HasMembers (R.disk rack.old).sizes frame.now.anchor }
    ensures brings { Brings (R.disk rack.old) (R.disk rack.new) (M.pages pages.old)
        (M.pages pages.new) }
    ensures wrong { IsSome (wrong_home_of read.now) → M.pages pages.new ≡ M.pages pages.old }
    ensures whole { OnOk result (wrong_home_of read.now ≡ None
        → HasNamed (M.pages pages.new) (frame_in frame.now) read.now) }
    ensures fault { NamesCause (R.disk rack.old) (R.disk rack.new) result }
    ensures before { M.before pages.new ≡ M.before pages.old }
{
    if read.wrong_home().is_some() {
        return Ok(());
    }
    load_named(alloc, rack, frame, read, pages)
}

/// Brings the page of the fileset table, and if it breaks no rule, the pages of bitmaps and cells,
/// and of the tag directories of the table that it says. Returns what was read of that page. After
/// an error some of the pages may have been brought.
pub fn load_tables<R: Rack, M: MetaPages>(
    alloc: Global,
    rack: &mut R,
    frame: &DomainFrame,
    pages: &mut M,
) -> Result<TableRead, LoadFault>
    requires { HasMembers (R.disk rack.old).sizes frame.now.anchor }
    ensures brings { Brings (R.disk rack.old) (R.disk rack.new) (M.pages pages.old)
        (M.pages pages.new) }
    ensures read { IfOk result (IsTableRead (M.pages pages.new) (frame_in frame.now)) }
    ensures whole { OnOk result (HasTables (M.pages pages.new) (frame_in frame.now)) }
    ensures fault { NamesCause (R.disk rack.old) (R.disk rack.new) result }
    ensures before { M.before pages.new ≡ M.before pages.old }
{
    load_table(alloc, rack, frame, pages)?;
    let read = read_table(alloc, pages, frame)?;
    load_behind(alloc, rack, frame, &read, pages)?;
    Ok(read)
}
