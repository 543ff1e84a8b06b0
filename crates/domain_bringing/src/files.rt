//! Bringing the pages of files.
ghost use Rattle.std.specs.Prelude.{◌≡◌, ◌+◌, ◌<◌, ◌≤◌, ◌^◌, IfOk, OnOk, Some};
ghost use Rattle.domain_faults.specs.domain_layout.Faults.{HasNoFault, HasNoTablesFault};
ghost use Rattle.domain_faults.specs.cell_chains.Runs.{home_in};
ghost use Rattle.domain_faults.specs.filesets_reading.Good.{IsNamed};
ghost use Rattle.domain_faults.specs.log_ring.Homes.{HasMembers};
ghost use Rattle.image_loading.specs.Loading.{Brings, HasWhereRulesLook, NamesCause};
ghost use Rattle.domain_faults.specs.page_faults.Files.{AreFilePages};
ghost use Rattle.domain_faults.specs.page_ways.Frame.{frame_in};
ghost use Rattle.domain_bringing.specs.Brought.{HasDomainPages, IsLaidOut};
ghost use Rattle.domain_bringing.specs.Files.{HasPagesOf, HasPagesOfAll, IsThereWithin};

use domain_faults::from_filesets_reading::read_tables;
use domain_faults::{
    DomainFrame, FileRun, Home, MetaPages, OutOfMemory, Rack, VolIx, read_links, read_runs,
    read_tables as read_cells,
};
use image_loading::{LoadFault, fetch_within};
use std::alloc::Global;

/// The home of the page of a run that is `number` pages after the first one. None if the number of
/// its volume, or its own, is not allowed.
fn home_behind(run: &FileRun, number: u32) -> Option<Home>
    ensures { 1 ≤ run.now.row.vol → run.now.row.vol ≤ 8 → run.now.row.first + number < 2 ^ 32
        → result ≡ Some (home_in run.now (run.now.row.page + number)) }
{
    Some(Home {
        vol: VolIx::new(run.row.vol)?,
        page: run.row.first.checked_add(number)?,
    })
}

/// Brings that page of a run, if it is a member's.
#[tactic(auto, using(image_loading::proofs::Brought::brings_none))]
fn load_page<R: Rack, M: MetaPages>(
    alloc: Global,
    rack: &mut R,
    frame: &DomainFrame,
    run: &FileRun,
    number: u32,
    pages: &mut M,
) -> Result<(), LoadFault>
    requires { HasMembers (R.disk rack.old).sizes frame.now.anchor }
    ensures brings { Brings (R.disk rack.old) (R.disk rack.new) (M.pages pages.old)
        (M.pages pages.new) }
    ensures there { OnOk result (IsThereWithin (M.pages pages.new) (frame_in frame.now)
        (home_in run.now (run.now.row.page + number))) }
    ensures fault { NamesCause (R.disk rack.old) (R.disk rack.new) result }
    ensures before { M.before pages.new ≡ M.before pages.old }
{
    let Some(home) = home_behind(run, number) else {
        return Ok(());
    };
    fetch_within(alloc, rack, frame, &home, pages)
}

/// Brings the pages of a run, as far as they are a member's.
fn load_run<R: Rack, M: MetaPages>(
    alloc: Global,
    rack: &mut R,
    frame: &DomainFrame,
    run: &FileRun,
    pages: &mut M,
) -> Result<(), LoadFault>
    requires { HasMembers (R.disk rack.old).sizes frame.now.anchor }
    ensures brings { Brings (R.disk rack.old) (R.disk rack.new) (M.pages pages.old)
        (M.pages pages.new) }
    ensures there { OnOk result (HasPagesOf (M.pages pages.new) (frame_in frame.now) run.now) }
    ensures fault { NamesCause (R.disk rack.old) (R.disk rack.new) result }
    ensures before { M.before pages.new ≡ M.before pages.old }
{
    for number in 0..run.row.count {
        load_page(alloc, rack, frame, run, number, pages)?;
    }
    Ok(())
}

/// Brings the pages of runs, as far as they are a member's.
fn load_runs<R: Rack, M: MetaPages>(
    alloc: Global,
    rack: &mut R,
    frame: &DomainFrame,
    runs: &[FileRun],
    pages: &mut M,
) -> Result<(), LoadFault>
    requires { HasMembers (R.disk rack.old).sizes frame.now.anchor }
    ensures brings { Brings (R.disk rack.old) (R.disk rack.new) (M.pages pages.old)
        (M.pages pages.new) }
    ensures there { OnOk result
        (HasPagesOfAll (M.pages pages.new) (frame_in frame.now) runs.now) }
    ensures fault { NamesCause (R.disk rack.old) (R.disk rack.new) result }
    ensures before { M.before pages.new ≡ M.before pages.old }
{
    for run in runs {
        load_run(alloc, rack, frame, run, pages)?;
    }
    Ok(())
}

/// The runs of files' pages that the cells in use of a domain say.
fn runs_of<M: MetaPages>(
    alloc: Global,
    pages: &M,
    frame: &DomainFrame,
) -> Result<Vec<FileRun>, OutOfMemory>
    requires named { IsNamed frame.now.anchor frame.now.version }
    requires no_fault { HasNoTablesFault (M.pages pages.now) (frame_in frame.now) }
    ensures runs { IfOk result (λ runs.
        AreFilePages (M.pages pages.now) (frame_in frame.now) runs.items) }
    ensures laid { IfOk result (λ _. IsLaidOut (M.pages pages.now) (frame_in frame.now)) }
{
    let _tables = read_tables(alloc, pages, &frame.anchor, frame.version)?;
    let cells = read_cells(alloc, pages, frame)?;
    let links = read_links(alloc, pages, frame, &cells)?;
    let runs = read_runs(alloc, pages, &links)?;
    Ok(runs)
}

/// Brings each page of a member that is a file's according to a cell in use, if no rule is broken
/// and each page at which the rules look is there. After an error some of the pages may have been
/// brought.
pub(crate) fn load_files<R: Rack, M: MetaPages>(
    alloc: Global,
    rack: &mut R,
    frame: &DomainFrame,
    pages: &mut M,
) -> Result<(), LoadFault>
    requires members { HasMembers (R.disk rack.old).sizes frame.now.anchor }
    requires named { IsNamed frame.now.anchor frame.now.version }
    requires no_fault { HasNoFault (M.pages pages.old) (frame_in frame.now) }
    requires looked { HasWhereRulesLook (M.pages pages.old) (frame_in frame.now) }
    ensures brings { Brings (R.disk rack.old) (R.disk rack.new) (M.pages pages.old)
        (M.pages pages.new) }
    ensures whole { OnOk result (HasDomainPages (M.pages pages.new) (frame_in frame.now)) }
    ensures fault { NamesCause (R.disk rack.old) (R.disk rack.new) result }
    ensures before { M.before pages.new ≡ M.before pages.old }
{
    let runs = runs_of(alloc, pages, frame)?;
    load_runs(alloc, rack, frame, &runs, pages)
}
