//! Runs of files' pages as spans of the pages of a volume.
ghost use Rattle.std.specs.Prelude.{◌≡◌, ◌++◌, ◌∷◌, [], OnOk};
ghost use Rattle.cell_chains.specs.Runs.{span_of as span_there, spans_on};

use metadata_cells::{CellAt, ExtentField, OutOfMemory, Span, VolIx};

/// Pages of a file that stand one after the other, as a row of a record of a cell says.
#[derive(Clone, Copy, Debug, PartialEq, Eq)]
pub struct FileRun {
    pub at: CellAt,
    pub row: ExtentField,
}

/// The pages of its volume that a run has.
pub fn span_of(run: &FileRun) -> Span
    ensures { result ≡ span_there run.now }
{
    let from = u64::from(run.row.first);
    Span {
        from,
        to: from + u64::from(run.row.count),
    }
}

/// Appends the pages of a run to other spans, if it stands on a volume.
fn push_run(run: &FileRun, vol: VolIx, spans: &mut Vec<Span>) -> Result<(), OutOfMemory>
    ensures { OnOk result (spans.new.items ≡ spans.old.items ++ spans_on vol (run.now ∷ [])) }
{
    if run.row.vol == vol.number() {
        spans.push(span_of(run))?;
    }
    Ok(())
}

/// Appends to other spans the pages of those runs that stand on a volume.
pub fn push_runs(runs: &[FileRun], vol: VolIx, spans: &mut Vec<Span>) -> Result<(), OutOfMemory>
    ensures { OnOk result (spans.new.items ≡ spans.old.items ++ spans_on vol runs.now) }
{
    for run in runs {
        push_run(run, vol, spans)?;
    }
    Ok(())
}
