//! A file or directory as an original has it.
ghost use Rattle.std.specs.Prelude.{◌≡◌, ◌≤◌, ℕ, IfOk, IfSome, length};
ghost use Rattle.std.specs.Option.{option_and_then};
ghost use Rattle.domain_layout.specs.domain_base.Limits.{file_pages};
ghost use Rattle.domain_layout.specs.extent_maps.Runs.{AreRuns, place_of};
ghost use Rattle.domain_layout.specs.extent_maps.declared.run.PagePlace.TheVariants.{Absent};
ghost use Rattle.domain_layout.specs.extent_records.Writing.{places_before};
ghost use Rattle.domain_layout.specs.fileset_files.Files.{AreFiles, Chains, HasFiles};
ghost use Rattle.domain_layout.specs.Seen.{seen_in};
ghost use Rattle.filesets_reading.specs.Seen.{HasFewHomes, IsSeenThere, ListsHomes};

use domain_layout::{Attributes, Bitfiles, ExtentMap, Home, MetaPages, OutOfMemory, Run, Tag};
use std::alloc::Global;

/// What a file or directory is, and the home of each page from page 0 on, None if it does not have
/// that page. After the last one it has no page.
#[derive(Drop)]
pub struct SeenPages {
    pub is: Attributes,
    pub homes: Vec<Option<Home>>,
}

/// The page after all runs.
pub fn end_of(runs: &[Run]) -> u32
    requires { AreRuns runs.now }
    ensures behind { (page : ℕ) → result ≤ page → place_of runs.now page ≡ Absent }
    ensures few { result ≤ file_pages }
{
    match runs.last() {
        Some(run) => run.page + run.count,
        None => 0,
    }
}

/// The homes of the pages before page `from`.
fn homes_before(alloc: Global, map: &ExtentMap, from: u32) -> Result<Vec<Option<Home>>, OutOfMemory>
    ensures homes { IfOk result (λ homes. ListsHomes (places_before from (place_of map.now))
        homes.items) }
    ensures few { IfOk result (λ homes. length homes.items ≤ file_pages) }
{
    let end = end_of(map.runs()).min(from);
    let mut homes = Vec::new(alloc);
    for page in 0..end {
        homes.push(map.home_of(page).home())?;
    }
    Ok(homes)
}

/// The file or directory that a tag names in an original, with the pages that it keeps. None if and
/// only if it names nothing, or something that is to be removed.
pub fn read_original<M: MetaPages>(
    alloc: Global,
    pages: &M,
    files: &Bitfiles,
    tag: Tag,
) -> Result<Option<SeenPages>, OutOfMemory>
    requires { HasFiles files.now.fileset files.now.tags (M.pages pages.now) }
    ensures seen { (chains : Chains)
        → AreFiles files.now.fileset files.now.tags (M.pages pages.now) chains
        → IfOk result (IsSeenThere (option_and_then seen_in (chains tag))) }
    ensures few { IfOk result (λ found. IfSome found HasFewHomes) }
{
    let Some(is) = files.attributes(pages, tag) else {
        return Ok(None);
    };
    let Some(keep) = files.keep(pages, tag) else {
        unreachable!()
    };
    let map = files.read_map(alloc, pages, tag)?;
    let homes = homes_before(alloc, &map, keep)?;
    Ok(Some(SeenPages { is, homes }))
}
