//! What a step leaves as it was of pages that are not the file's.
ghost use Rattle.std.specs.Prelude.{◌≡◌, ◌≤◌, ℕ, List, Option};
ghost use Rattle.fileset_files.specs.domain_base.declared.place.CellAt.{CellAt};
ghost use Rattle.fileset_files.specs.domain_base.declared.place.Home.{Home};
ghost use Rattle.fileset_files.specs.domain_base.declared.version.Version.{Version};
ghost use Rattle.fileset_files.specs.page_store.Pages.{Pages};
ghost use Rattle.fileset_files.specs.metadata_cells.Chain.{PlacedCell};
ghost use Rattle.fileset_files.specs.extent_maps.declared.run.PagePlace.TheVariants.{At};
ghost use Rattle.fileset_files.specs.free_cells.Cells.{Cells};
ghost use Rattle.fileset_files.specs.free_space.Spaces.{Spaces};
ghost use Rattle.fileset_files.specs.file_chains.Files.{places_of};
ghost use Rattle.file_release.specs.declared.reader.Reader.{Reader};
ghost use Rattle.file_release.specs.declared.released.Released.{Released};
ghost use Rattle.file_release.specs.Releases.{Releases};
ghost use Rattle.fileset_files.specs.Together.{IsHeldApart};
ghost use Rattle.file_release.specs.Sharing.{AreSharing};

/// A page that is held and is no page of cells stays held in a step of a file that does not have
/// it.
pub fn other_pages_stay_held()
    ensures { (from : ℕ) (start : CellAt) (reader : Option Reader) (group : ℕ) (version : Version)
        (chain own : List PlacedCell) (space space_now : Spaces) (cells cells_now : Cells)
        (old new : Pages) (what : Released) (home : Home)
        → AreSharing start reader space cells old chain own
        → Releases from start reader group version chain own space space_now cells cells_now old new
        what → 1 ≤ home.vol → IsHeldApart space cells home
        → ((page : ℕ) → ¬ places_of chain page ≡ At home) → IsHeldApart space_now cells_now home }
{}
