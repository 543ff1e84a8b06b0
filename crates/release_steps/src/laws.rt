//! The files of a domain after an owner's limits are set.
ghost use Rattle.std.specs.Prelude.{◌≡◌, ℕ, Contains, List, Option, true};
ghost use Rattle.release_list.specs.domain_base.declared.place.CellAt.{CellAt};
ghost use Rattle.release_list.specs.domain_base.declared.place.Home.{Home};
ghost use Rattle.release_list.specs.page_store.Pages.{Pages};
ghost use Rattle.release_list.specs.tag_dirs.declared.dir.TagPlace.{TagPlace};
ghost use Rattle.release_list.specs.tag_dirs.Directory.{has_home};
ghost use Rattle.release_list.specs.free_cells.Cells.{table_of};
ghost use Rattle.release_list.specs.fileset_files.Files.{Chains};
ghost use Rattle.release_list.specs.fileset_files.Together.{AreTogether};
ghost use Rattle.quota_book.specs.fileset_values.declared.command.Owner.{Owner};
ghost use Rattle.quota_book.specs.fileset_model.declared.fileset.Limits.{Limits};
ghost use Rattle.release_list.specs.Steps.{IsWell, Now};
ghost use Rattle.release_steps.specs.Tags.{AreAmong};
ghost use Rattle.release_steps.specs.Setting.{SetsIn};

/// All files of a domain still belong together after an owner's limits are set in a chain of quota
/// cells that is one of them, or that begins beside them.
pub fn all_stays_well_where_limits_are_set()
    ensures { (fileset prefer : ℕ) (who : Owner) (limits : Limits) (first : Option CellAt)
        (old new : Now) → IsWell old → SetsIn fileset prefer who limits first old new
        → IsWell new }
{}

/// Those that the tags of a fileset name do too, if the pages of its tag directory stay.
pub fn tags_stay_together_where_limits_are_set()
    ensures together { (fileset prefer : ℕ) (who : Owner) (limits : Limits)
        (first : Option CellAt) (old new : Now) (number : ℕ) (places : List TagPlace)
        (chains : Chains) → IsWell old → SetsIn fileset prefer who limits first old new
        → ((home : Home) → has_home places home ≡ true → new.pages home ≡ old.pages home)
        → AreTogether number places old.space old.cells old.pages chains
        → AreAmong old places chains
        → AreTogether number places new.space new.cells new.pages chains }
    ensures among { (fileset prefer : ℕ) (who : Owner) (limits : Limits)
        (first : Option CellAt) (old new : Now) (number : ℕ) (places : List TagPlace)
        (chains : Chains) → IsWell old → SetsIn fileset prefer who limits first old new
        → ((home : Home) → has_home places home ≡ true → new.pages home ≡ old.pages home)
        → AreTogether number places old.space old.cells old.pages chains
        → AreAmong old places chains → AreAmong new places chains }
{}

/// Limits stay set if pages that are none of cells are written afterwards, such as the page of the
/// table of filesets, whose slot names the chain.
pub fn limits_stay_set_where_other_pages_are_written()
    ensures { (fileset prefer : ℕ) (who : Owner) (limits : Limits) (first : Option CellAt)
        (old mid : Now) (pages : Pages) → SetsIn fileset prefer who limits first old mid
        → ((home : Home) → Contains (table_of mid.cells home.vol) home.page
        → pages home ≡ mid.pages home)
        → SetsIn fileset prefer who limits first old (record mid { pages = pages }) }
{}
