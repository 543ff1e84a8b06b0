//! Calls on indexes of directories.
ghost use Rattle.std.specs.Prelude.{◌≡◌, [], ℕ, List, Option, Some, insert};
ghost use Rattle.domain_standing.specs.domain_base.declared.place.CellAt.{CellAt};
ghost use Rattle.domain_standing.specs.domain_base.declared.place.Tag.{Tag};
ghost use Rattle.domain_standing.specs.fileset_files.Changes.{Removes, without_chain};
ghost use Rattle.domain_standing.specs.fileset_files.Files.{Chains};
ghost use Rattle.domain_standing.specs.fileset_files.Index.{says_index};
ghost use Rattle.domain_standing.specs.fileset_files.Together.{AreTogether};
ghost use Rattle.domain_standing.specs.stored_set.Sets.{AddsIndexPage, GivesIndexBack, WritesIndexPage, without_index};
ghost use Rattle.domain_standing.specs.release_list.Listed.{IsEntry};
ghost use Rattle.domain_standing.specs.release_list.Listing.{Adds, Listing};
ghost use Rattle.domain_standing.specs.release_list.Standing.{Files};
ghost use Rattle.domain_standing.specs.Chains.{IndexesAt};
ghost use Rattle.domain_standing.specs.Domain.{DomainNow};
ghost use Rattle.standing_laws.specs.IndexCalls.{KeepsTables, NamesFile, with_index_at, with_removed, with_said};
ghost use Rattle.standing_laws.specs.Leads.{StandsBelow};

/// If a page of a directory's index is put in place of another, the domain still stands: the first
/// cell says how many entries the index then has, and each of its pages is held where it was.
pub fn all_stands_on_where_an_index_page_is_written()
    ensures { (number : ℕ) (tag : Tag) (start : CellAt) (d now : DomainNow) (chains : Chains)
        (files : Files) (indexes : IndexesAt) (page : ℕ) (bytes : List ℕ)
        → StandsBelow d files indexes → NamesFile number tag start d chains files
        → KeepsTables d now → now.space ≡ d.space
        → (writes : WritesIndexPage number (d.tags number) d.space d.cells tag page bytes chains
        (indexes start) d.pages now.pages)
        → StandsBelow now (with_said start (says_index (Some writes.says.index)) files) indexes }
{}

/// The domain still stands if a free page is put into an index, before others, after them or as the
/// first of all: that page is held for the index from then on.
pub fn all_stands_on_where_an_index_page_is_put_in()
    ensures { (number : ℕ) (tag : Tag) (start : CellAt) (d now : DomainNow) (chains : Chains)
        (files : Files) (indexes : IndexesAt) (place prefer : ℕ) (bytes : List ℕ)
        → StandsBelow d files indexes → NamesFile number tag start d chains files
        → KeepsTables d now
        → (adds : AddsIndexPage number (d.tags number) d.cells tag place bytes prefer chains
        (indexes start) d.space now.space d.pages now.pages)
        → StandsBelow now (with_said start (says_index (Some adds.says.index)) files)
        (with_index_at start (insert (indexes start) place adds.home) indexes) }
{}

/// The domain still stands if a file or directory is taken away, once an entry of it is put on the
/// list: its tag names nothing any more, its first cell names no index, and the pages of the index
/// that it had wait and are held for nothing.
pub fn all_stands_on_where_a_file_goes_with_its_index()
    ensures { (number : ℕ) (tag : Tag) (start : CellAt) (d now : DomainNow) (chains : Chains)
        (files : Files) (indexes : IndexesAt) (group : ℕ) → StandsBelow d files indexes
        → NamesFile number tag start d chains files → KeepsTables d now
        → AreTogether number (d.tags number) now.space d.cells now.pages (without_chain tag chains)
        → Removes number (d.tags number) tag start (without_index tag chains) now.pages
        → GivesIndexBack group (d.tags number) (chains tag) (indexes start) d.space now.space
        d.pages now.pages → (clone : Option CellAt) (listed : Listing)
        → IsEntry (with_removed start tag chains files) (record { at = start; clone = clone })
        → Adds start clone d.list.entries listed.entries → listed.tag_pages ≡ d.list.tag_pages
        → StandsBelow (record now { list = listed }) (with_removed start tag chains files)
        (with_index_at start [] indexes) }
{}
