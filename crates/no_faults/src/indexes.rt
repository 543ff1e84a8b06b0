//! Calls on indexes of directories.
ghost use Rattle.std.specs.Prelude.{[], ℕ, List, Some, insert};
ghost use Rattle.domain_memory.specs.domain_base.declared.place.CellAt.{CellAt};
ghost use Rattle.domain_memory.specs.domain_base.declared.place.Tag.{Tag};
ghost use Rattle.domain_memory.specs.directory_pages.Index.{IsIndexPage};
ghost use Rattle.domain_memory.specs.fileset_files.Changes.{Removes};
ghost use Rattle.domain_memory.specs.fileset_files.Files.{Chains};
ghost use Rattle.domain_memory.specs.fileset_files.Index.{says_index};
ghost use Rattle.domain_memory.specs.stored_set.Sets.{AddsIndexPage, GivesIndexBack, WritesIndexPage, without_index};
ghost use Rattle.domain_memory.specs.release_list.Listing.{Listing};
ghost use Rattle.domain_memory.specs.release_list.Standing.{Files};
ghost use Rattle.domain_memory.specs.domain_standing.Chains.{IndexesAt};
ghost use Rattle.domain_memory.specs.domain_standing.Domain.{DomainNow};
ghost use Rattle.domain_memory.specs.standing_laws.IndexCalls.{KeepsTables, NamesFile, with_index_at, with_removed, with_said};
ghost use Rattle.domain_memory.specs.standing_laws.Leads.{StandsBelow};
ghost use Rattle.domain_memory.specs.standing_laws.Sound.{StandsSound};

/// A domain stays sound if a well-formed page is put in place of a page of a directory's index.
pub fn soundness_stays_where_an_index_page_is_written()
    ensures { (number : ℕ) (tag : Tag) (start : CellAt) (d now : DomainNow) (chains : Chains)
        (files : Files) (indexes : IndexesAt) (page : ℕ) (bytes : List ℕ)
        → StandsBelow d files indexes → StandsSound d files indexes
        → NamesFile number tag start d chains files → KeepsTables d now → IsIndexPage bytes
        → (writes : WritesIndexPage number (d.tags number) d.space d.cells tag page bytes chains
        (indexes start) d.pages now.pages)
        → StandsSound now (with_said start (says_index (Some writes.says.index)) files) indexes }
{}

/// A domain stays sound if a well-formed page is put into the index of a directory, on a page that
/// was free.
pub fn soundness_stays_where_an_index_page_is_put_in()
    ensures { (number : ℕ) (tag : Tag) (start : CellAt) (d now : DomainNow) (chains : Chains)
        (files : Files) (indexes : IndexesAt) (place prefer : ℕ) (bytes : List ℕ)
        → StandsBelow d files indexes → StandsSound d files indexes
        → NamesFile number tag start d chains files → KeepsTables d now → IsIndexPage bytes
        → (adds : AddsIndexPage number (d.tags number) d.cells tag place bytes prefer chains
        (indexes start) d.space now.space d.pages now.pages)
        → StandsSound now (with_said start (says_index (Some adds.says.index)) files)
        (with_index_at start (insert (indexes start) place adds.home) indexes) }
{}

/// A domain stays sound if a file or directory is taken away with its index, whatever the list then
/// is.
pub fn soundness_stays_where_a_file_goes_with_its_index()
    ensures { (number : ℕ) (tag : Tag) (start : CellAt) (d now : DomainNow) (chains : Chains)
        (files : Files) (indexes : IndexesAt) (group : ℕ) (listed : Listing)
        → StandsBelow d files indexes → StandsSound d files indexes
        → NamesFile number tag start d chains files → KeepsTables d now
        → Removes number (d.tags number) tag start (without_index tag chains) now.pages
        → GivesIndexBack group (d.tags number) (chains tag) (indexes start) d.space now.space
        d.pages now.pages
        → StandsSound (record now { list = listed }) (with_removed start tag chains files)
        (with_index_at start [] indexes) }
{}
