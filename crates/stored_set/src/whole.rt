//! Directories that are whole, and stay whole.
ghost use Rattle.std.specs.Prelude.{◌≡◌, ◌+◌, ◌*◌, ◌^◌, ◌<◌, ℕ, List, Some};
ghost use Rattle.std.specs.List.{insert};
ghost use Rattle.index_pages.specs.domain_base.Limits.{file_pages, page_bytes};
ghost use Rattle.index_pages.specs.domain_base.declared.place.Home.{Home};
ghost use Rattle.index_pages.specs.domain_base.declared.place.Kind.{Kind};
ghost use Rattle.index_pages.specs.domain_base.declared.place.Tag.{Tag};
ghost use Rattle.index_pages.specs.page_store.Bitfiles.{Bitfile, Bitfiles, IsDirectory, count_index, count_pages, insert_index, linked, new_file as shown_new, put_index, put_page, with_change, with_entry, with_file, without_file};
ghost use Rattle.index_pages.specs.extent_maps.declared.run.PagePlace.TheVariants.{At};
ghost use Rattle.index_pages.specs.fileset_files.declared.attributes.Attributes.{Attributes};
ghost use Rattle.index_pages.specs.fileset_files.declared.indexing.IndexPlace.{IndexPlace};
ghost use Rattle.index_pages.specs.fileset_files.declared.new_cells.NewFile.{NewFile};
ghost use Rattle.index_pages.specs.fileset_files.State.{States, with_changed, with_state, without_state};
ghost use Rattle.index_pages.specs.fileset_files.States.{described, indexed, new_state, placed};
ghost use Rattle.stored_set.specs.Standing.{owned};
ghost use Rattle.stored_set.specs.Whole.{AreWholeDirectories, HaveNoIndex, total_on};

/// Directories that are whole stay whole in these cases: one is made or taken out, is given a size
/// that tells how many pages it has, or gets a page after its last one once that size was set; a
/// page of one is put in place of another; or a page of its index is put or inserted, and it is
/// written how many entries the index then has.
pub fn directories_stay_whole()
    ensures made { (states : States) (files : Bitfiles) (tag : Tag) (what : NewFile)
        → AreWholeDirectories states files
        → AreWholeDirectories (with_state tag (new_state what tag) states)
        (with_file tag (shown_new what.kind what.uid what.gid) files) }
    ensures taken_out { (states : States) (files : Bitfiles) (tag : Tag)
        → AreWholeDirectories states files
        → AreWholeDirectories (without_state tag states) (without_file tag files) }
    ensures described { (states : States) (files : Bitfiles) (tag : Tag) (value : Attributes)
        → AreWholeDirectories states files
        → (IsDirectory files tag → value.size ≡ page_bytes * count_pages files tag)
        → AreWholeDirectories (with_changed tag (described value) states)
        (with_change tag (owned value) files) }
    ensures added { (states : States) (files : Bitfiles) (tag : Tag) (value : Attributes)
        (number : ℕ) (home : Home) (page : List ℕ) → AreWholeDirectories states files
        → number ≡ count_pages files tag → number < file_pages → value.size ≡ page_bytes * (number + 1)
        → AreWholeDirectories
        (with_changed tag (placed number (At home)) (with_changed tag (described value) states))
        (with_change tag (put_page number page) files) }
    ensures written { (states : States) (files : Bitfiles) (tag : Tag) (number : ℕ) (page : List ℕ)
        → AreWholeDirectories states files → number < count_pages files tag
        → AreWholeDirectories states (with_change tag (put_page number page) files) }
    ensures put { (states : States) (files : Bitfiles) (tag : Tag) (index : IndexPlace) (number : ℕ)
        (page : List ℕ) → AreWholeDirectories states files → number < count_index files tag
        → ((file : Bitfile) → files tag ≡ Some file
        → index.entries ≡ total_on (with_entry number page file.index))
        → AreWholeDirectories (with_changed tag (indexed (Some index)) states)
        (with_change tag (put_index number page) files) }
    ensures inserted { (states : States) (files : Bitfiles) (tag : Tag) (index : IndexPlace)
        (number : ℕ) (page : List ℕ) → AreWholeDirectories states files
        → count_index files tag + 1 < 2 ^ 32
        → ((file : Bitfile) → files tag ≡ Some file
        → index.entries ≡ total_on (insert file.index number page))
        → AreWholeDirectories (with_changed tag (indexed (Some index)) states)
        (with_change tag (insert_index number page) files) }
{}

/// No file has an index after one is made or taken out, after a file or directory gets another
/// owner or number of links, after a page of a directory is put, and after a page of a directory's
/// index is put or inserted.
pub fn files_have_no_index()
    ensures made { (files : Bitfiles) (tag : Tag) (kind : Kind) (uid gid : ℕ) → HaveNoIndex files
        → HaveNoIndex (with_file tag (shown_new kind uid gid) files) }
    ensures taken_out { (files : Bitfiles) (tag : Tag) → HaveNoIndex files
        → HaveNoIndex (without_file tag files) }
    ensures described { (files : Bitfiles) (tag : Tag) (value : Attributes) → HaveNoIndex files
        → HaveNoIndex (with_change tag (owned value) files) }
    ensures linked { (files : Bitfiles) (tag : Tag) (links : ℕ) → HaveNoIndex files
        → HaveNoIndex (with_change tag (linked links) files) }
    ensures written { (files : Bitfiles) (tag : Tag) (number : ℕ) (page : List ℕ)
        → HaveNoIndex files → HaveNoIndex (with_change tag (put_page number page) files) }
    ensures put { (files : Bitfiles) (tag : Tag) (number : ℕ) (page : List ℕ) → HaveNoIndex files
        → IsDirectory files tag → HaveNoIndex (with_change tag (put_index number page) files) }
    ensures inserted { (files : Bitfiles) (tag : Tag) (number : ℕ) (page : List ℕ)
        → HaveNoIndex files → IsDirectory files tag
        → HaveNoIndex (with_change tag (insert_index number page) files) }
{}
