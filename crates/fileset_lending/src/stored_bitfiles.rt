//! The files of a fileset as a set of files and directories.
ghost use Rattle.std.specs.Prelude.{◌≡◌, ◌≤◌, false, true, IsSome, None, OnErr, OnOk, Some};
ghost use Rattle.domain_memory.specs.page_store.Bitfiles.{Bitfiles as SetOf, IsDirectory, without_file};
ghost use Rattle.domain_memory.specs.fileset_files.Changes.{says_parent, with_chain, with_first};
ghost use Rattle.domain_memory.specs.fileset_files.Files.{AreFiles, Chains};
ghost use Rattle.domain_memory.specs.fileset_files.Together.{AreTogether};
ghost use Rattle.domain_memory.specs.stored_set.Sets.{HasSet, StandsAsSet};
ghost use Rattle.fileset_lending.specs.Rest.{LeavesRest, TakesAway, parts_of, rest_is, rest_joined};
ghost use Rattle.fileset_lending.specs.Shown.{shown, shown_sound};

use crate::parts::{CallSettings, StoredParts};
use domain_memory::{
    BitfileSet, Kind, MetaPages, OutOfMemory, Page, StoreFault, Tag, add_page, count_index_of,
    count_pages_of, index_page_of, insert_index_page, kind_of, links_of, make, page_of, remove,
    set_links, write_index_page, write_page,
};
use std::alloc::Global;

/// The files of one fileset, with all that a call on them is given: the parts in which they stand,
/// the domain's version, the volume from which cells and pages are taken first, the number of
/// clones made so far, and the log's group for which pages that are given back wait.
#[derive(Drop)]
pub struct StoredBitfiles<M: MetaPages> {
    pub(crate) parts: StoredParts<M>,
    pub(crate) settings: CallSettings,
    ghost held: { ∥ HasSet parts.files.fileset parts.files.tags parts.space parts.cells
        (M.pages parts.pages) ∥₁ },
}

impl<M: MetaPages> StoredBitfiles<M> {
    /// The files of a fileset that are shown as a set.
    pub fn new(parts: StoredParts<M>, settings: CallSettings) -> StoredBitfiles<M>
        requires { HasSet parts.files.fileset parts.files.tags parts.space parts.cells
            (M.pages parts.pages) }
        ensures files { (set : SetOf) → StandsAsSet parts.files.fileset parts.files.tags
            parts.space parts.cells (M.pages parts.pages) set
            → ⟦<StoredBitfiles<M> as BitfileSet>⟧.files result ≡ set }
        ensures parts { result.parts ≡ parts }
        ensures settings { result.settings ≡ settings }
    {
        StoredBitfiles { parts, settings }
    }

    /// The parts in which the files stand, as calls have left them. They still show the same set,
    /// and may be used for the files of another fileset, or by a call that knows no set.
    pub fn into_parts(self) -> StoredParts<M>
        ensures parts { result ≡ self.parts }
        ensures set { StandsAsSet result.files.fileset result.files.tags result.space result.cells
            (M.pages result.pages) (⟦<StoredBitfiles<M> as BitfileSet>⟧.files self) }
    {
        let StoredBitfiles { parts, .. } = self;
        parts
    }

    /// Writes for a directory in which directory it stands. What is shown of the files stays. After
    /// an error nothing has changed.
    pub fn set_parent(&mut self, alloc: Global, tag: Tag, parent: Tag) -> Result<(), OutOfMemory>
        requires { IsDirectory (⟦<StoredBitfiles<M> as BitfileSet>⟧.files self.old) tag }
        ensures files { ⟦<StoredBitfiles<M> as BitfileSet>⟧.files self.new
            ≡ ⟦<StoredBitfiles<M> as BitfileSet>⟧.files self.old }
        ensures says { (chains : Chains) → AreTogether self.old.parts.files.fileset
            self.old.parts.files.tags self.old.parts.space self.old.parts.cells
            (M.pages self.old.parts.pages) chains → OnOk result (AreTogether
            self.new.parts.files.fileset self.new.parts.files.tags self.new.parts.space
            self.new.parts.cells (M.pages self.new.parts.pages)
            (with_chain tag (with_first (says_parent parent)) chains)) }
        ensures err { OnErr result (M.pages self.new.parts.pages ≡ M.pages self.old.parts.pages) }
        ensures missed { ⟦<StoredBitfiles<M> as BitfileSet>⟧.missed self.new
            ≡ ⟦<StoredBitfiles<M> as BitfileSet>⟧.missed self.old }
        ensures rest { OnOk result (LeavesRest (Some (tag, parent)) self.old.parts.files.fileset
            self.new.parts.files.fileset self.old.settings self.new.settings
            (M.before self.old.parts.pages) (M.before self.new.parts.pages)
            self.old.parts.removed.items self.new.parts.removed.items
            (parts_of self.old.parts.files.tags (M.pages self.old.parts.pages)
            self.old.parts.space self.old.parts.cells)
            (parts_of self.new.parts.files.tags (M.pages self.new.parts.pages)
            self.new.parts.space self.new.parts.cells)) }
        ensures rest_err { OnErr result
            (⟦<StoredBitfiles<M> as BitfileSet>⟧.leaves_rest self.old self.new) }
    {
        self.parts
            .files
            .set_parent(alloc, &mut self.parts.pages, tag, parent)
    }

    /// Takes a tag's file or directory away, and adds its first cell to the list of those whose
    /// file is to be let go. After an error nothing but room has changed.
    pub fn take_away(&mut self, alloc: Global, tag: Tag) -> Result<(), OutOfMemory>
        requires { IsSome (⟦<StoredBitfiles<M> as BitfileSet>⟧.files self.old tag) }
        ensures ok { OnOk result (⟦<StoredBitfiles<M> as BitfileSet>⟧.files self.new
            ≡ without_file tag (⟦<StoredBitfiles<M> as BitfileSet>⟧.files self.old)) }
        ensures err { OnErr result (⟦<StoredBitfiles<M> as BitfileSet>⟧.files self.new
            ≡ ⟦<StoredBitfiles<M> as BitfileSet>⟧.files self.old) }
        ensures takes { (chains : Chains) → AreFiles self.old.parts.files.fileset
            self.old.parts.files.tags (M.pages self.old.parts.pages) chains → OnOk result (TakesAway
            self.old.parts.files.fileset self.old.parts.files.tags tag chains
            self.old.parts.removed.items self.new.parts.removed.items
            (M.pages self.new.parts.pages)) }
        ensures none { OnErr result (self.new.parts.removed.items ≡ self.old.parts.removed.items) }
        ensures count { ⟦<StoredBitfiles<M> as BitfileSet>⟧.missed self.old
            ≤ ⟦<StoredBitfiles<M> as BitfileSet>⟧.missed self.new }
        ensures rest { ⟦<StoredBitfiles<M> as BitfileSet>⟧.leaves_rest self.old self.new }
    {
        self.parts.removed.reserve(1)?;
        let at = remove(
            alloc,
            &mut self.parts.pages,
            &mut self.parts.space,
            &self.parts.cells,
            &mut self.parts.files,
            tag,
            self.settings.group,
        )?;
        self.parts.removed.push_reserved(at);
        Ok(())
    }

    /// Whether the tag names a directory.
    fn has_directory(&self, tag: Tag) -> bool
        ensures yes { result ≡ true → IsDirectory (shown self.now.parts.files.fileset
            self.now.parts.files.tags self.now.parts.space self.now.parts.cells
            (M.pages self.now.parts.pages) self.now.held) tag }
        ensures no { result ≡ false → ¬ IsDirectory (shown self.now.parts.files.fileset
            self.now.parts.files.tags self.now.parts.space self.now.parts.cells
            (M.pages self.now.parts.pages) self.now.held) tag }
    {
        match kind_of(
            &self.parts.pages,
            &self.parts.space,
            &self.parts.cells,
            &self.parts.files,
            tag,
        ) {
            Some(Kind::Directory) => true,
            Some(Kind::File) => false,
            None => false,
        }
    }
}

impl<M: MetaPages> BitfileSet for StoredBitfiles<M> {
    ghost files = { λ set. shown set.parts.files.fileset set.parts.files.tags set.parts.space
        set.parts.cells (M.pages set.parts.pages) set.held };

    ghost missed = { λ set. set.parts.space.misses };

    ghost changes = { λ set. 0 };

    ghost writes_in_place = { λ _. Unit {0} };

    ghost leaves_rest = { λ old new. LeavesRest None old.parts.files.fileset new.parts.files.fileset
        old.settings new.settings (M.before old.parts.pages) (M.before new.parts.pages)
        old.parts.removed.items new.parts.removed.items
        (parts_of old.parts.files.tags (M.pages old.parts.pages) old.parts.space old.parts.cells)
        (parts_of new.parts.files.tags (M.pages new.parts.pages) new.parts.space new.parts.cells) };

    ghost is_spent = { λ _ _. ⊥ };

    ghost sound = { λ set. shown_sound set.parts.files.fileset set.parts.files.tags
        set.parts.space set.parts.cells (M.pages set.parts.pages) set.held
        (M.whole set.parts.pages) };

    ghost rest_same = { λ set. rest_is set.parts.files.fileset set.settings
        (M.before set.parts.pages) set.parts.removed.items
        (parts_of set.parts.files.tags (M.pages set.parts.pages) set.parts.space set.parts.cells) };

    ghost rest_joins = { λ _ _ _ first then.
        rest_joined None _ _ _ _ _ _ _ _ _ _ _ _ _ _ _ first then };

    ghost rest_spends = { λ _ _ _ _. (λ none. none, λ none. none) };

    ghost rest_writes = { λ _ _ _ _. tt };

    fn kind_of(&self, tag: Tag) -> Option<Kind> {
        kind_of(
            &self.parts.pages,
            &self.parts.space,
            &self.parts.cells,
            &self.parts.files,
            tag,
        )
    }

    fn make(&mut self, alloc: Global, kind: Kind, uid: u32, gid: u32) -> Result<Tag, StoreFault> {
        // so that the count is known to be one of 64 bits
        let _ = self.parts.space.misses();
        make(
            alloc,
            &mut self.parts.pages,
            &mut self.parts.space,
            &mut self.parts.cells,
            &mut self.parts.files,
            kind,
            uid,
            gid,
            self.settings.born,
            self.settings.version,
            self.settings.prefer,
        )
    }

    fn remove(&mut self, alloc: Global, tag: Tag) -> Result<(), StoreFault> {
        match self.take_away(alloc, tag) {
            Ok(()) => Ok(()),
            Err(_) => Err(StoreFault::OutOfMemory),
        }
    }

    fn dir_pages(&self, tag: Tag) -> u32 {
        count_pages_of(
            &self.parts.pages,
            &self.parts.space,
            &self.parts.cells,
            &self.parts.files,
            tag,
        )
    }

    fn dir_page(&self, tag: Tag, page: u32) -> Option<&Page> {
        if !self.has_directory(tag) {
            return None;
        }
        page_of(
            &self.parts.pages,
            &self.parts.space,
            &self.parts.cells,
            &self.parts.files,
            tag,
            page,
        )
    }

    fn put_dir_page(
        &mut self,
        alloc: Global,
        tag: Tag,
        page: u32,
        bytes: Page,
    ) -> Result<(), StoreFault> {
        let count = self.dir_pages(tag);
        if page < count {
            write_page(
                &mut self.parts.pages,
                &self.parts.space,
                &self.parts.cells,
                &self.parts.files,
                tag,
                page,
                bytes,
            );
            return Ok(());
        }
        let _ = self.parts.space.misses();
        add_page(
            alloc,
            &mut self.parts.pages,
            &mut self.parts.space,
            &mut self.parts.cells,
            &self.parts.files,
            tag,
            page,
            bytes,
            self.settings.prefer,
            self.settings.version,
        )
    }

    fn index_pages(&self, tag: Tag) -> u32 {
        if !self.has_directory(tag) {
            return 0;
        }
        count_index_of(
            &self.parts.pages,
            &self.parts.space,
            &self.parts.cells,
            &self.parts.files,
            tag,
        )
    }

    fn index_page(&self, tag: Tag, page: u32) -> Option<&Page> {
        if !self.has_directory(tag) {
            return None;
        }
        index_page_of(
            &self.parts.pages,
            &self.parts.space,
            &self.parts.cells,
            &self.parts.files,
            tag,
            page,
        )
    }

    fn put_index_page(
        &mut self,
        alloc: Global,
        tag: Tag,
        page: u32,
        bytes: Page,
    ) -> Result<(), StoreFault> {
        let count = self.index_pages(tag);
        if page < count {
            return match write_index_page(
                alloc,
                &mut self.parts.pages,
                &self.parts.space,
                &self.parts.cells,
                &self.parts.files,
                tag,
                page,
                bytes,
            ) {
                Ok(()) => Ok(()),
                Err(_) => Err(StoreFault::OutOfMemory),
            };
        }
        let _ = self.parts.space.misses();
        insert_index_page(
            alloc,
            &mut self.parts.pages,
            &mut self.parts.space,
            &self.parts.cells,
            &self.parts.files,
            tag,
            page,
            bytes,
            self.settings.prefer,
        )
    }

    fn insert_index_page(
        &mut self,
        alloc: Global,
        tag: Tag,
        page: u32,
        bytes: Page,
    ) -> Result<(), StoreFault> {
        let _ = self.parts.space.misses();
        insert_index_page(
            alloc,
            &mut self.parts.pages,
            &mut self.parts.space,
            &self.parts.cells,
            &self.parts.files,
            tag,
            page,
            bytes,
            self.settings.prefer,
        )
    }

    fn links(&self, tag: Tag) -> u32 {
        links_of(
            &self.parts.pages,
            &self.parts.space,
            &self.parts.cells,
            &self.parts.files,
            tag,
        )
    }

    fn set_links(&mut self, alloc: Global, tag: Tag, links: u32) -> Result<(), StoreFault> {
        match set_links(
            alloc,
            &mut self.parts.pages,
            &self.parts.space,
            &self.parts.cells,
            &self.parts.files,
            tag,
            links,
        ) {
            Ok(()) => Ok(()),
            Err(_) => Err(StoreFault::OutOfMemory),
        }
    }

    fn misses(&self) -> u64 {
        self.parts.space.misses()
    }
}
