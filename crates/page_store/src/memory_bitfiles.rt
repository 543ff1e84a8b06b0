//! Files and directories in memory.
ghost use Rattle.std.specs.Prelude.{◌≡◌, ◌+◌, ◌^◌, ◌<◌, ◌≤◌, [], refl, IfOk, IsSome, IsSomeAnd, OnErr, OnOk, is_some, length};
ghost use Rattle.std.proofs.Common.{◌∙◌};
ghost use Rattle.std.specs.Option.{option_map, option_map_or};
ghost use Rattle.sorted_sets.specs.domain_base.Limits.{file_pages, max_links};
ghost use Rattle.sorted_sets.specs.domain_base.declared.place.Kind.TheVariants.{Directory as ADirectory};
ghost use Rattle.page_store.specs.Bitfiles.{Bitfile, insert_index, linked, new_file, put_index, put_page as with_page, shown_index};
ghost use Rattle.page_store.specs.PageChanges.{HasPlaceFor, changed};
ghost use Rattle.sorted_sets.specs.Rising.{IsRising, value_at};
ghost use Rattle.page_store.specs.Tags.{AreSound, AreUnused, Changes, IsDirectoryAt, are_bitfiles, files_of, number_of, root_alone};

use crate::misses::Misses;
use crate::paged_file::{PageChange, PagedFile};
use crate::{BitfileSet, StoreFault};
use sorted_sets::numbered::{find, place_of, put, take};
use sorted_sets::{Kind, OutOfMemory, Page, Tag};
use std::alloc::Global;

/// Files and directories by their tags, in one list in the order of tags. Each new one takes the
/// next slot, with sequence 1. The set is told which of its changing calls answer NoPage, by their
/// numbers, counted from 0. Each of these raises its count of misses and changes nothing. If it is
/// told none, no call answers NoPage.
#[derive(Drop)]
pub struct MemoryBitfiles {
    files: Vec<(u64, PagedFile)>,
    next: u32,
    misses: Misses,
    ghost rising: { IsRising files.items },
    ghost sound: { AreSound files.items },
    ghost unused: { AreUnused next files.items },
}

impl MemoryBitfiles {
    /// Only the root directory, of user 0 and group 0, with tag 1 and sequence 1. The numbers are
    /// those of the changing calls that find no page.
    pub fn new(alloc: Global, misses: Vec<u64>) -> Result<MemoryBitfiles, OutOfMemory>
        ensures files { IfOk result (λ set.
            ⟦<MemoryBitfiles as BitfileSet>⟧.files set ≡ root_alone) }
        ensures misses { IfOk result (λ set. ⟦<MemoryBitfiles as BitfileSet>⟧.missed set ≡ 0) }
        ensures in_place { IfOk result (λ set. misses.items ≡ []
            → ⟦<MemoryBitfiles as BitfileSet>⟧.writes_in_place set) }
    {
        let mut files = Vec::new(alloc);
        let root = Tag { slot: 1, seq: 1 };
        put(
            &mut files,
            key_of(&root),
            PagedFile::new(alloc, Kind::Directory, 0, 0),
        )?;
        Ok(MemoryBitfiles {
            files,
            next: 2,
            misses: Misses::new(misses),
        })
    }

    /// The user and the group of what a tag names. Returns None if and only if it names nothing.
    pub fn owner_of(&self, tag: Tag) -> Option<(u32, u32)>
        ensures { result ≡ option_map (λ (file : Bitfile). (file.uid, file.gid))
            (⟦<MemoryBitfiles as BitfileSet>⟧.files self.now tag) }
    {
        match find(&self.files, key_of(&tag)) {
            Some(file) => Some(file.owner()),
            None => None,
        }
    }
}

impl BitfileSet for MemoryBitfiles {
    ghost files = { λ set. files_of set.files.items };

    ghost missed = { λ set. set.misses.count };

    ghost changes = { λ set. set.misses.calls };

    ghost writes_in_place = { λ set. set.misses.told.items ≡ [] };

    ghost leaves_rest = { λ old new. new.misses.told.items ≡ old.misses.told.items };

    ghost is_spent = { λ _ _. ⊥ };

    ghost sound = { λ set. are_bitfiles set.files.items set.sound };

    ghost rest_same = { λ _. refl };

    ghost rest_joins = { λ _ _ _ first then. then ∙ first };

    ghost rest_spends = { λ _ _ _ _. (λ none. none, λ none. none) };

    ghost rest_writes = { λ _ _ same none. same ∙ none };

    fn kind_of(&self, tag: Tag) -> Option<Kind> {
        match find(&self.files, key_of(&tag)) {
            Some(file) => Some(file.kind()),
            None => None,
        }
    }

    fn make(&mut self, alloc: Global, kind: Kind, uid: u32, gid: u32) -> Result<Tag, StoreFault> {
        self.misses.next_call()?;
        let tag = Tag {
            slot: self.next,
            seq: 1,
        };
        let next = tag.slot.checked_add(1).ok_or(StoreFault::OutOfMemory)?;
        put(
            &mut self.files,
            key_of(&tag),
            PagedFile::new(alloc, kind, uid, gid),
        )?;
        self.next = next;
        Ok(tag)
    }

    fn remove(&mut self, _alloc: Global, tag: Tag) -> Result<(), StoreFault> {
        self.misses.next_call()?;
        let _ = take(&mut self.files, key_of(&tag));
        Ok(())
    }

    fn dir_pages(&self, tag: Tag) -> u32 {
        match find(&self.files, key_of(&tag)) {
            Some(file) => file.page_count(),
            None => 0,
        }
    }

    fn dir_page(&self, tag: Tag, page: u32) -> Option<&Page> {
        find(&self.files, key_of(&tag))?.page(page)
    }

    fn put_dir_page(
        &mut self,
        _alloc: Global,
        tag: Tag,
        page: u32,
        bytes: Page,
    ) -> Result<(), StoreFault> {
        self.misses.next_call()?;
        change_page(
            &mut self.files,
            key_of(&tag),
            PageChange::PutPage,
            page,
            bytes,
        )?;
        Ok(())
    }

    fn index_pages(&self, tag: Tag) -> u32 {
        match find(&self.files, key_of(&tag)) {
            Some(file) => file.index_count(),
            None => 0,
        }
    }

    fn index_page(&self, tag: Tag, page: u32) -> Option<&Page> {
        find(&self.files, key_of(&tag))?.index_page(page)
    }

    fn put_index_page(
        &mut self,
        _alloc: Global,
        tag: Tag,
        page: u32,
        bytes: Page,
    ) -> Result<(), StoreFault> {
        self.misses.next_call()?;
        change_page(
            &mut self.files,
            key_of(&tag),
            PageChange::PutIndexPage,
            page,
            shown(bytes),
        )?;
        Ok(())
    }

    fn insert_index_page(
        &mut self,
        _alloc: Global,
        tag: Tag,
        page: u32,
        bytes: Page,
    ) -> Result<(), StoreFault> {
        self.misses.next_call()?;
        change_page(
            &mut self.files,
            key_of(&tag),
            PageChange::InsertIndexPage,
            page,
            shown(bytes),
        )?;
        Ok(())
    }

    fn links(&self, tag: Tag) -> u32 {
        match find(&self.files, key_of(&tag)) {
            Some(file) => file.links(),
            None => 0,
        }
    }

    fn set_links(&mut self, _alloc: Global, tag: Tag, links: u32) -> Result<(), StoreFault> {
        self.misses.next_call()?;
        set_links(&mut self.files, key_of(&tag), links);
        Ok(())
    }

    fn misses(&self) -> u64 {
        self.misses.count()
    }
}

/// The number of a tag. It is greater if the slot is, or if the sequence is.
fn key_of(tag: &Tag) -> u64
    ensures value { result ≡ number_of tag.now }
    ensures width { tag.now.seq < 2 ^ 16 }
{
    let seq = tag.seq;
    (u64::from(tag.slot) << 16) + u64::from(seq)
}

/// An index page without a home of the next one.
fn shown(mut page: Page) -> Page
    ensures { result ≡ shown_index page }
{
    page.set(8, &[0; 8]);
    page
}

/// Sets how many rows name the file of that number.
fn set_links(files: &mut Vec<(u64, PagedFile)>, key: u64, links: u32)
    requires rising { IsRising files.old.items }
    requires sound { AreSound files.old.items }
    requires named { 1 ≤ links }
    requires most { links ≤ max_links }
    ensures value { Changes files.old.items files.new.items key (linked links) }
    ensures rising { IsRising files.new.items }
    ensures sound { AreSound files.new.items }
{
    if let Ok(place) = place_of(files, key) {
        files[place].1.set_links(links);
    }
}

/// Puts a page of the directory of that number, or of its index. After an error all is as before.
fn change_page(
    files: &mut Vec<(u64, PagedFile)>,
    key: u64,
    change: PageChange,
    page: u32,
    bytes: Page,
) -> Result<(), OutOfMemory>
    requires rising { IsRising files.old.items }
    requires sound { AreSound files.old.items }
    requires directory { IsDirectoryAt files.old.items key }
    requires place { IsSomeAnd (value_at files.old.items key) (HasPlaceFor change page) }
    ensures ok { OnOk result
        (Changes files.old.items files.new.items key (changed change page bytes)) }
    ensures err { OnErr result (files.new.items ≡ files.old.items) }
    ensures rising { IsRising files.new.items }
    ensures sound { AreSound files.new.items }
{
    if let Ok(place) = place_of(files, key) {
        files[place].1.change(change, page, bytes)?;
    }
    Ok(())
}
