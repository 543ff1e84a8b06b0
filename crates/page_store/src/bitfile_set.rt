//! Files and directories by their tags, as the layers of names see them: a trait that a domain and
//! a map in memory both meet.
ghost use Rattle.std.specs.Prelude.{◌≡◌, ◌↔◌, ◌<◌, ◌≤◌, ℕ, suc, IfErr, IfOk, IsSome, None, OnErr, OnOk};
ghost use Rattle.std.specs.Option.{option_copied, option_map};
ghost use Rattle.sorted_sets.specs.domain_base.Limits.{file_pages, max_links};
ghost use Rattle.sorted_sets.specs.domain_base.declared.place.Tag.{Tag};
ghost use Rattle.page_store.specs.declared.fault.StoreFault.TheVariants.{OutOfMemory as NoMemory};
ghost use Rattle.page_store.specs.Bitfiles.{AreBitfiles, Bitfiles, IsCounted, IsDirectory, count_index, count_pages, index_at, insert_index, kind_at, linked, links_at, new_file, page_at, put_index, put_page, shown_index, with_change, with_file, without_file};

use crate::StoreFault;
use sorted_sets::{Kind, Page, Tag};
use std::alloc::Global;

/// What tags name: files, and directories with their pages and the pages of their indexes. A change
/// that finds no free page answers NoPage and counts a miss. A change that finds no memory answers
/// OutOfMemory. After either every file is as it was. Changes are counted, and leave alone what a
/// set holds apart from the files that it shows.
pub trait BitfileSet {
    /// The file or directory that each tag names.
    ghost files: { Self → Bitfiles };

    /// How often no page was free.
    ghost missed: { Self → ℕ };

    /// All that the first set holds, apart from the files that it shows, is the same in the second.
    ghost leaves_rest: { Self → Self → Type 0 };

    /// How many calls changed the set, or tried to.
    ghost changes: { Self → ℕ };

    /// No free page is needed by a change of files that adds no page to a directory or its index.
    ghost writes_in_place: { Self → Type 0 };

    /// A tag that no new file gets, although it names nothing.
    ghost is_spent: { Self → Tag → Type 0 };

    /// Whether the tag names a file or a directory. Returns None if and only if it names nothing.
    fn kind_of(&self, tag: Tag) -> Option<Kind>
        ensures { result ≡ kind_at (files self.now) tag };

    /// Makes a file or a directory of that owner, with one link and no page, and returns its tag,
    /// which named nothing before.
    fn make(&mut self, alloc: Global, kind: Kind, uid: u32, gid: u32) -> Result<Tag, StoreFault>
        ensures fresh { IfOk result (λ tag. files self.old tag ≡ None) }
        ensures unspent { IfOk result (λ tag. ¬ is_spent self.old tag) }
        ensures ok { IfOk result (λ tag. files self.new ≡
            with_file tag (new_file kind uid gid) (files self.old)) }
        ensures err { OnErr result (files self.new ≡ files self.old) }
        ensures no_page { IfErr result (IsCounted (missed self.old) (missed self.new)) }
        ensures count { missed self.old ≤ missed self.new }
        ensures counted { changes self.new ≤ suc (changes self.old) }
        ensures rest { leaves_rest self.old self.new };

    /// Takes a tag's file or directory away, with all its pages.
    fn remove(&mut self, alloc: Global, tag: Tag) -> Result<(), StoreFault>
        requires { IsSome (files self.old tag) }
        ensures ok { OnOk result (files self.new ≡ without_file tag (files self.old)) }
        ensures err { OnErr result (files self.new ≡ files self.old) }
        ensures no_page { IfErr result (IsCounted (missed self.old) (missed self.new)) }
        ensures in_place { writes_in_place self.old → IfErr result (λ fault. fault ≡ NoMemory) }
        ensures count { missed self.old ≤ missed self.new }
        ensures counted { changes self.new ≤ suc (changes self.old) }
        ensures rest { leaves_rest self.old self.new };

    /// How many pages a directory has, or 0 if the tag names none.
    fn dir_pages(&self, tag: Tag) -> u32
        ensures { result ≡ count_pages (files self.now) tag };

    /// A directory's page, counted from 0. Returns None if and only if the directory has no such
    /// page.
    fn dir_page(&self, tag: Tag, page: u32) -> Option<&Page>
        ensures { option_copied result ≡ page_at (files self.now) tag page };

    /// Puts a page of a directory in place of the one at that number, or after its last one.
    fn put_dir_page(
        &mut self,
        alloc: Global,
        tag: Tag,
        page: u32,
        bytes: Page,
    ) -> Result<(), StoreFault>
        requires directory { IsDirectory (files self.old) tag }
        requires place { page ≤ count_pages (files self.old) tag }
        requires fits { page < file_pages }
        ensures ok { OnOk result (files self.new ≡
            with_change tag (put_page page bytes) (files self.old)) }
        ensures err { OnErr result (files self.new ≡ files self.old) }
        ensures no_page { IfErr result (IsCounted (missed self.old) (missed self.new)) }
        ensures in_place { writes_in_place self.old → page < count_pages (files self.old) tag
            → IfErr result (λ fault. fault ≡ NoMemory) }
        ensures count { missed self.old ≤ missed self.new }
        ensures counted { changes self.new ≤ suc (changes self.old) }
        ensures rest { leaves_rest self.old self.new };

    /// How many pages a directory's index has, or 0 if the tag names no directory, or one without
    /// an index.
    fn index_pages(&self, tag: Tag) -> u32
        ensures { result ≡ count_index (files self.now) tag };

    /// A page of a directory's index, counted from 0. Returns None if and only if the index has no
    /// such page. Where the next page stands is the set's own: the contract does not say what the
    /// page holds for it.
    fn index_page(&self, tag: Tag, page: u32) -> Option<&Page>
        ensures { option_map shown_index (option_copied result)
            ≡ option_map shown_index (index_at (files self.now) tag page) };

    /// Puts an index page in place of the one at that number, or after the last one. Where the next
    /// page stands is the set's own. Also fails as out of memory if the index would have 2^32
    /// pages.
    fn put_index_page(
        &mut self,
        alloc: Global,
        tag: Tag,
        page: u32,
        bytes: Page,
    ) -> Result<(), StoreFault>
        requires directory { IsDirectory (files self.old) tag }
        requires place { page ≤ count_index (files self.old) tag }
        ensures ok { OnOk result (files self.new ≡
            with_change tag (put_index page (shown_index bytes)) (files self.old)) }
        ensures err { OnErr result (files self.new ≡ files self.old) }
        ensures no_page { IfErr result (IsCounted (missed self.old) (missed self.new)) }
        ensures in_place { writes_in_place self.old → page < count_index (files self.old) tag
            → IfErr result (λ fault. fault ≡ NoMemory) }
        ensures count { missed self.old ≤ missed self.new }
        ensures counted { changes self.new ≤ suc (changes self.old) }
        ensures rest { leaves_rest self.old self.new };

    /// Puts a new index page before the one at that number, or after the last one, so that the
    /// index is one page longer. Where the next page stands is the set's own. Also fails as out of
    /// memory if the index would have 2^32 pages.
    fn insert_index_page(
        &mut self,
        alloc: Global,
        tag: Tag,
        page: u32,
        bytes: Page,
    ) -> Result<(), StoreFault>
        requires directory { IsDirectory (files self.old) tag }
        requires place { page ≤ count_index (files self.old) tag }
        ensures ok { OnOk result (files self.new ≡
            with_change tag (insert_index page (shown_index bytes)) (files self.old)) }
        ensures err { OnErr result (files self.new ≡ files self.old) }
        ensures no_page { IfErr result (IsCounted (missed self.old) (missed self.new)) }
        ensures count { missed self.old ≤ missed self.new }
        ensures counted { changes self.new ≤ suc (changes self.old) }
        ensures rest { leaves_rest self.old self.new };

    /// How many rows name a file or a directory, or 0 if the tag names nothing.
    fn links(&self, tag: Tag) -> u32
        ensures { result ≡ links_at (files self.now) tag };

    /// Sets how many rows name a tag's file or directory, from 1 to 1,000.
    fn set_links(&mut self, alloc: Global, tag: Tag, links: u32) -> Result<(), StoreFault>
        requires live { IsSome (files self.old tag) }
        requires named { 1 ≤ links }
        requires most { links ≤ max_links }
        ensures ok { OnOk result (files self.new ≡
            with_change tag (linked links) (files self.old)) }
        ensures err { OnErr result (files self.new ≡ files self.old) }
        ensures no_page { IfErr result (IsCounted (missed self.old) (missed self.new)) }
        ensures in_place { writes_in_place self.old → IfErr result (λ fault. fault ≡ NoMemory) }
        ensures count { missed self.old ≤ missed self.new }
        ensures counted { changes self.new ≤ suc (changes self.old) }
        ensures rest { leaves_rest self.old self.new };

    /// How often no page was free. It never falls, and stays at its greatest value.
    fn misses(&self) -> u64
        ensures { result ≡ missed self.now };

    /// Each is within its limits, its pages have 8,192 bytes, and only a directory has pages.
    ghost sound: { (set : Self) → AreBitfiles (files set) };

    /// What is left as it was stays the same, after any number of changes, and for spent tags.
    ghost rest_same: { (set : Self) → leaves_rest set set };

    ghost rest_joins: { (a b c : Self) → leaves_rest a b → leaves_rest b c → leaves_rest a c };

    ghost rest_spends: { (a b : Self) (tag : Tag) → leaves_rest a b
        → is_spent a tag ↔ is_spent b tag };

    ghost rest_writes: { (a b : Self) → leaves_rest a b → writes_in_place a → writes_in_place b };
}
