//! The tag directory of a fileset.
ghost use Rattle.std.specs.Prelude.{◌+◌, ◌∷◌, ◌++◌, OnOk, OnErr, ◌≡◌, ◌<◌, ◌≤◌, ◌≢◌, ◌/◌, ◌%◌, ℕ, false, true, [], List, length, IfOk, IfSome, IfNone, IsSome, None, Some, IsSomeAnd};
ghost use Rattle.metadata_cells.specs.page_store.Pages.{Pages};
ghost use Rattle.tag_dirs.specs.declared.page.TagEntry.{TagEntry as Entry};
ghost use Rattle.metadata_cells.specs.domain_base.declared.place.Home.{Home as HomeOf};
ghost use Rattle.tag_dirs.specs.TagPage.{IsAllowed, IsTagPage};
ghost use Rattle.tag_dirs.specs.Directory.{IsNextIndex, IsReady};
ghost use Rattle.tag_dirs.specs.declared.dir.TagPlace.{TagPlace as PlaceOf};
ghost use Rattle.metadata_cells.specs.domain_base.declared.place.Tag.{Tag};
ghost use Rattle.tag_dirs.specs.Directory.{AddsPage, IsLast, has_home, ChangesSlot, IsDirectory, SetsTag, cell_of, entry_at as entry_there, home_with, number_with, sequence_of, CanJoin, CanTake, HasDirectory, IsDirectoryAt, IsOnPage, JoinsPage};

use crate::entries::{change_entry, lead_on};
use crate::finding::{find_in, guess_in, used_on};
use crate::guess::Guess;
use crate::page::{ENTRIES, TagEntry, can_take, new_page, read_entry, read_index, read_next};
use metadata_cells::{CellAt, Home, MetaPages, OutOfMemory, Page, Tag};
use std::alloc::Global;
use std::collections::HashMap;
use std::marker::Model;

/// More pages than a directory has.
const PAGES: u32 = 4_202_512;

/// A page of a directory: its index, which says the slots of its entries, and where it stands.
#[derive(Clone, Copy, Debug, PartialEq, Eq)]
pub struct TagPlace {
    pub index: u32,
    pub home: Home,
}

/// The tag directory of a fileset: its pages, in their chain's order. The pages themselves stand
/// among the pages of metadata that each call is given. Which of their entries may be free is a
/// guess, which contracts do not see.
#[derive(Debug, Drop)]
pub struct TagDir {
    places: Vec<TagPlace>,
    guesses: Vec<Guess>,
    numbers: HashMap<u32, usize>,
}

/// A page of tags that is ready to be put after the last one of a directory. Putting it there needs
/// room for one more page of metadata, and no other memory.
#[derive(Drop)]
pub struct ReadyPage {
    page: Page,
    last: Option<Home>,
    home: Home,
}

impl Model for TagDir {
    ghost use Rattle.std.specs.Prelude.{List, nat_eq, vec_len};
    ghost use Rattle.std.specs.HashMap.{get};
    ghost use Rattle.tag_dirs.specs.declared.dir.TagPlace.{TagPlace};
    ghost use Rattle.tag_dirs.specs.Directory.{IsKept};

    ghost Value = { List TagPlace };

    ghost view = { λ d. d.places.items };

    ghost invariant = { λ d. IsKept d.places.items (get nat_eq d.numbers) (vec_len d.guesses) };
}

/// The home of the last page, if there is one.
fn last_home(places: &[TagPlace]) -> Option<Home>
    ensures { IsLast places.now result }
{
    if places.is_empty() {
        return None;
    }
    Some(places[places.len() - 1].home)
}

/// Puts a page that is ready at its home, after the last page of its directory, which then leads to
/// it. All other entries stay. Takes no memory.
pub fn put_ready<M: MetaPages>(pages: &mut M, ready: ReadyPage)
    requires last { IfSome ready.last (λ home. IsSomeAnd (M.pages pages.old home) IsTagPage) }
    requires room { 0 < M.room pages.old }
    ensures added { (places : List PlaceOf) (index : ℕ) (home : HomeOf)
        → IsDirectory (M.pages pages.old) places → IsReady index home places ready
        → (places ≡ [] → index ≡ 0) → home_with places index ≡ None → has_home places home ≡ false
        → AddsPage (record { index = index; home = home }) places (M.pages pages.old)
        (M.pages pages.new) }
    ensures room { M.room pages.old ≤ M.room pages.new + 1 }
    ensures before { M.before pages.new ≡ M.before pages.old }
{
    let ReadyPage { page, last, home } = ready;
    lead_on(pages, &last, &home);
    pages.put(home, page);
}

impl TagDir {
    /// A directory without a page.
    pub fn new(alloc: Global) -> Self
        ensures { result ≡ [] }
    {
        TagDir {
            places: Vec::new(alloc),
            guesses: Vec::new(alloc),
            numbers: HashMap::new(alloc),
        }
    }

    /// The directory whose first page stands there, read along its chain. It counts which entries
    /// of its pages may be taken.
    pub fn read<M: MetaPages>(alloc: Global, pages: &M, first: Home) -> Result<Self, OutOfMemory>
        requires { HasDirectory (M.pages pages.now) first }
        ensures { IfOk result (IsDirectoryAt (M.pages pages.now) first) }
    {
        let mut dir = TagDir::new(alloc);
        let mut next = Some(first);
        while let Some(home) = next {
            next = dir.join(pages, &home)?;
        }
        Ok(dir)
    }

    /// Adds the page that stands there after the others, and returns the home of its next page.
    fn join<M: MetaPages>(&mut self, pages: &M, home: &Home) -> Result<Option<Home>, OutOfMemory>
        requires { IsSomeAnd (M.pages pages.now home.now) (CanJoin self.old) }
        ensures { IfOk result (λ next. IsSomeAnd (M.pages pages.now home.now)
            (λ page. JoinsPage home.now page self.old self.new next)) }
    {
        let Some(page) = pages.get(*home) else {
            return Ok(None);
        };
        let index = read_index(page);
        let home = *home;
        self.push(TagPlace { index, home }, Guess::of_page(page, index))?;
        Ok(read_next(page))
    }

    /// The pages of the directory and where they stand, in their chain's order.
    pub fn places(&self) -> &[TagPlace]
        ensures { result.now ≡ self.now }
    {
        self.places.as_slice()
    }

    /// Adds a page with this index, whose entries were never used, after the last page, which then
    /// leads to it. The first page has index 0. All other entries stay. Takes the room for the page
    /// before anything changes: after an error there may be more room, and all else is as it was.
    pub fn add_page<M: MetaPages>(
        &mut self,
        alloc: Global,
        pages: &mut M,
        index: u32,
        home: Home,
    ) -> Result<(), OutOfMemory>
        requires directory { IsDirectory (M.pages pages.old) self.old }
        requires index { index < 4202512 }
        requires first { self.old ≡ [] → index ≡ 0 }
        requires unused { home_with self.old index ≡ None }
        requires apart { has_home self.old home ≡ false }
        ensures ok { OnOk result (self.new ≡ self.old ++ record {
          index = index;
          home = home;
        } ∷ []) }
        ensures added { OnOk result (AddsPage (record {
          index = index;
          home = home;
        }) self.old (M.pages pages.old) (M.pages pages.new)) }
        ensures err { OnErr result ((self.new ≡ self.old)
            × (M.pages pages.new ≡ M.pages pages.old)) }
        ensures room { OnOk result (M.room pages.old ≤ M.room pages.new + 1) }
        ensures kept { OnErr result (M.room pages.old ≤ M.room pages.new) }
        ensures before { M.before pages.new ≡ M.before pages.old }
    {
        let page = new_page(alloc, index)?;
        pages.reserve(alloc, 1)?;
        let last = last_home(self.places.as_slice());
        self.push(TagPlace { index, home }, Guess::of_new(index))?;
        lead_on(pages, &last, &home);
        pages.put(home, page);
        Ok(())
    }

    /// Makes ready a page with this index, whose entries were never used, and adds its place after
    /// the others. The caller then puts the page there with `put_ready`, or forgets its place.
    /// After an error nothing has changed.
    pub fn prepare_page(
        &mut self,
        alloc: Global,
        index: u32,
        home: Home,
    ) -> Result<ReadyPage, OutOfMemory>
        requires index { index < 4202512 }
        requires unused { home_with self.old index ≡ None }
        ensures ok { OnOk result (self.new ≡ self.old ++ record {
          index = index;
          home = home;
        } ∷ []) }
        ensures ready { IfOk result (IsReady index home self.old) }
        ensures err { OnErr result (self.new ≡ self.old) }
    {
        let page = new_page(alloc, index)?;
        let last = last_home(self.places.as_slice());
        let again = home;
        self.push(TagPlace { index, home }, Guess::of_new(index))?;
        Ok(ReadyPage {
            page,
            last,
            home: again,
        })
    }

    /// Forgets the last place. No other place has its index. Takes no memory.
    pub fn forget_last(&mut self)
        requires { (places : List PlaceOf) (place : PlaceOf) → self.old ≡ places ++ place ∷ []
            → home_with places place.index ≡ None }
        ensures { (places : List PlaceOf) (place : PlaceOf) → self.old ≡ places ++ place ∷ []
            → self.new ≡ places }
    {
        if let Some(place) = self.places.pop() {
            self.guesses.pop();
            self.numbers.remove(&place.index);
        }
    }

    /// The least index that no page of the directory has. Returns None if all are taken.
    pub fn next_index(&self) -> Option<u32>
        ensures some { IfSome result (λ index. IsNextIndex index self.now) }
        ensures none { IfNone result ((index : ℕ) → index < 4202512
            → ¬ home_with self.now index ≡ None) }
    {
        for index in 0..PAGES {
            if !self.has_index(index) {
                return Some(index);
            }
        }
        None
    }

    /// Whether a page of the directory has this index.
    fn has_index(&self, index: u32) -> bool
        ensures there { result ≡ true → ¬ home_with self.now index ≡ None }
        ensures absent { result ≡ false → home_with self.now index ≡ None }
    {
        self.number_at(index).is_some()
    }

    /// The number of the page that has the index, counted along the chain.
    fn number_at(&self, index: u32) -> Option<usize>
        ensures { result ≡ number_with self.now index }
    {
        self.numbers.get(&index).copied()
    }

    /// Adds a place after the others, with the guess of its page. After an error nothing has
    /// changed.
    fn push(&mut self, place: TagPlace, guess: Guess) -> Result<(), OutOfMemory>
        requires { home_with self.old place.index ≡ None }
        ensures ok { OnOk result (self.new ≡ self.old ++ place ∷ []) }
        ensures err { OnErr result (self.new ≡ self.old) }
    {
        self.places.reserve(1)?;
        self.guesses.reserve(1)?;
        self.numbers.insert(place.index, self.places.len())?;
        self.places.push_reserved(place);
        self.guesses.push_reserved(guess);
        Ok(())
    }

    /// The cell that the tag leads to. Returns None if and only if no page has its slot, or the
    /// entry there is not used or has another sequence.
    pub fn look<M: MetaPages>(&self, pages: &M, tag: Tag) -> Option<CellAt>
        requires { IsDirectory (M.pages pages.now) self.now }
        ensures { result ≡ cell_of (M.pages pages.now) self.now tag }
    {
        let entry = self.entry_at(pages, tag.slot)?;
        if entry.seq == tag.seq { entry.at } else { None }
    }

    /// Takes a free entry, and makes its tag lead to this cell. The tag has the entry's slot, and a
    /// sequence one above the slot's last. Returns None if and only if no page has a free entry of
    /// a slot other than 0 whose sequence can rise, and then nothing has changed. Takes no memory.
    pub fn enter<M: MetaPages>(&mut self, pages: &mut M, at: CellAt) -> Option<Tag>
        requires directory { IsDirectory (M.pages pages.old) self.old }
        requires cell { at.cell < 28 }
        ensures none { IfNone result ((tag : Tag) → ¬ CanTake (M.pages pages.old) self.old tag) }
        ensures unchanged { IfNone result (M.pages pages.new ≡ M.pages pages.old) }
        ensures free { IfSome result (CanTake (M.pages pages.old) self.old) }
        ensures entered { IfSome result (λ tag. SetsTag tag (Some at) self.old (M.pages pages.old)
            (M.pages pages.new)) }
        ensures same { self.new ≡ self.old }
        ensures room { M.room pages.new ≡ M.room pages.old }
        ensures before { M.before pages.new ≡ M.before pages.old }
    {
        let tag = self.free_tag(pages)?;
        self.enter_as(pages, tag, at);
        Some(tag)
    }

    /// Makes a tag lead to this cell, as an entry of a clone. Its slot's entry is not used. Returns
    /// false if and only if no page of the directory has the slot, and then nothing has changed.
    /// Takes no memory.
    pub fn enter_as<M: MetaPages>(&mut self, pages: &mut M, tag: Tag, at: CellAt) -> bool
        requires directory { IsDirectory (M.pages pages.old) self.old }
        requires slot { tag.slot ≢ 0 }
        requires seq { 1 ≤ tag.seq }
        requires cell { at.cell < 28 }
        requires free { IfSome (entry_there (M.pages pages.old) self.old tag.slot)
            (λ entry. entry.at ≡ None) }
        ensures entered { result ≡ true → SetsTag tag (Some at) self.old (M.pages pages.old)
            (M.pages pages.new) }
        ensures missing { result ≡ false
            → (sequence_of (M.pages pages.old) self.old tag.slot ≡ None)
            × (M.pages pages.new ≡ M.pages pages.old) }
        ensures same { self.new ≡ self.old }
        ensures room { M.room pages.new ≡ M.room pages.old }
        ensures before { M.before pages.new ≡ M.before pages.old }
    {
        self.change(
            pages,
            tag.slot,
            &TagEntry {
                seq: tag.seq,
                at: Some(at),
            },
        )
    }

    /// Makes a tag that is in use lead to another cell. Takes no memory.
    pub fn switch<M: MetaPages>(&mut self, pages: &mut M, tag: Tag, at: CellAt)
        requires directory { IsDirectory (M.pages pages.old) self.old }
        requires used { IsSome (cell_of (M.pages pages.old) self.old tag) }
        requires cell { at.cell < 28 }
        ensures value { SetsTag tag (Some at) self.old (M.pages pages.old) (M.pages pages.new) }
        ensures same { self.new ≡ self.old }
        ensures room { M.room pages.new ≡ M.room pages.old }
        ensures before { M.before pages.new ≡ M.before pages.old }
    {
        self.change(
            pages,
            tag.slot,
            &TagEntry {
                seq: tag.seq,
                at: Some(at),
            },
        );
    }

    /// Takes a tag out of use. Its slot keeps its sequence. Takes no memory.
    pub fn drop_tag<M: MetaPages>(&mut self, pages: &mut M, tag: Tag)
        requires directory { IsDirectory (M.pages pages.old) self.old }
        requires used { IsSome (cell_of (M.pages pages.old) self.old tag) }
        ensures value { SetsTag tag None self.old (M.pages pages.old) (M.pages pages.new) }
        ensures same { self.new ≡ self.old }
        ensures room { M.room pages.new ≡ M.room pages.old }
        ensures before { M.before pages.new ≡ M.before pages.old }
    {
        let seq = tag.seq;
        self.change(pages, tag.slot, &TagEntry { seq, at: None });
    }

    /// A tag that may be taken. Looks first where the guesses say, and then on all pages. Returns
    /// None if and only if no page has one.
    pub fn free_tag<M: MetaPages>(&mut self, pages: &M) -> Option<Tag>
        requires { IsDirectory (M.pages pages.now) self.old }
        ensures some { IfSome result (CanTake (M.pages pages.now) self.old) }
        ensures none { IfNone result ((tag : Tag) → ¬ CanTake (M.pages pages.now) self.old tag) }
        ensures same { self.new ≡ self.old }
    {
        let guessed = guess_in(pages, self.places.as_slice(), &mut self.guesses);
        if guessed.is_some() {
            return guessed;
        }
        find_in(pages, self.places.as_slice())
    }

    /// A tag in use of the page with that number, counted along the chain from 0. Returns None if
    /// and only if that page has none, or the directory has no such page. In this way all tags of a
    /// directory are found, page by page, while each is taken out of use.
    pub fn tag_on<M: MetaPages>(&self, pages: &M, number: usize) -> Option<Tag>
        requires { IsDirectory (M.pages pages.now) self.now }
        ensures there { IfSome result (λ tag. IsSome (cell_of (M.pages pages.now) self.now tag)) }
        ensures on { IfSome result (IsOnPage self.now number) }
        ensures none { IfNone result ((tag : Tag) → IsOnPage self.now number tag
            → cell_of (M.pages pages.now) self.now tag ≡ None) }
    {
        if self.places.len() <= number {
            return None;
        }
        used_on(pages, &self.places[number])
    }

    /// The number of the page that has the slot, counted along the chain.
    fn number_of(&self, slot: u32) -> Option<usize>
        ensures { result ≡ number_with self.now (slot / 1022) }
    {
        self.number_at(slot / ENTRIES as u32)
    }

    /// The home of the page that has the slot.
    fn home_of(&self, slot: u32) -> Option<Home>
        ensures { result ≡ home_with self.now (slot / 1022) }
    {
        let number = self.number_of(slot)?;
        Some(self.places[number].home)
    }

    /// The entry of a slot, if a page has it.
    fn entry_at<M: MetaPages>(&self, pages: &M, slot: u32) -> Option<TagEntry>
        requires { IsDirectory (M.pages pages.now) self.now }
        ensures { result ≡ entry_there (M.pages pages.now) self.now slot }
    {
        let page = pages.get(self.home_of(slot)?)?;
        Some(read_entry(page, slot as usize % ENTRIES))
    }

    /// Changes the entry of a slot, in place. Returns false if and only if no page has the slot,
    /// and then nothing has changed.
    fn change<M: MetaPages>(&mut self, pages: &mut M, slot: u32, entry: &TagEntry) -> bool
        requires directory { IsDirectory (M.pages pages.old) self.old }
        requires allowed { IsAllowed slot entry.now }
        ensures changes { result ≡ true → ChangesSlot slot entry.now self.old (M.pages pages.old)
            (M.pages pages.new) }
        ensures missing { result ≡ false → (home_with self.old (slot / 1022) ≡ None)
            × (M.pages pages.new ≡ M.pages pages.old) }
        ensures same { self.new ≡ self.old }
        ensures room { M.room pages.new ≡ M.room pages.old }
        ensures before { M.before pages.new ≡ M.before pages.old }
    {
        let Some(number) = self.number_of(slot) else {
            return false;
        };
        let before = self.change_on(pages, number, slot, entry);
        let place = slot as usize % ENTRIES;
        self.guesses[number].note_change(place, before, can_take(entry));
        true
    }

    /// Changes the entry of a slot on the page with that number, and returns whether the old entry
    /// could be taken.
    fn change_on<M: MetaPages>(
        &self,
        pages: &mut M,
        number: usize,
        slot: u32,
        entry: &TagEntry,
    ) -> bool
        requires directory { IsDirectory (M.pages pages.old) self.now }
        requires number { number_with self.now (slot / 1022) ≡ Some number }
        requires allowed { IsAllowed slot entry.now }
        ensures changes { ChangesSlot slot entry.now self.now (M.pages pages.old)
            (M.pages pages.new) }
        ensures room { M.room pages.new ≡ M.room pages.old }
        ensures before { M.before pages.new ≡ M.before pages.old }
    {
        let home = self.places[number].home;
        change_entry(pages, &home, slot as usize % ENTRIES, entry)
    }
}
