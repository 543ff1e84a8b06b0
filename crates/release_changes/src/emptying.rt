//! Emptying what is being removed from slots: its tags are taken out of use, and its slot is freed.
ghost use Rattle.std.specs.Prelude.{◌≡◌, ◌<◌, ◌≤◌, ◌⊎◌, ℕ, true, false, None, Contains, IfNone, IfOk, IfSome, IsSomeAnd, MatchBool, OnErr, OnOk, length, slice_get, slice_set, []};
ghost use Rattle.domain_changes.specs.domain_base.declared.place.Home.{Home as HomeOf};
ghost use Rattle.domain_changes.specs.domain_base.declared.place.Tag.{Tag as TagOf};
ghost use Rattle.domain_changes.specs.fileset_files.Changes.{IsLive};
ghost use Rattle.domain_changes.specs.fileset_files.Files.{AreFiles, Chains, HasFiles};
ghost use Rattle.domain_changes.specs.file_release.Releases.{AreAllOnce};
ghost use Rattle.domain_changes.specs.release_steps.Links.{homes_of};
ghost use Rattle.domain_changes.specs.fileset_model.Filesets.{FilesetMap};
ghost use Rattle.domain_changes.specs.free_space.Spaces.{kept_spaces};
ghost use Rattle.domain_changes.specs.staged_pages.Store.{before_of, pages_of};
ghost use Rattle.domain_changes.specs.index_pages.Changes.{AreHeld, DropsIndex};
ghost use Rattle.domain_changes.specs.domain_standing.Chains.{IsRemoved};
ghost use Rattle.domain_changes.specs.domain_memory.Slots.{slot_in};
ghost use Rattle.domain_changes.specs.domain_memory.Held.{held_open};
ghost use Rattle.domain_changes.specs.domain_memory.Kept.{KeepsKept};
ghost use Rattle.domain_changes.specs.domain_memory.Memory.{StandsFor};
ghost use Rattle.domain_changes.specs.domain_memory.Staged.{IsSettled, MayBeKept, MayGoBack};
ghost use Rattle.domain_changes.specs.domain_memory.Going.{HasNoQuota, IsUsedIn, MayEmpty, NoneToEmpty};
ghost use Rattle.release_changes.specs.Emptying.{Empties, HasIndexApart, IsFreeSlot, IsUsedOrBare, MayBeKeptForAny, MayTakeOut, TakesOfFiles, TakesOut, UsesFewer};
ghost use Rattle.release_changes.specs.LettingGo.{StandsForAny};
ghost use Rattle.release_changes.specs.QuotaCells.{LosesOne};

use crate::quotas::{lose_or_take_back, names_quota_cells};
use domain_changes::from_domain_base::limits::FILESET_SLOTS;
use domain_changes::{
    Bitfiles, CellAt, DomainMemory, FilesetNo, FreeSpace, MetaPages, OutOfMemory, PageUse,
    SlotFiles, SlotItem, StagedPages, Tag, TagPlace, count_index, drop_index, put_in_table,
    take_out,
};
use std::alloc::Global;

/// How many tags a change takes out of use at most. For each of them two pages change: that of its
/// entry and that of the first cell.
const MOST_TAGS: u32 = 14;

/// Takes a live tag out of use, and gives up the pages of the index of what it names, which wait
/// for the group. Returns the first cell of what it names, which then says that all of it is to be
/// let go of. After an Err nothing but room has changed. Fails only if memory runs out, or if an
/// index has 2^32 - 1 pages or more, for which no domain has room.
fn take_with_index<M: MetaPages>(
    alloc: Global,
    pages: &mut M,
    space: &mut FreeSpace,
    files: &mut Bitfiles,
    tag: Tag,
    group: u64,
) -> Result<CellAt, OutOfMemory>
    requires files { HasFiles files.old.fileset files.old.tags (M.pages pages.old) }
    requires live { (chains : Chains)
        → AreFiles files.old.fileset files.old.tags (M.pages pages.old) chains
        → IsLive tag chains }
    requires index { (chains : Chains)
        → AreFiles files.old.fileset files.old.tags (M.pages pages.old) chains
        → HasIndexApart files.old.tags space.old (M.pages pages.old) (chains tag) }
    ensures takes { IfOk result (λ at. TakesOut group files.old.fileset files.old.tags tag at
        space.old space.new (M.pages pages.old) (M.pages pages.new)) }
    ensures err { OnErr result (M.pages pages.new ≡ M.pages pages.old) }
    ensures none { OnErr result (space.new ≡ space.old) }
    ensures held { held_open space.new ≤ held_open space.old }
    ensures kept { kept_spaces space.new ≡ kept_spaces space.old }
    ensures same { files.new ≡ files.old }
    ensures before { M.before pages.new ≡ M.before pages.old }
{
    let Some(index) = files.index(pages, tag) else {
        return files.remove(alloc, pages, tag);
    };
    if count_index(pages, Some(index.first)) == u32::MAX {
        return Err(OutOfMemory);
    }
    let at = take_out(alloc, pages, files, tag)?;
    drop_index(pages, space, index.first, group);
    Ok(at)
}

/// Takes a live tag of these files out of use, and gives up the pages of the index of what it
/// names.
fn take_of_files(
    slot: &mut SlotFiles,
    pages: &mut StagedPages,
    space: &mut FreeSpace,
    alloc: Global,
    tag: Tag,
    group: u64,
) -> Result<CellAt, OutOfMemory>
    requires { MayTakeOut tag space.old (pages_of pages.old) slot.old }
    ensures takes { IfOk result (λ at. TakesOfFiles group tag at space.old space.new
        (pages_of pages.old) (pages_of pages.new) slot.old) }
    ensures same { slot.new ≡ slot.old }
    ensures held { held_open space.new ≤ held_open space.old }
    ensures kept { kept_spaces space.new ≡ kept_spaces space.old }
    ensures before { before_of pages.new ≡ before_of pages.old }
{
    take_with_index(alloc, pages, space, &mut slot.files, tag, group)
}

/// Takes a live tag of what is in a slot out of use, and gives up the pages of the index of what it
/// names.
fn take_of_slot(
    slot: &mut Option<SlotFiles>,
    pages: &mut StagedPages,
    space: &mut FreeSpace,
    alloc: Global,
    tag: Tag,
    group: u64,
) -> Result<CellAt, OutOfMemory>
    requires { IsSomeAnd slot.old (MayTakeOut tag space.old (pages_of pages.old)) }
    ensures takes { IfOk result (λ at. IsSomeAnd slot.old (TakesOfFiles group tag at space.old
        space.new (pages_of pages.old) (pages_of pages.new))) }
    ensures same { slot.new ≡ slot.old }
    ensures held { held_open space.new ≤ held_open space.old }
    ensures kept { kept_spaces space.new ≡ kept_spaces space.old }
    ensures before { before_of pages.new ≡ before_of pages.old }
{
    match slot {
        Some(files) => take_of_files(files, pages, space, alloc, tag, group),
        None => unreachable!(),
    }
}

/// Takes one used tag of what is being removed from a slot out of use. What it names goes as a
/// whole and is put on the list, which has room for it. The filesets stay what they are. Fails only
/// if memory runs out. After an Err the change may be half made, and must be taken back.
fn take_tag_out(
    memory: &mut DomainMemory,
    alloc: Global,
    number: FilesetNo,
    tag: Tag,
    group: u64,
) -> Result<(), OutOfMemory>
    requires ready { ∥ MayBeKeptForAny memory.old ∥₁ }
    requires back { ∥ MayGoBack memory.old ∥₁ }
    requires removed { IsRemoved (slice_get memory.old.table.slots number) }
    requires used { IsUsedIn memory.old number tag }
    ensures ok { (all : FilesetMap) → MayBeKept memory.old all
        → OnOk result (MayBeKept memory.new all) }
    ensures fewer { OnOk result (UsesFewer number memory.old memory.new) }
    ensures held { held_open memory.new.space ≤ held_open memory.old.space }
    ensures kept { KeepsKept memory.old memory.new }
    ensures back { ∥ MayGoBack memory.new ∥₁ }
    ensures table { memory.new.table ≡ memory.old.table }
    ensures frame { memory.new.frame ≡ memory.old.frame }
{
    let at = take_of_slot(
        &mut memory.slots[number.number() as usize],
        &mut memory.pages,
        &mut memory.space,
        alloc,
        tag,
        group,
    )?;
    memory.listed.push(at)?;
    memory.list.reserve(memory.listed.len())
}

/// A tag that is used of what is in a slot; None if and only if no tag is used.
fn used_tag(memory: &DomainMemory, number: FilesetNo) -> Option<Tag>
    requires ready { ∥ MayBeKeptForAny memory.now ∥₁ }
    requires back { ∥ MayGoBack memory.now ∥₁ }
    requires removed { IsRemoved (slice_get memory.now.table.slots number) }
    ensures some { IfSome result (IsUsedIn memory.now number) }
    ensures none { IfNone result ((tag : TagOf) → ¬ IsUsedIn memory.now number tag) }
{
    let Some(slot) = &memory.slots[number.number() as usize] else {
        return None;
    };
    for page in 0..slot.files.tag_places().len() {
        let found = slot.files.tag_on(&memory.pages, page);
        if found.is_some() {
            return found;
        }
    }
    None
}

/// Takes tags of what is being removed from a slot out of use, fourteen at most, and returns how
/// many: 0 if and only if no tag is used, and then nothing has changed. After an Err the change may
/// be half made, and must be taken back.
fn take_tags_out(
    memory: &mut DomainMemory,
    alloc: Global,
    number: FilesetNo,
    group: u64,
) -> Result<u32, OutOfMemory>
    requires ready { ∥ MayBeKeptForAny memory.old ∥₁ }
    requires back { ∥ MayGoBack memory.old ∥₁ }
    requires removed { IsRemoved (slice_get memory.old.table.slots number) }
    ensures ok { (all : FilesetMap) → MayBeKept memory.old all
        → OnOk result (MayBeKept memory.new all) }
    ensures none { IfOk result (λ count. count ≡ 0 → (tag : TagOf)
        → ¬ IsUsedIn memory.old number tag) }
    ensures fewer { IfOk result (λ count. ¬ count ≡ 0
        → UsesFewer number memory.old memory.new) }
    ensures same { IfOk result (λ count. count ≡ 0 → memory.new ≡ memory.old) }
    ensures held { held_open memory.new.space ≤ held_open memory.old.space }
    ensures kept { KeepsKept memory.old memory.new }
    ensures back { ∥ MayGoBack memory.new ∥₁ }
    ensures frame { memory.new.frame ≡ memory.old.frame }
{
    for count in 0..MOST_TAGS {
        let Some(tag) = used_tag(memory, number) else {
            return Ok(count);
        };
        take_tag_out(memory, alloc, number, tag, group)?;
    }
    Ok(MOST_TAGS)
}

/// Gives back the pages of a tag directory: each waits for the group, and is no longer there. It
/// takes no memory.
fn give_tags_back<M: MetaPages>(
    pages: &mut M,
    space: &mut FreeSpace,
    places: &[TagPlace],
    group: u64,
)
    requires held { AreHeld space.old (homes_of places.now) }
    requires low { (home : HomeOf) → Contains (homes_of places.now) home → 1 ≤ home.vol }
    requires once { AreAllOnce (homes_of places.now) }
    ensures drops { DropsIndex group space.old space.new (M.pages pages.old) (M.pages pages.new)
        (homes_of places.now) }
    ensures before { M.before pages.new ≡ M.before pages.old }
{
    for place in places {
        space.give_back(place.home, PageUse::Metadata, group);
        pages.forget(place.home);
    }
}

/// Takes what is in a slot out of it.
fn take_slot(slots: &mut Vec<Option<SlotFiles>>, number: FilesetNo) -> Option<SlotFiles>
    requires { number < length slots.old.items }
    ensures was { result ≡ slot_in slots.old.items number }
    ensures slots { slots.new.items ≡ slice_set slots.old.items number None }
{
    slots[number.number() as usize].take()
}

/// Frees a slot of what is being removed, if no tag of it is used and it has no quota cell: the
/// pages of its tag directory wait for the group. The filesets stay what they are. No change may be
/// laid over the domain before, and this one must be kept: it cannot be taken back. Fails only if
/// memory runs out, and then nothing has changed.
fn free_slot(
    memory: &mut DomainMemory,
    alloc: Global,
    number: FilesetNo,
    group: u64,
) -> Result<(), OutOfMemory>
    requires settled { IsSettled memory.old }
    requires stands { ∥ StandsForAny memory.old ∥₁ }
    requires back { ∥ MayGoBack memory.old ∥₁ }
    requires removed { IsRemoved (slice_get memory.old.table.slots number) }
    requires unused { (tag : TagOf) → ¬ IsUsedIn memory.old number tag }
    requires quota { HasNoQuota memory.old number }
    ensures ok { (all : FilesetMap) → StandsFor memory.old all
        → OnOk result (MayBeKept memory.new all) }
    ensures free { OnOk result (IsFreeSlot number memory.new) }
    ensures err { OnErr result (memory.new ≡ memory.old) }
    ensures held { held_open memory.new.space ≤ held_open memory.old.space }
    ensures back { ∥ MayGoBack memory.new ∥₁ }
    ensures frame { memory.new.frame ≡ memory.old.frame }
{
    let SlotItem::Removed { .. } = memory.table.slot(number) else {
        unreachable!();
    };
    put_in_table(memory, alloc, number, SlotItem::Free)?;
    memory.was = None;
    if let Some(slot) = take_slot(&mut memory.slots, number) {
        let places = slot.files.tag_places();
        give_tags_back(&mut memory.pages, &mut memory.space, places, group);
    }
    Ok(())
}

/// Makes one change to what is being removed from a slot and has no used tag: lets go of one of its
/// quota cells or, if it has none, frees the slot. This change must be kept. Fails only if memory
/// runs out, and then the domain still stands for the same filesets.
fn end_slot(
    memory: &mut DomainMemory,
    alloc: Global,
    number: FilesetNo,
    group: u64,
) -> Result<(), OutOfMemory>
    requires settled { IsSettled memory.old }
    requires stands { ∥ StandsForAny memory.old ∥₁ }
    requires back { ∥ MayGoBack memory.old ∥₁ }
    requires may { MayEmpty memory.old number }
    requires unused { (tag : TagOf) → ¬ IsUsedIn memory.old number tag }
    ensures ok { (all : FilesetMap) → StandsFor memory.old all
        → OnOk result (MayBeKept memory.new all) }
    ensures goes { OnOk result (LosesOne number memory.old memory.new
        ⊎ IsFreeSlot number memory.new) }
    ensures stands { (all : FilesetMap) → StandsFor memory.old all
        → OnErr result (StandsFor memory.new all) }
    ensures settled { OnErr result (IsSettled memory.new) }
    ensures held { held_open memory.new.space ≤ held_open memory.old.space }
    ensures back { ∥ MayGoBack memory.new ∥₁ }
    ensures frame { memory.new.frame ≡ memory.old.frame }
{
    if names_quota_cells(memory, number) {
        return lose_or_take_back(memory, alloc, number);
    }
    free_slot(memory, alloc, number, group)
}

/// Makes one change to what is being removed from a slot, and keeps it: takes some of its tags out
/// of use or, once none is used, lets go of a quota cell of it, or frees the slot. The domain
/// stands for the same filesets, even at an error. Fails only if memory runs out.
fn empty_slot(
    memory: &mut DomainMemory,
    alloc: Global,
    number: FilesetNo,
    group: u64,
) -> Result<(), OutOfMemory>
    requires settled { IsSettled memory.old }
    requires stands { ∥ StandsForAny memory.old ∥₁ }
    requires back { ∥ MayGoBack memory.old ∥₁ }
    requires may { MayEmpty memory.old number }
    ensures stands { (all : FilesetMap) → StandsFor memory.old all → StandsFor memory.new all }
    ensures goes { OnOk result (Empties number memory.old memory.new) }
    ensures held { held_open memory.new.space ≤ held_open memory.old.space }
    ensures settled { IsSettled memory.new }
    ensures back { ∥ MayGoBack memory.new ∥₁ }
    ensures frame { memory.new.frame ≡ memory.old.frame }
{
    let Ok(count) = take_tags_out(memory, alloc, number, group) else {
        memory.take_back();
        return Err(OutOfMemory);
    };
    if count == 0 {
        end_slot(memory, alloc, number, group)?;
    }
    memory.keep();
    Ok(())
}

/// Whether what is being removed from a slot has a used tag, or has no quota cell while no page of
/// a tag directory is on the list. It takes no memory.
fn is_used_or_bare(memory: &DomainMemory, number: FilesetNo) -> bool
    requires ready { ∥ MayBeKeptForAny memory.now ∥₁ }
    requires back { ∥ MayGoBack memory.now ∥₁ }
    ensures { MatchBool result (IsUsedOrBare memory.now number)
        (¬ IsUsedOrBare memory.now number) }
{
    match memory.table.slot(number) {
        SlotItem::Removed { quota, .. } => {
            (quota.is_none() && memory.list.last_tag_page().is_none())
                || used_tag(memory, number).is_some()
        }
        _ => false,
    }
}

/// Whether what is in a slot is being removed and may be emptied by a change. It takes no memory.
fn may_empty_slot(memory: &DomainMemory, number: FilesetNo) -> bool
    requires ready { ∥ MayBeKeptForAny memory.now ∥₁ }
    requires back { ∥ MayGoBack memory.now ∥₁ }
    requires listed { memory.now.listed.items ≡ [] }
    ensures { MatchBool result (MayEmpty memory.now number) (¬ MayEmpty memory.now number) }
{
    if names_quota_cells(memory, number) {
        return true;
    }
    is_used_or_bare(memory, number)
}

/// The first slot that is being removed and may be emptied by a change; None if and only if no slot
/// may be emptied.
fn slot_to_empty(memory: &DomainMemory) -> Option<FilesetNo>
    requires ready { ∥ MayBeKeptForAny memory.now ∥₁ }
    requires back { ∥ MayGoBack memory.now ∥₁ }
    requires listed { memory.now.listed.items ≡ [] }
    ensures some { IfSome result (MayEmpty memory.now) }
    ensures none { IfNone result (NoneToEmpty memory.now) }
{
    for n in 0..FILESET_SLOTS {
        let number = FilesetNo::new(n)?;
        if may_empty_slot(memory, number) {
            return Some(number);
        }
    }
    None
}

/// Whether something that is being removed from a slot may be emptied by a change.
pub fn may_empty(memory: &DomainMemory) -> bool
    requires settled { IsSettled memory.now }
    requires stands { ∥ StandsForAny memory.now ∥₁ }
    requires back { ∥ MayGoBack memory.now ∥₁ }
    ensures { result ≡ false → NoneToEmpty memory.now }
{
    slot_to_empty(memory).is_some()
}

/// Makes one change to what is being removed from the first slot that may be emptied, and keeps it:
/// takes up to fourteen of its tags out of use and puts their files on the list, lets go of a quota
/// cell, or frees the slot. The domain stands for the same filesets, even at an error, and no more
/// pages are held. Returns whether there was such a slot, and then less of it is left; if there was
/// none, nothing changes. Fails only if memory runs out.
pub fn empty_some(memory: &mut DomainMemory, alloc: Global, group: u64) -> Result<bool, OutOfMemory>
    requires settled { IsSettled memory.old }
    requires stands { ∥ StandsForAny memory.old ∥₁ }
    requires back { ∥ MayGoBack memory.old ∥₁ }
    ensures stands { (all : FilesetMap) → StandsFor memory.old all → StandsFor memory.new all }
    ensures held { held_open memory.new.space ≤ held_open memory.old.space }
    ensures some { IfOk result (λ did. MatchBool did ((number : ℕ) × MayEmpty memory.old number)
        (NoneToEmpty memory.old)) }
    ensures goes { IfOk result (λ did. did ≡ true
        → (number : ℕ) × MayEmpty memory.old number × Empties number memory.old memory.new) }
    ensures same { IfOk result (λ did. did ≡ false → memory.new ≡ memory.old) }
    ensures settled { IsSettled memory.new }
    ensures back { ∥ MayGoBack memory.new ∥₁ }
    ensures frame { memory.new.frame ≡ memory.old.frame }
{
    let Some(number) = slot_to_empty(memory) else {
        return Ok(false);
    };
    empty_slot(memory, alloc, number, group)?;
    Ok(true)
}
