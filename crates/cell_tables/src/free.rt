//! Free cells of pages in memory: handed out, written and taken back.
ghost use Rattle.std.specs.Prelude.{◌≡◌, ◌∷◌, [], Contains, IfOk, IfSome, IsSomeAnd, OnOk, true, false};
ghost use Rattle.free_cells.specs.domain_base.declared.place.CellAt.{CellAt};
ghost use Rattle.free_cells.specs.domain_base.declared.place.Home.{Home};
ghost use Rattle.free_cells.specs.page_store.Pages.{same_home};
ghost use Rattle.free_cells.specs.metadata_cells.CellPage.{HasPlace, IsEmptyPage, IsUsedAt, KeepsHeaders, KeepsWellFormed};
ghost use Rattle.free_cells.specs.metadata_cells.Chain.{LeavesOthers, is_at};
ghost use Rattle.free_cells.specs.Belong.{Belong, LeadsTo};
ghost use Rattle.free_cells.specs.Cells.{table_of};

use crate::lines::{push_bytes, push_page};
use crate::writing::limits;
use free_cells::{
    CellAt, CellHead, CellKind, FilesetNo, FreeCells, Home, MemoryPages, MetaPages, OutOfMemory,
    VolIx, empty_page, write_cell,
};
use std::alloc::Global;
use table_words::{Told, Words};

/// Page 3 of volume 1.
fn first_home() -> Home
    ensures { result ≡ record { vol = 1; page = 3 } }
{
    Home {
        vol: VolIx::new(1).unwrap(),
        page: 3,
    }
}

/// Page 5 of volume 2.
fn second_home() -> Home
    ensures { result ≡ record { vol = 2; page = 5 } }
{
    Home {
        vol: VolIx::new(2).unwrap(),
        page: 5,
    }
}

/// Page 9 of volume 1.
fn added_home() -> Home
    ensures { result ≡ record { vol = 1; page = 9 } }
{
    Home {
        vol: VolIx::new(1).unwrap(),
        page: 9,
    }
}

/// Puts a page of free cells at a home, with index 0.
fn put_empty(alloc: Global, pages: &mut MemoryPages, home: Home) -> Result<(), OutOfMemory>
    ensures there { OnOk result (IsSomeAnd (⟦<MemoryPages as MetaPages>⟧.pages pages.new home)
        (IsEmptyPage 0)) }
    ensures others { OnOk result ((h : Home) → same_home h home ≡ false
        → ⟦<MemoryPages as MetaPages>⟧.pages pages.new h
        ≡ ⟦<MemoryPages as MetaPages>⟧.pages pages.old h) }
{
    let page = empty_page(alloc, 0)?;
    pages.reserve(alloc, 1)?;
    pages.put(home, page);
    Ok(())
}

/// A page of free cells on each of two volumes.
fn two_pages(alloc: Global) -> Result<MemoryPages, OutOfMemory>
    ensures first { IfOk result (λ pages. IsSomeAnd (⟦<MemoryPages as MetaPages>⟧.pages pages
        (record { vol = 1; page = 3 })) (IsEmptyPage 0)) }
    ensures second { IfOk result (λ pages. IsSomeAnd (⟦<MemoryPages as MetaPages>⟧.pages pages
        (record { vol = 2; page = 5 })) (IsEmptyPage 0)) }
{
    let mut pages = MemoryPages::new(alloc);
    put_empty(alloc, &mut pages, first_home())?;
    put_empty(alloc, &mut pages, second_home())?;
    Ok(pages)
}

/// The free cells of volume 1, whose page was read.
fn one_read(alloc: Global, pages: &MemoryPages) -> Result<FreeCells, OutOfMemory>
    requires { IsSomeAnd (⟦<MemoryPages as MetaPages>⟧.pages pages.now
        (record { vol = 1; page = 3 })) (IsEmptyPage 0) }
    ensures belong { IfOk result (λ cells. Belong cells
        (⟦<MemoryPages as MetaPages>⟧.pages pages.now)) }
    ensures first { IfOk result (λ cells. table_of cells 1 ≡ 3 ∷ []) }
    ensures second { IfOk result (λ cells. table_of cells 2 ≡ []) }
    ensures ends { IfOk result (λ cells. LeadsTo cells 1
        (⟦<MemoryPages as MetaPages>⟧.pages pages.now) 0) }
{
    let mut cells = FreeCells::new(alloc)?;
    cells.read_page(alloc, pages, first_home())?;
    Ok(cells)
}

/// Writes a cell with the limits of a user and of a group.
fn write_limits(alloc: Global, pages: &mut MemoryPages, at: &CellAt) -> Result<(), OutOfMemory>
    requires { HasPlace (⟦<MemoryPages as MetaPages>⟧.pages pages.old) at.now }
    ensures used { OnOk result (IsUsedAt (⟦<MemoryPages as MetaPages>⟧.pages pages.new) at.now) }
    ensures others { OnOk result (LeavesOthers (is_at at.now)
        (⟦<MemoryPages as MetaPages>⟧.pages pages.old)
        (⟦<MemoryPages as MetaPages>⟧.pages pages.new)) }
    ensures well_formed { OnOk result (KeepsWellFormed
        (⟦<MemoryPages as MetaPages>⟧.pages pages.old)
        (⟦<MemoryPages as MetaPages>⟧.pages pages.new)) }
    ensures headers { OnOk result (KeepsHeaders
        (⟦<MemoryPages as MetaPages>⟧.pages pages.old)
        (⟦<MemoryPages as MetaPages>⟧.pages pages.new)) }
{
    let records = limits(alloc, 5, 7)?;
    let head = CellHead {
        next: None,
        slot: 10,
        seq: 3,
        fileset: FilesetNo::new(1),
        kind: CellKind::Quota,
    };
    write_cell(pages, *at, &head, &records);
    Ok(())
}

/// Takes a cell, of volume 1 if it has a free one, and writes it.
fn take_and_write(
    alloc: Global,
    pages: &mut MemoryPages,
    cells: &mut FreeCells,
) -> Result<CellAt, OutOfMemory>
    requires { Belong cells.old (⟦<MemoryPages as MetaPages>⟧.pages pages.old) }
    ensures used { IfOk result (IsUsedAt (⟦<MemoryPages as MetaPages>⟧.pages pages.new)) }
    ensures table { IfOk result (λ at. Contains (table_of cells.new at.vol) at.page) }
    ensures belong { OnOk result (Belong cells.new
        (⟦<MemoryPages as MetaPages>⟧.pages pages.new)) }
{
    let at = cells.new_cell(first_home().vol).ok_or(OutOfMemory)?;
    write_limits(alloc, pages, &at)?;
    Ok(at)
}

/// Tells bytes of a page, if they are there.
fn push_part(told: &mut Told, bytes: Option<&[u8]>) {
    match bytes {
        Some(bytes) => push_bytes(told, bytes),
        None => told.check(false),
    }
}

/// How many bytes after the head of a page are not zeros, but for those from one place to another.
fn count_others(bytes: &[u8], at: usize, end: usize) -> usize {
    bytes
        .iter()
        .enumerate()
        .filter(|(k, byte)| 16 <= *k && (*k < at || end <= *k) && **byte != 0)
        .count()
}

/// Tells the bytes of page 3, whose cell stands by itself: the cell's bytes, and how many others
/// are not zeros after the page's head.
fn push_with(told: &mut Told, pages: &MemoryPages, cell: u8) {
    let Some(page) = pages.get(first_home()) else {
        return told.check(false);
    };
    let at = 16 + 292 * usize::from(cell);
    let end = at + 292;
    let bytes = page.bytes();
    push_part(told, bytes.get(..16));
    told.push(", in the cell ");
    push_part(told, bytes.get(at..end));
    told.push(", ");
    told.push_number(count_others(bytes, at, end) as u64);
    told.push(" other bytes");
}

/// Whether the cell is one of page 3.
fn is_of_page(at: &CellAt) -> bool {
    let home = first_home();
    at.vol == home.vol && at.page == home.page && at.cell < 28
}

/// Tells the page before a cell was taken, after it was written, and after it was given back.
fn come_and_go(alloc: Global, pages: &mut MemoryPages, cells: &mut FreeCells, told: &mut Told)
    requires { Belong cells.old (⟦<MemoryPages as MetaPages>⟧.pages pages.old) }
{
    told.push("before ");
    push_page(told, pages, &first_home());
    let Ok(at) = take_and_write(alloc, pages, cells) else {
        return told.check(false);
    };
    told.check(is_of_page(&at));
    told.push("\nwritten ");
    push_with(told, pages, at.cell);
    cells.free_cell(pages, at);
    told.push("\nafter ");
    push_page(told, pages, &first_home());
}

/// How many cells 60 calls hand out, and whether they all differ.
fn all_taken(alloc: Global, cells: &mut FreeCells) -> Result<(usize, bool), OutOfMemory> {
    let mut taken = Vec::new(alloc);
    let mut differ = true;
    for _ in 0..60 {
        if let Some(at) = cells.new_cell(first_home().vol) {
            differ = differ && !taken.contains(&at);
            taken.push(at)?;
        }
    }
    Ok((taken.len(), differ))
}

/// Tells how many cells are left.
fn tell_left(alloc: Global, cells: &mut FreeCells, told: &mut Told) {
    let Ok((left, differ)) = all_taken(alloc, cells) else {
        return told.check(false);
    };
    told.push_number(left as u64);
    told.push(if differ {
        " left, all different"
    } else {
        " left, some twice"
    });
}

/// Adds a page after page 3, and tells both pages, and how many cells there are then.
fn add_page(alloc: Global, pages: &mut MemoryPages, cells: &mut FreeCells, told: &mut Told)
    requires belong { Belong cells.old (⟦<MemoryPages as MetaPages>⟧.pages pages.old) }
    requires first { table_of cells.old 1 ≡ 3 ∷ [] }
    requires ends { LeadsTo cells.old 1 (⟦<MemoryPages as MetaPages>⟧.pages pages.old) 0 }
{
    told.check(cells.add_page(alloc, pages, added_home()).is_ok());
    told.push("last ");
    push_page(told, pages, &first_home());
    told.push("\nadded ");
    push_page(told, pages, &added_home());
    told.push("\n");
    tell_left(alloc, cells, told);
}

/// Reads the page of volume 2, too.
fn read_second(alloc: Global, pages: &MemoryPages, cells: &mut FreeCells) -> Result<(), OutOfMemory>
    requires belong { Belong cells.old (⟦<MemoryPages as MetaPages>⟧.pages pages.now) }
    requires second { table_of cells.old 2 ≡ [] }
    requires page { IsSomeAnd (⟦<MemoryPages as MetaPages>⟧.pages pages.now
        (record { vol = 2; page = 5 })) (IsEmptyPage 0) }
{
    cells.read_page(alloc, pages, second_home())
}

/// Tells the volume of a new cell, which is volume 1 if that has a free one, or 0.
fn push_next(cells: &mut FreeCells, told: &mut Told) {
    let vol = match cells.new_cell(first_home().vol) {
        Some(at) => at.vol.number(),
        None => 0,
    };
    told.push_number(u64::from(vol));
    told.push(", ");
}

/// Closes, opens or drops a volume.
fn change_volume(cells: &mut FreeCells, word: &str, vol: VolIx) -> bool {
    match word {
        "close" => cells.close_volume(vol),
        "open" => cells.activate(vol),
        "drop" => cells.drop_volume(vol),
        _ => return false,
    }
    true
}

/// Does what a word with the number of a volume says; whether it says something.
fn is_volume_changed(cells: &mut FreeCells, word: &str) -> bool {
    let mut words = Words::new(word);
    let word = words.until(':');
    match VolIx::new(words.number(' ')) {
        Some(vol) => change_volume(cells, word, vol),
        None => false,
    }
}

/// Does what one word says.
fn step(cells: &mut FreeCells, word: &str, told: &mut Told) {
    match word {
        "next" => push_next(cells, told),
        "take" => {
            let _ = cells.new_cell(first_home().vol);
        }
        "keep" => cells.keep(),
        "back" => cells.take_back(),
        _ => told.check(is_volume_changed(cells, word)),
    }
}

/// Tells the volumes of new cells after a line's steps, and how many cells are left then.
fn steps(alloc: Global, cells: &mut FreeCells, words: &Words, told: &mut Told) {
    for word in words.rest().split_terminator(' ') {
        step(cells, word, told);
    }
    tell_left(alloc, cells, told);
}

/// Tells what comes of a line once the page of volume 1 was read: of a cell that comes and goes,
/// of an added page, or of steps, once the page of volume 2 was read, too, for `both`.
fn tell_read(
    alloc: Global,
    pages: &mut MemoryPages,
    cells: &mut FreeCells,
    words: &mut Words,
    told: &mut Told,
)
    requires belong { Belong cells.old (⟦<MemoryPages as MetaPages>⟧.pages pages.old) }
    requires first { table_of cells.old 1 ≡ 3 ∷ [] }
    requires second { table_of cells.old 2 ≡ [] }
    requires ends { LeadsTo cells.old 1 (⟦<MemoryPages as MetaPages>⟧.pages pages.old) 0 }
    requires page { IsSomeAnd (⟦<MemoryPages as MetaPages>⟧.pages pages.old
        (record { vol = 2; page = 5 })) (IsEmptyPage 0) }
{
    match words.until(' ') {
        "cell" => come_and_go(alloc, pages, cells, told),
        "page" => add_page(alloc, pages, cells, told),
        "both" => {
            told.check(read_second(alloc, pages, cells).is_ok());
            steps(alloc, cells, words, told);
        }
        _ => steps(alloc, cells, words, told),
    }
}

/// Reads the page of volume 1, and tells what comes of a line then.
fn tell_on(alloc: Global, pages: &mut MemoryPages, words: &mut Words, told: &mut Told)
    requires first { IsSomeAnd (⟦<MemoryPages as MetaPages>⟧.pages pages.old
        (record { vol = 1; page = 3 })) (IsEmptyPage 0) }
    requires second { IsSomeAnd (⟦<MemoryPages as MetaPages>⟧.pages pages.old
        (record { vol = 2; page = 5 })) (IsEmptyPage 0) }
{
    match one_read(alloc, pages) {
        Ok(mut cells) => tell_read(alloc, pages, &mut cells, words, told),
        Err(_) => told.check(false),
    }
}

/// Tells what comes of a line on new pages.
pub fn tell_free(alloc: Global, words: &mut Words, told: &mut Told) {
    match two_pages(alloc) {
        Ok(mut pages) => tell_on(alloc, &mut pages, words, told),
        Err(_) => told.check(false),
    }
}
