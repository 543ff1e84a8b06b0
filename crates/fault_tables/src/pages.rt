//! Sets of pages: those of files and tables, those of a bitmap, and those of an answer.
use crate::cells::links_of;
use crate::given::{Given, home};
use crate::reading;
use crate::reading::tell_wrong;
use image_lines::{Span, SpanSet, Told, Words, find_owned, find_shared, has_shared, is_wrong_page};
use index_row_faults::{FileRun, Home, MetaPages, OutOfMemory, read_runs};
use std::alloc::Global;

/// Tells pages, or that there are none.
pub(crate) fn push_homes(told: &mut Told, homes: &[Home]) {
    if homes.is_empty() {
        told.push(" none");
    }
    for home in homes {
        told.push_home(" ", home);
    }
}

/// The number that is left to read, or the first and the last of several, as a span.
fn span_of(words: &mut Words) -> Span {
    let mut run = Words::new(words.until(' '));
    let from = u64::from(run.number('-'));
    let last = if run.is_at_end() {
        from
    } else {
        u64::from(run.number('-'))
    };
    words.check(run.is_right());
    let to = last.saturating_add(1);
    Span { from, to }
}

/// The numbers that are left to read, each as a number or as the first and the last of several.
fn spans_of(alloc: Global, words: &mut Words) -> Result<Vec<Span>, OutOfMemory> {
    let mut spans = Vec::new(alloc);
    for _ in 0..words.rest().len() {
        if words.is_at_end() {
            break;
        }
        spans.push(span_of(words))?;
    }
    Ok(spans)
}

/// The pages that are left to read.
fn owned_of(alloc: Global, words: &mut Words) -> Result<SpanSet, OutOfMemory> {
    let mut owned = SpanSet::new(alloc);
    for _ in 0..words.rest().len() {
        if words.is_at_end() {
            break;
        }
        owned.insert(&span_of(words))?;
    }
    Ok(owned)
}

/// Tells whether the page of the bitmap is wrong. The first two words are how many pages the volume
/// has, and the first page that has a bit on the page; the others are the pages that are owned.
fn tell_bits(alloc: Global, words: &mut Words, given: &Given, told: &mut Told) {
    let (pages, first) = (words.number(' '), words.number(' '));
    match (owned_of(alloc, words), given.image.pages.get(home(2))) {
        (Ok(owned), Some(page)) => {
            tell_wrong(is_wrong_page(page, &owned, pages, u64::from(first)), told);
        }
        _ => told.check(false),
    }
}

/// The runs of pages that cells say.
fn runs_of(alloc: Global, given: &Given) -> Result<Vec<FileRun>, OutOfMemory> {
    let links = links_of(alloc, given)?;
    read_runs(alloc, &given.image.pages, &links)
}

/// Tells how many runs there are, and how many of them have a page that is another's, too, or a
/// table's.
fn tell_shared(
    alloc: Global,
    words: &mut Words,
    given: &Given,
    told: &mut Told,
) -> Result<(), OutOfMemory> {
    let runs = runs_of(alloc, given)?;
    let found = find_shared(alloc, spans_of(alloc, words)?, &runs, home(0).vol)?;
    let shared = runs.iter().filter(|run| has_shared(&found, run)).count();
    told.push_pair("", shared as u64, " of ", runs.len() as u64);
    Ok(())
}

/// The owned pages of volume 1, if tables have some.
fn owned(alloc: Global, words: &mut Words, given: &Given) -> Result<SpanSet, OutOfMemory> {
    let runs = runs_of(alloc, given)?;
    find_owned(alloc, spans_of(alloc, words)?, &runs, home(0).vol)
}

/// Tells those of the pages of volume 1 below 512 that are owned.
fn tell_owned(owned: &SpanSet, told: &mut Told) {
    for page in 0..512 {
        let from = u64::from(page);
        let to = from.saturating_add(1);
        if owned.has_one(&Span { from, to }) {
            told.push_home(" ", &home(page));
        }
    }
}

/// Tells of sets of pages, or of pages otherwise.
pub(crate) fn tell(alloc: Global, asked: &str, words: &mut Words, given: &Given, told: &mut Told) {
    match asked {
        "bits" => tell_bits(alloc, words, given, told),
        "shared" => {
            let is_told = tell_shared(alloc, words, given, told).is_ok();
            told.check(is_told);
        }
        "owned" => match owned(alloc, words, given) {
            Ok(owned) => tell_owned(&owned, told),
            Err(_) => told.check(false),
        },
        _ => reading::tell(alloc, asked, words, given, told),
    }
}
