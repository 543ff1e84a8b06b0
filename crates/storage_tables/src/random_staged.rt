//! Random steps on staged pages. Below a row follows what the three pages are after each step, five
//! steps to a line: the first byte now and the one before the change, with a mark where the change
//! does not list the page once that is not what it was, and else once at most.
ghost use Rattle.std.specs.Prelude.{◌<◌};

use crate::staged::{Step, look_at, take_step};
use staged_pages::StagedPages;
use std::alloc::Global;
use table_words::{Told, Words};

/// Numbers that are always the same ones.
#[derive(Drop)]
struct Random {
    state: u64,
}

impl Random {
    /// The next number, below 32,768.
    fn next(&mut self) -> u32
        ensures { result < 32_768 }
    {
        let next = (self.state % 2_147_483_648 * 1_103_515_245 + 12_345) % 2_147_483_648;
        self.state = next;
        (next / 65_536) as u32
    }

    /// The next step, on one of three pages.
    fn step(&mut self) -> Step {
        let page = self.next() % 3;
        let byte = 1 + (self.next() % 255) as u8;
        match self.next() % 8 {
            0..=2 => Step::Put(page, byte),
            3..=4 => Step::Set(page, byte),
            5 => Step::Forget(page),
            6 => Step::Keep,
            _ => Step::TakeBack,
        }
    }
}

/// Tells what a page is.
fn tell_page(pages: &StagedPages, page: u32, told: &mut Told) {
    let [now, before, times] = look_at(pages, page);
    let is_listed = times < 2 && (now == before || times == 1);
    told.push_pair("", u64::from(now), "/", u64::from(before));
    told.push(if is_listed { "" } else { "!" });
}

/// Tells what the three pages are.
fn tell_pages(pages: &StagedPages, told: &mut Told) {
    tell_page(pages, 0, told);
    told.push(",");
    tell_page(pages, 1, told);
    told.push(",");
    tell_page(pages, 2, told);
}

/// Tells what the pages are after each of the steps from a seed.
pub fn tell_random_staged(alloc: Global, words: &mut Words, told: &mut Told) {
    let mut random = Random {
        state: u64::from(words.number(' ')),
    };
    let mut pages = StagedPages::new(alloc);
    for number in 0..words.number(' ') {
        told.check(take_step(alloc, &mut pages, random.step()).is_ok());
        tell_pages(&pages, told);
        told.push(if number % 5 == 4 { "\n" } else { " " });
    }
}
