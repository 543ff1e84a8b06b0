//! Images of domains, which lines tell one after another.
use crate::drawing::{draw, draw_bitmap};
use crate::words::Words;
use page_faults::{Anchor, Home, Member, MemoryPages, MetaPages, Page, Version, VolIx};
use std::alloc::Global;

/// An image that is written. It is not right any more after a line that tells nothing of an image,
/// or has a word too few or of another form, and once memory is short.
#[derive(Drop)]
pub struct Image {
    alloc: Global,
    pub pages: MemoryPages,
    pub anchor: Anchor,
    pub version: Version,
    is_right: bool,
}

/// The anchor of a domain of version 3 with no members, whose log stands on volume 1.
fn first_anchor() -> Anchor {
    let none = Member { pages: 0, state: 0 };
    Anchor {
        number: 1,
        version: 3,
        log_vol: 1,
        log_page: 4,
        log_pages: 128,
        start: 0,
        group: 1,
        table: None,
        members: [none; 8],
        slot: 0,
    }
}

impl Image {
    /// An image of version 3 with no member, and no page.
    pub fn new(alloc: Global) -> Image {
        Image {
            alloc,
            pages: MemoryPages::new(alloc),
            anchor: first_anchor(),
            version: Version::Three,
            is_right: true,
        }
    }

    /// Whether all lines told something, and memory sufficed.
    pub fn is_right(&self) -> bool {
        self.is_right
    }

    /// Says that something is wrong, unless this holds.
    pub(crate) fn check(&mut self, holds: bool) {
        self.is_right = self.is_right && holds;
    }

    /// Adds what a line tells: a word that says its kind, and what belongs to that.
    pub fn add(&mut self, line: &str) {
        let mut words = Words::new(line);
        match words.until(' ') {
            "version" => self.add_version(&mut words),
            "member" => {
                let _ = self.add_member(&mut words);
            }
            "volume" => self.add_volume(&mut words),
            "named" => self.anchor.table = words.home(' '),
            kind => self.add_to_page(kind, &mut words),
        }
        self.check(words.is_right() && words.is_at_end());
    }

    /// The version of the layout.
    fn add_version(&mut self, words: &mut Words) {
        let number = words.number(' ');
        match Version::from_number(number) {
            Some(version) => {
                self.version = version;
                self.anchor.version = number;
            }
            None => words.check(false),
        }
    }

    /// A member: its number, its pages, and its state as the anchor says it. Gives that volume and
    /// its pages.
    fn add_member(&mut self, words: &mut Words) -> Option<(VolIx, u32)> {
        let (number, pages, state) = (words.number(' '), words.number(' '), words.number(' '));
        let vol = VolIx::new(number);
        words.check(vol.is_some());
        let vol = vol?;
        self.anchor.members[vol.index()] = Member { pages, state };
        Some((vol, pages))
    }

    /// A member all of whose pages are there, and the runs of pages that are used in its bitmap,
    /// which is page 2.
    fn add_volume(&mut self, words: &mut Words) {
        let Some((vol, pages)) = self.add_member(words) else {
            return;
        };
        for page in 0..pages {
            self.put_zeros(&Home { vol, page });
        }
        let Ok(mut bits) = Page::zeros(self.alloc) else {
            return self.check(false);
        };
        draw_bitmap(pages, words, &mut bits);
        self.put(&Home { vol, page: 2 }, bits);
    }

    /// What a line tells of a page, which is made if it is not there.
    fn add_to_page(&mut self, kind: &str, words: &mut Words) {
        match self.home_of(kind, words) {
            Some(home) => self.draw_on(&home, kind, words),
            None => words.check(false),
        }
    }

    /// The page on which a line of a kind writes. That of a table is what
    /// the anchor names from then on.
    fn home_of(&mut self, kind: &str, words: &mut Words) -> Option<Home> {
        match kind {
            "slot" => self.anchor.table,
            "cell" => words.home('.'),
            "table" => {
                self.anchor.table = words.home(' ');
                self.anchor.table
            }
            _ => words.home(' '),
        }
    }

    /// Writes what a line of a kind tells on a page.
    fn draw_on(&mut self, home: &Home, kind: &str, words: &mut Words) {
        match self.page(home) {
            Some(mut page) => {
                draw(self.alloc, kind, words, &mut page);
                self.put(home, page);
            }
            None => self.check(false),
        }
    }

    /// The page that stands at a home, or one of zeros if there is none; None if memory is short.
    pub(crate) fn page(&self, home: &Home) -> Option<Page> {
        let page = match self.pages.get(*home) {
            Some(page) => page.copy(self.alloc),
            None => Page::zeros(self.alloc),
        };
        page.ok()
    }

    /// Puts a page at a home.
    pub(crate) fn put(&mut self, home: &Home, page: Page) {
        let is_reserved = self.pages.reserve(self.alloc, 1).is_ok();
        if is_reserved {
            self.pages.put(*home, page);
        }
        self.check(is_reserved);
    }

    /// Puts a page of zeros at a home.
    fn put_zeros(&mut self, home: &Home) {
        match Page::zeros(self.alloc) {
            Ok(page) => self.put(home, page),
            Err(_) => self.check(false),
        }
    }

    /// Adds what several lines tell.
    pub fn add_lines(&mut self, text: &str) {
        for line in text.lines() {
            self.add(line);
        }
    }

    /// Adds what lines tell that have semicolons between them.
    pub fn add_parts(&mut self, lines: &str) {
        for line in lines.split("; ") {
            if !line.is_empty() {
                self.add(line);
            }
        }
    }
}
