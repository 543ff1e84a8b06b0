//! Kinds of pages that lead from one to the next.
ghost use Rattle.std.specs.Prelude.{◌≡◌};
ghost use Rattle.domain_layout.specs.Reached.{Way, cells_way, index_way, on_volume, tags_way};
ghost use Rattle.domain_layout.specs.tag_dirs.TagPage.{next_of};
ghost use Rattle.page_ways.specs.Frame.{frame_in};

use crate::frame::DomainFrame;
use domain_layout::{Home, Page, VolIx, u32_at};

/// A kind of pages: how they begin, what one leads to, and the first of them.
pub trait PageWay {
    /// What contracts say of the kind.
    ghost way: { Self → Way };

    /// The home of the first page.
    fn first(&self) -> Home
        ensures { result ≡ (way self.now).first };

    /// Whether a page begins as one of the kind.
    fn begins_so(&self, page: &Page) -> bool
        ensures { result ≡ (way self.now).begins_so page.now };

    /// The home to which a page leads that stands at this home.
    fn next(&self, home: &Home, page: &Page) -> Option<Home>
        ensures { result ≡ (way self.now).next home.now page.now };
}

/// The pages of cells of a volume. They begin with `BMTP`, and lead to the next page of the volume;
/// page 0 means that there is none.
#[derive(Clone, Copy)]
pub struct CellsWay {
    pub frame: DomainFrame,
    pub vol: VolIx,
}

/// The pages of a tag directory. They begin with `TAGP`, and lead to a home; volume 0, or a volume
/// that may not exist, means that there is none.
#[derive(Clone, Copy)]
pub struct TagsWay {
    pub first: Home,
}

/// The pages of a directory's index. They begin with `DIRX`, and lead to a home as tag pages do.
#[derive(Clone, Copy)]
pub struct IndexWay {
    pub first: Home,
}

impl PageWay for CellsWay {
    ghost way = { λ w. cells_way (frame_in w.frame) w.vol };

    fn first(&self) -> Home {
        Home {
            vol: self.vol,
            page: self.frame.first_cells(self.vol),
        }
    }

    fn begins_so(&self, page: &Page) -> bool {
        u32_at(page.bytes(), 0) == 0x5054_4d42
    }

    fn next(&self, home: &Home, page: &Page) -> Option<Home> {
        match u32_at(page.bytes(), 8) {
            0 => None,
            next => Some(Home {
                vol: home.vol,
                page: next,
            }),
        }
    }
}

/// The home that a page of tags or of an index leads to.
fn next_home(page: &Page) -> Option<Home>
    ensures { result ≡ on_volume (next_of page.now) }
{
    let bytes = page.bytes();
    let vol = VolIx::new(u32_at(bytes, 8))?;
    Some(Home {
        vol,
        page: u32_at(bytes, 12),
    })
}

impl PageWay for TagsWay {
    ghost way = { λ w. tags_way w.first };

    fn first(&self) -> Home {
        self.first
    }

    fn begins_so(&self, page: &Page) -> bool {
        u32_at(page.bytes(), 0) == 0x5047_4154
    }

    fn next(&self, _home: &Home, page: &Page) -> Option<Home> {
        next_home(page)
    }
}

impl PageWay for IndexWay {
    ghost way = { λ w. index_way w.first };

    fn first(&self) -> Home {
        self.first
    }

    fn begins_so(&self, page: &Page) -> bool {
        u32_at(page.bytes(), 0) == 0x5852_4944
    }

    fn next(&self, _home: &Home, page: &Page) -> Option<Home> {
        next_home(page)
    }
}
