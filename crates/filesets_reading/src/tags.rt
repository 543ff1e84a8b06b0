//! The pages of the tag directory of a fileset.
ghost use Rattle.std.specs.Prelude.{◌≡◌, IfOk};
ghost use Rattle.domain_layout.specs.tag_dirs.Directory.{IsDirectoryAt};
ghost use Rattle.domain_layout.specs.tag_dirs.TagPage.{next_of};
ghost use Rattle.domain_layout.specs.Reached.{on_volume};
ghost use Rattle.filesets_reading.specs.Good.{AreGood, HasTagsAt, frame_at};

use domain_layout::{
    Anchor, Home, MetaPages, OutOfMemory, Page, TagDir, TagPlace, Version, VolIx, u32_at,
};
use std::alloc::Global;

/// The home of the page that is next to one of tags or of an index, if it names one.
fn next_home(page: &Page) -> Option<Home>
    ensures { result ≡ on_volume (next_of page.now) }
{
    let bytes = page.bytes();
    let vol = VolIx::new(u32_at(bytes, 8))?;
    Some(Home {
        vol,
        page: u32_at(bytes, 12),
    })
}

/// The pages of the tag directory that begins there, in their order.
fn read_tag_places<M: MetaPages>(
    alloc: Global,
    pages: &M,
    anchor: &Anchor,
    version: Version,
    first: &Home,
) -> Result<Vec<TagPlace>, OutOfMemory>
    requires good { AreGood (M.pages pages.now) (frame_at anchor.now version) }
    requires tags { HasTagsAt (M.pages pages.now) (frame_at anchor.now version) first.now }
    ensures { IfOk result (λ places. IsDirectoryAt (M.pages pages.now) first.now places.items) }
{
    let mut places = Vec::new(alloc);
    let mut home = *first;
    for _ in 0..u64::MAX {
        let at = home;
        let Some(page) = pages.get(at) else {
            unreachable!()
        };
        places.push(TagPlace {
            index: u32_at(page.bytes(), 4),
            home,
        })?;
        let Some(next) = next_home(page) else {
            return Ok(places);
        };
        home = next;
    }
    Err(OutOfMemory)
}

/// The tag directory of what is in a slot, by the home of its first page.
pub fn read_tags<M: MetaPages>(
    alloc: Global,
    pages: &M,
    anchor: &Anchor,
    version: Version,
    first: Home,
) -> Result<TagDir, OutOfMemory>
    requires good { AreGood (M.pages pages.now) (frame_at anchor.now version) }
    requires tags { HasTagsAt (M.pages pages.now) (frame_at anchor.now version) first }
    ensures { IfOk result (IsDirectoryAt (M.pages pages.now) first) }
{
    let _places = read_tag_places(alloc, pages, anchor, version, &first)?;
    let again = first;
    TagDir::read(alloc, pages, again)
}
