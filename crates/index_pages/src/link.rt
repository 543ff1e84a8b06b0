//! What an index page says about where the next one stands.
ghost use Rattle.std.specs.Prelude.{◌≡◌, ◌≤◌};
ghost use Rattle.file_release.specs.cell_records.Fields.{number_at};
ghost use Rattle.file_release.specs.tag_dirs.TagPage.{next_of};
ghost use Rattle.index_pages.specs.Homes.{IsIndexPage};
ghost use Rattle.index_pages.specs.Links.{LinksPage, SpellsNext};

use file_release::{Home, Page, VolIx, put, u32_at};

/// The widths of a home's volume and page.
const HOME: [u8; 2] = [4; 2];

/// The home of the page after an index page. Returns None if that page is the last.
pub(crate) fn read_next(page: &Page) -> Option<Home>
    requires { IsIndexPage page.now }
    ensures { result ≡ next_of page.now }
{
    let bytes = page.bytes();
    let vol = VolIx::new(u32_at(bytes, 8))?;
    Some(Home {
        vol,
        page: u32_at(bytes, 12),
    })
}

/// The eight bytes that name the next page in an index page: zeros if there is none.
pub(crate) fn next_bytes(next: &Option<Home>) -> [u8; 8]
    ensures { SpellsNext next.now result }
{
    let mut bytes = [0; 8];
    if let Some(home) = next {
        let numbers = [u64::from(home.vol.number()), u64::from(home.page)];
        put(&HOME, &numbers, &mut bytes);
    }
    bytes
}

/// The page, changed to lead to the page that stands at `next`, or to none.
pub(crate) fn link_page(page: Page, next: &Option<Home>) -> Page
    ensures { LinksPage next.now page result }
{
    let mut linked = page;
    linked.set(8, &next_bytes(next));
    linked
}
