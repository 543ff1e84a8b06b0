//! Images of pages.
ghost use Rattle.std.specs.Prelude.{◌≡◌, IfNone, IfSome, false};
ghost use Rattle.std.specs.List.{list_any};
ghost use Rattle.std.specs.Option.{option_copied};
ghost use Rattle.page_store.specs.Pages.{same_home};
ghost use Rattle.log_ring.specs.Images.{IsPlaceOf, homes_of, image_at};

use crate::homes::is_same;
use disk_label::{Home, Page};

/// A page of metadata as a transaction changes it, or as a group of the log has it: its home, and
/// what is to stand there.
#[derive(Drop)]
pub struct PageImage {
    pub home: Home,
    pub page: Page,
}

/// The place of the last image of a home, if one has that home.
pub fn place_of(images: &[PageImage], home: &Home) -> Option<usize>
    ensures place { IfSome result (IsPlaceOf images.now home.now) }
    ensures none { IfNone result (list_any (same_home home.now) (homes_of images.now) ≡ false) }
{
    for place in (0..images.len()).rev() {
        if is_same(home, &images[place].home) {
            return Some(place);
        }
    }
    None
}

/// The page that the last image of a home has, if one has that home.
pub fn image_of(images: &[PageImage], home: Home) -> Option<&Page>
    ensures { option_copied result ≡ image_at home images.now }
{
    match place_of(images, &home) {
        Some(place) => Some(&images[place].page),
        None => None,
    }
}
