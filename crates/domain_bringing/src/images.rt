//! Laying the images of a log over pages.
ghost use Rattle.std.specs.Prelude.{◌≡◌, OnOk};
ghost use Rattle.domain_faults.specs.domain_base.declared.place.Home.{Home};
ghost use Rattle.domain_faults.specs.log_ring.Images.{overlaid};
ghost use Rattle.domain_faults.specs.page_store.Pages.{with_page};

use domain_faults::{MetaPages, OutOfMemory, PageImage};
use std::alloc::Global;

/// Puts the page of an image at its home.
fn lay_image<M: MetaPages>(
    alloc: Global,
    image: &PageImage,
    pages: &mut M,
) -> Result<(), OutOfMemory>
    ensures laid { OnOk result (M.pages pages.new
        ≡ with_page image.now.home image.now.page (M.pages pages.old)) }
    ensures before { M.before pages.new ≡ M.before pages.old }
{
    let page = image.page.copy(alloc)?;
    pages.reserve(alloc, 1)?;
    pages.put(image.home, page);
    Ok(())
}

/// Puts the pages of images at their homes, in their order, so the last image for a home is the one
/// that stands there. After an error some have been put there.
pub(crate) fn lay_images<M: MetaPages>(
    alloc: Global,
    images: &[PageImage],
    pages: &mut M,
) -> Result<(), OutOfMemory>
    ensures laid { OnOk result ((home : Home) → M.pages pages.new home
        ≡ overlaid images.now (M.pages pages.old) home) }
    ensures before { M.before pages.new ≡ M.before pages.old }
{
    for image in images {
        lay_image(alloc, image, pages)?;
    }
    Ok(())
}
