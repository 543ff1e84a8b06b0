//! The first pages of a volume.
ghost use Rattle.std.specs.Prelude.{◌≡◌};

use volume_disk::Version;
use volume_disk::limits::LOG_PAGES;

/// The page of a volume's label.
pub const LABEL_PAGE: u32 = 0;

/// The page of a volume's two anchors.
pub const ANCHORS_PAGE: u32 = 1;

/// Where the first pages of a volume stand, by what they are for. The log and the table are there
/// only on the volume on which a domain is made.
#[derive(Clone, Copy, Debug, PartialEq, Eq)]
pub struct FirstPages {
    /// The page of the label.
    pub label: u32,
    /// The page of the two anchors.
    pub anchors: u32,
    /// The first page of the storage bitmap.
    pub bitmap: u32,
    /// The first page of mcells.
    pub cells: u32,
    /// The first page of the log.
    pub log: u32,
    /// The first page of the table of filesets.
    pub table: u32,
}

impl FirstPages {
    ghost use Rattle.disk_label.specs.FirstPages.{first_pages};

    /// The first pages of a volume of `pages` pages of 8,192 bytes, made in this version of the
    /// layout.
    pub fn of(version: Version, pages: u32) -> Self
        ensures { result ≡ first_pages version pages }
    {
        let bitmap = 2;
        let cells = bitmap + version.bitmap_pages(pages);
        let log = cells + 1;
        FirstPages {
            label: LABEL_PAGE,
            anchors: ANCHORS_PAGE,
            bitmap,
            cells,
            log,
            table: log + LOG_PAGES,
        }
    }
}
