//! The versions of a domain's layout.
ghost use Rattle.std.specs.Prelude.{◌≡◌, ◌⊎◌, ◌↔◌, IsSome, IfSome};

use crate::limits::{MAX_VOLUME_PAGES, MAX_VOLUME_PAGES_4};

/// The version of a domain's layout. Version 4 has larger volumes, and a denser record of extents.
/// A label has the version in which its volume was made.
#[derive(Clone, Copy, Debug, PartialEq, Eq, PartialOrd, Ord)]
pub enum Version {
    Three,
    Four,
}

/// The pages of a volume whose bits stand on one page of its bitmap.
const PAGES_PER_BITMAP_PAGE: u32 = 65_536;

impl Version {
    ghost use Rattle.domain_base.specs.Version.{number_of, most_pages, bitmap_pages};

    /// The version with that number. Returns None if and only if the number is neither 3 nor 4.
    pub fn from_number(n: u32) -> Option<Self>
        ensures range { IsSome result ↔ ((n ≡ 3) ⊎ (n ≡ 4)) }
        ensures value { IfSome result (λ version. number_of version ≡ n) }
    {
        match n {
            3 => Some(Version::Three),
            4 => Some(Version::Four),
            _ => None,
        }
    }

    /// The number that stands for it in labels and anchors.
    pub fn number(self) -> u32
        ensures { result ≡ number_of self }
    {
        match self {
            Version::Three => 3,
            Version::Four => 4,
        }
    }

    /// The most pages of a volume that a domain uses. Any pages beyond them are left alone.
    pub fn max_volume_pages(self) -> u32
        ensures { result ≡ most_pages self }
    {
        match self {
            Version::Three => MAX_VOLUME_PAGES,
            Version::Four => MAX_VOLUME_PAGES_4,
        }
    }

    /// The pages of the storage bitmap of a volume with `pages` pages: one in version 3, and in
    /// version 4 one for each 65,536 pages or part of them.
    pub fn bitmap_pages(self, pages: u32) -> u32
        ensures { result ≡ bitmap_pages self pages }
    {
        match self {
            Version::Three => 1,
            Version::Four => pages.div_ceil(PAGES_PER_BITMAP_PAGE),
        }
    }
}
