//! The page counts of a volume.

use log_recovery::VolIx;

/// How full a volume is, in pages of 8,192 bytes. Its used share is `used` over `pages`.
#[derive(Clone, Copy, Debug, PartialEq, Eq)]
pub struct VolCount {
    /// The volume.
    pub vol: VolIx,
    /// Its pages.
    pub pages: u32,
    /// Its pages that are owned or reserved. Waiting pages count as free.
    pub used: u32,
    /// Whether it gives no storage.
    pub closed: bool,
}

impl VolCount {
    ghost use Rattle.std.specs.Prelude.{◌≡◌, ◌↔◌, IsTrue, false};

    /// Whether it gives storage.
    pub(crate) fn is_open(&self) -> bool
        ensures { IsTrue result ↔ (self.now.closed ≡ false) }
    {
        !self.closed
    }
}
