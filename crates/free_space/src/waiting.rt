//! Pages that wait.
ghost use Rattle.std.specs.Prelude.{◌≡◌};

/// What a page was used for. This tells how long it waits after it was freed: a page of file data
/// until the group that freed it is durable, a page of metadata until the log's start has passed
/// it.
#[derive(Clone, Copy, Debug, PartialEq, Eq)]
pub enum PageUse {
    Data,
    Metadata,
}

/// A page that was freed, and the group of the log that frees it.
#[derive(Clone, Copy, Debug, PartialEq, Eq)]
pub struct Waiting {
    pub page: u32,
    pub kind: PageUse,
    pub group: u64,
}

impl Waiting {
    ghost use Rattle.free_space.specs.VolumeSpace.{same_use, is_due};

    /// Whether it has that use and waits for that group or an earlier one.
    pub(crate) fn is_due(&self, kind: PageUse, group: u64) -> bool
        ensures { result ≡ is_due kind group self.now }
    {
        self.has_use(kind) && self.group <= group
    }

    fn has_use(&self, kind: PageUse) -> bool
        ensures { result ≡ same_use self.now.kind kind }
    {
        match (self.kind, kind) {
            (PageUse::Data, PageUse::Data) | (PageUse::Metadata, PageUse::Metadata) => true,
            (PageUse::Data, PageUse::Metadata) | (PageUse::Metadata, PageUse::Data) => false,
        }
    }
}

/// Each page that waits takes 16 bytes.
const _: () = prove!(size_of::<Waiting>() == 16);
