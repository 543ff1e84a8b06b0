//! Pages of files as records say them, on whatever volume and page.

/// A page of a volume as a record says it. Neither the volume nor the page need exist.
#[derive(Clone, Copy, Debug, PartialEq, Eq)]
pub(crate) struct SaidHome {
    pub(crate) vol: u32,
    pub(crate) page: u64,
}

/// Where a page of a file is.
#[derive(Clone, Copy, Debug, PartialEq, Eq)]
pub(crate) enum SaidPlace {
    At(SaidHome),
    Hole,
    Absent,
}

/// Where the first page of a run is. The others stand after it.
#[derive(Clone, Copy, Debug, PartialEq, Eq)]
pub(crate) enum SaidFirst {
    At { vol: u32, page: u32 },
    Holes,
}

/// A run of a file's pages, one after the other.
#[derive(Clone, Copy, Debug, PartialEq, Eq)]
pub(crate) struct SaidRun {
    pub(crate) page: u32,
    pub(crate) count: u32,
    pub(crate) first: SaidFirst,
}
