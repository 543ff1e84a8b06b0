//! Pages of a file that stand one after another.
ghost use Rattle.std.specs.Prelude.{◌≡◌, ◌+◌, ◌-◌, ◌<◌, ◌≤◌, ◌^◌, IfSome, true};
ghost use Rattle.extent_maps.specs.Runs.{FitsVolume, IsRun, end_of, goes_on as runs_on, home_at, behind as behind_there, joined, same_place, placed};

use domain_base::Home;

/// Where a page of a file is.
#[derive(Clone, Copy, Debug, PartialEq, Eq)]
pub enum PagePlace {
    /// At this home.
    At(Home),
    /// Nowhere, and kept so for a clone.
    Hole,
    /// Nowhere.
    Absent,
}

impl PagePlace {
    /// Its home, if it has one.
    pub fn home(self) -> Option<Home>
        ensures { result ≡ home_at self }
    {
        match self {
            PagePlace::At(home) => Some(home),
            PagePlace::Hole | PagePlace::Absent => None,
        }
    }
}

/// Where the first page of a run stands.
#[derive(Clone, Copy, Debug, PartialEq, Eq)]
pub enum RunPlace {
    /// At this home, and each further page of the run at the next page of that volume.
    At(Home),
    /// Nowhere: all its pages are holes that are kept.
    Holes,
}

/// Consecutive pages of a file, `count` from `page` on, and where the first of them stands.
#[derive(Clone, Copy, Debug, PartialEq, Eq)]
pub struct Run {
    pub page: u32,
    pub count: u32,
    pub first: RunPlace,
}

/// Where the page stands that is `count` pages after the first.
fn place_behind(count: u32, first: RunPlace) -> RunPlace
    requires { FitsVolume (count + 1) first }
    ensures { result ≡ behind_there count first }
{
    match first {
        RunPlace::At(home) => RunPlace::At(Home {
            vol: home.vol,
            page: home.page + count,
        }),
        RunPlace::Holes => RunPlace::Holes,
    }
}

/// Whether the second stands `count` pages after the first.
fn is_behind(count: u32, first: RunPlace, next: RunPlace) -> bool
    ensures { result ≡ same_place (behind_there count first) next }
{
    match (first, next) {
        (RunPlace::At(a), RunPlace::At(b)) => {
            a.vol == b.vol && u64::from(a.page) + u64::from(count) == u64::from(b.page)
        }
        (RunPlace::Holes, RunPlace::Holes) => true,
        _ => false,
    }
}

impl Run {
    /// A run of one page.
    pub(crate) fn one(page: u32, first: RunPlace) -> Run
        ensures { result ≡ record { page = page; count = 1; first = first } }
    {
        Run {
            page,
            count: 1,
            first,
        }
    }

    /// The number after that of its last page.
    pub(crate) fn end(&self) -> u32
        requires { IsRun self.now }
        ensures { result ≡ end_of self.now }
    {
        self.page + self.count
    }

    /// Where the page stands that is `offset` pages after its first.
    pub(crate) fn place(&self, offset: u32) -> PagePlace
        requires run { IsRun self.now }
        requires within { offset < self.now.count }
        ensures { result ≡ placed (behind_there offset self.now.first) }
    {
        match place_behind(offset, self.first) {
            RunPlace::At(home) => PagePlace::At(home),
            RunPlace::Holes => PagePlace::Hole,
        }
    }

    /// Whether another run continues where this one ends, in the file and on its volume.
    pub(crate) fn goes_on(&self, next: &Run) -> bool
        requires { IsRun self.now }
        ensures { result ≡ runs_on self.now next.now }
    {
        self.end() == next.page && is_behind(self.count, self.first, next.first)
    }

    /// Its pages from the one on that is `offset` pages after its first.
    pub(crate) fn behind(&self, offset: u32) -> Run
        requires run { IsRun self.now }
        requires within { offset < self.now.count }
        ensures { result ≡ record {
          page = self.now.page + offset;
          count = self.now.count - offset;
          first = behind_there offset self.now.first;
        } }
    {
        Run {
            page: self.page + offset,
            count: self.count - offset,
            first: place_behind(offset, self.first),
        }
    }

    /// Its first `count` pages.
    pub(crate) fn front(&self, count: u32) -> Run
        ensures { result ≡ record self.now { count = count } }
    {
        Run {
            page: self.page,
            count,
            first: self.first,
        }
    }

    /// This run joined with another one that continues it.
    pub(crate) fn with(&self, next: &Run) -> Run
        requires run { IsRun self.now }
        requires next { IsRun next.now }
        requires joined { runs_on self.now next.now ≡ true }
        ensures { result ≡ joined self.now next.now }
    {
        self.front(self.count + next.count)
    }
}
