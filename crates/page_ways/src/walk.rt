//! Reading pages along their way.
ghost use Rattle.std.specs.Prelude.{◌≡◌, ◌<◌, ◌≤◌, ◌+◌, ◌⊎◌, ◌↔◌, ◌++◌, [], ◌∷◌, IfOk, IsSome, OnOk, IsTrue, None, Some, Contains, is_some, length, if◌then◌else◌};
ghost use Rattle.domain_layout.specs.Reached.{MayBe, Reaches};
ghost use Rattle.page_ways.specs.Frame.{frame_in};
ghost use Rattle.page_ways.specs.Walk.{AreNumbers, AreRead, IsOnWay};

use crate::frame::DomainFrame;
use crate::ways::PageWay;
use domain_layout::numbered::{find, put};
use domain_layout::{Home, MetaPages, OutOfMemory, home_number};
use std::alloc::Global;

/// The pages of a kind that are read, by their homes, in the order in which they are reached.
#[derive(Drop)]
pub struct ReadPages {
    pub homes: Vec<Home>,
    /// The page that is reached after them and cannot be read: it is not one of those that tables
    /// and indexes may have, was read before, is not there, or begins otherwise.
    pub unread: Option<Home>,
}

/// The pages that were read, and their numbers in order.
#[derive(Drop)]
struct Passed {
    homes: Vec<Home>,
    numbers: Vec<(u64, ())>,
}

impl Passed {
    /// Whether the page was read.
    fn has(&self, home: &Home) -> bool
        requires { AreNumbers self.now.homes.items self.now.numbers.items }
        ensures { IsTrue result ↔ Contains self.now.homes.items home.now }
    {
        find(&self.numbers, home_number(home)).is_some()
    }

    /// Appends a page to the others. At an Err they are as before.
    fn push(&mut self, frame: &DomainFrame, home: &Home) -> Result<(), OutOfMemory>
        requires numbers { AreNumbers self.old.homes.items self.old.numbers.items }
        requires fresh { ¬ Contains self.old.homes.items home.now }
        requires may { MayBe (frame_in frame.now) home.now }
        ensures homes { OnOk result (self.new.homes.items ≡ self.old.homes.items ++ home.now ∷ []) }
        ensures numbers { OnOk result (AreNumbers self.new.homes.items self.new.numbers.items) }
    {
        put(&mut self.numbers, home_number(home), ())?;
        self.homes.push(*home)?;
        Ok(())
    }
}

/// Reads the page at a home, which is reached after those that were read: the home of the next one,
/// or None if it leads to none or cannot be read.
fn read_next<M: MetaPages, W: PageWay>(
    pages: &M,
    frame: &DomainFrame,
    way: &W,
    passed: &mut Passed,
    unread: &mut Option<Home>,
    home: &Home,
) -> Result<Option<Home>, OutOfMemory>
    requires numbers { AreNumbers passed.old.homes.items passed.old.numbers.items }
    requires on { IsOnWay (M.pages pages.now) (frame_in frame.now) (W.way way.now)
        passed.old.homes.items unread.old (Some home.now) }
    ensures on { IfOk result (IsOnWay (M.pages pages.now) (frame_in frame.now) (W.way way.now)
        passed.new.homes.items unread.new) }
    ensures numbers { OnOk result (AreNumbers passed.new.homes.items passed.new.numbers.items) }
    ensures more { IfOk result (λ next. length passed.old.homes.items + (if is_some next then 1
        else 0) ≤ length passed.new.homes.items) }
    ensures unread { OnOk result ((unread.new ≡ unread.old) ⊎ (unread.new ≡ Some home.now)) }
{
    let page = match pages.get(*home) {
        Some(page) if frame.may_be(home) && !passed.has(home) && way.begins_so(page) => page,
        _ => {
            *unread = Some(*home);
            return Ok(None);
        }
    };
    let next = way.next(home, page);
    passed.push(frame, home)?;
    Ok(next)
}

/// A walk along the pages of a kind, from the first one on: the pages that were read, and the page
/// that is reached next. So a caller can make sure that a page is there before it is looked at.
#[derive(Drop)]
pub struct PageWalk {
    passed: Passed,
    unread: Option<Home>,
    next: Option<Home>,
}

impl PageWalk {
    ghost use Rattle.domain_layout.specs.page_store.Pages.{Pages};
    ghost use Rattle.domain_layout.specs.Reached.{Frame, Way};
    ghost use Rattle.page_ways.specs.Walk.{IsWalk, next_of, steps_left, unread_of};

    /// A walk that has read nothing yet.
    pub fn new<W: PageWay>(alloc: Global, way: &W) -> PageWalk
        ensures walk { (pages : Pages) (frame : Frame) → IsWalk pages frame (W.way way.now) result }
        ensures unread { unread_of result ≡ None }
    {
        let passed = Passed {
            homes: Vec::new(alloc),
            numbers: Vec::new(alloc),
        };
        PageWalk {
            passed,
            unread: None,
            next: Some(way.first()),
        }
    }

    /// The home of the page that is reached next; None if the walk has ended.
    pub fn next(&self) -> Option<Home>
        ensures { result ≡ next_of self.now }
    {
        self.next
    }

    /// Looks at the page that is reached next, and goes on to the page to which it leads. If the
    /// page that is reached cannot be read, the walk ends.
    pub fn step<M: MetaPages, W: PageWay>(
        &mut self,
        pages: &M,
        frame: &DomainFrame,
        way: &W,
    ) -> Result<(), OutOfMemory>
        requires { IsWalk (M.pages pages.now) (frame_in frame.now) (W.way way.now) self.old }
        ensures walk { OnOk result
            (IsWalk (M.pages pages.now) (frame_in frame.now) (W.way way.now) self.new) }
        ensures less { IsSome (next_of self.old)
            → OnOk result (steps_left self.new < steps_left self.old) }
        ensures unread { OnOk result ((unread_of self.new ≡ unread_of self.old)
            ⊎ (unread_of self.new ≡ next_of self.old)) }
    {
        if let Some(home) = self.next {
            let next = read_next(pages, frame, way, &mut self.passed, &mut self.unread, &home)?;
            self.next = next;
        }
        Ok(())
    }

    /// The pages that were read on a walk that has ended.
    pub fn finish(self) -> ReadPages
        requires { next_of self ≡ None }
        ensures read { (pages : Pages) (frame : Frame) (way : Way) → IsWalk pages frame way self
            → AreRead pages frame way result.homes.items result.unread }
        ensures unread { result.unread ≡ unread_of self }
    {
        let passed = self.passed;
        ReadPages {
            homes: passed.homes,
            unread: self.unread,
        }
    }
}

/// The pages of a kind that are read from the first one on.
pub fn read_pages<M: MetaPages, W: PageWay>(
    alloc: Global,
    pages: &M,
    frame: &DomainFrame,
    way: &W,
) -> Result<ReadPages, OutOfMemory>
    ensures { IfOk result (λ read. AreRead (M.pages pages.now) (frame_in frame.now) (W.way way.now)
        read.homes.items read.unread) }
{
    let mut walk = PageWalk::new(alloc, way);
    while walk.next().is_some() {
        walk.step(pages, frame, way)?;
    }
    Ok(walk.finish())
}
