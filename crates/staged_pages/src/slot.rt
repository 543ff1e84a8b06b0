//! A page, with what stood in its place before the change.
ghost use Rattle.std.specs.Prelude.{◌≡◌, ◌+◌, ◌≤◌, ◌⊎◌, true, false, Some, None, IsSome, IsSomeAnd, length};
ghost use Rattle.std.specs.Option.{option_copied};
ghost use Rattle.page_store.specs.domain_base.Page.{overwritten};
ghost use Rattle.staged_pages.specs.Slots.{AreWhole, is_same, page_before, page_now};

use page_store::Page;
use page_store::limits::PAGE_BYTES;
use std::mem::{replace, swap};

/// What has become of a page since the last change was kept.
#[derive(Clone, Copy, Debug)]
pub enum Change {
    /// It is there, as it was.
    Same,
    /// It is there, and was there with other bytes.
    Rewritten,
    /// It is there, and was not.
    Added,
    /// It was there, and is not.
    Forgotten,
    /// It was not there, and is not.
    Passed,
}

/// A page, and room for another one: for what it was, if it has changed. A vacant slot has no page
/// and had none, and has room for neither.
#[derive(Debug, Drop)]
pub enum Slot {
    Vacant,
    Taken {
        page: Page,
        other: Page,
        change: Change,
    },
}

impl Slot {
    /// A page that was not there before.
    pub fn added(page: Page, other: Page) -> Slot
        ensures page { page_now result ≡ Some page }
        ensures before { page_before result ≡ None }
        ensures changed { is_same result ≡ false }
        ensures whole { AreWhole result }
    {
        prove!(page.bytes().len() == PAGE_BYTES);
        prove!(other.bytes().len() == PAGE_BYTES);
        Slot::Taken {
            page,
            other,
            change: Change::Added,
        }
    }

    /// The page, if it is there.
    pub fn page(&self) -> Option<&Page>
        ensures { option_copied result ≡ page_now self.now }
    {
        match self {
            Slot::Vacant => None,
            Slot::Taken { page, change, .. } => match change {
                Change::Same | Change::Rewritten | Change::Added => Some(page),
                Change::Forgotten | Change::Passed => None,
            },
        }
    }

    /// The page that was there before the change, if one was.
    pub fn before(&self) -> Option<&Page>
        ensures { option_copied result ≡ page_before self.now }
    {
        match self {
            Slot::Vacant => None,
            Slot::Taken {
                page,
                other,
                change,
            } => match change {
                Change::Same => Some(page),
                Change::Rewritten | Change::Forgotten => Some(other),
                Change::Added | Change::Passed => None,
            },
        }
    }

    /// Whether nothing has changed.
    pub fn is_same(&self) -> bool
        ensures { result ≡ is_same self.now }
    {
        match self {
            Slot::Vacant => true,
            Slot::Taken { change, .. } => matches!(change, Change::Same),
        }
    }

    /// Writes these bytes into the page, which is there, from byte `at` on.
    pub fn rewrite(&mut self, at: usize, bytes: &[u8])
        requires there { IsSome (page_now self.old) }
        requires fits { at + length bytes.now ≤ PAGE_BYTES }
        ensures page { IsSomeAnd (page_now self.old)
            (λ page. page_now self.new ≡ Some (overwritten page at bytes.now)) }
        ensures before { page_before self.new ≡ page_before self.old }
        ensures changed { is_same self.new ≡ false }
        ensures whole { AreWhole self.old → AreWhole self.new }
    {
        let Slot::Taken {
            page,
            other,
            change,
        } = self
        else {
            return;
        };
        match *change {
            Change::Same => {
                other.set(0, page.bytes());
                page.set(at, bytes);
                *change = Change::Rewritten;
            }
            Change::Rewritten | Change::Added => page.set(at, bytes),
            Change::Forgotten | Change::Passed => (),
        }
    }

    /// Puts this page in place of what is there. A vacant slot takes the other one as its room.
    pub fn put(&mut self, new: Page, room: Option<Page>)
        requires { IsSome (page_now self.old) ⊎ IsSome room }
        ensures page { page_now self.new ≡ Some new }
        ensures before { page_before self.new ≡ page_before self.old }
        ensures changed { is_same self.new ≡ false }
        ensures whole { AreWhole self.old → AreWhole self.new }
    {
        prove!(new.bytes().len() == PAGE_BYTES);
        match self {
            Slot::Vacant => {
                if let Some(other) = room {
                    *self = Slot::added(new, other);
                }
            }
            Slot::Taken {
                page,
                other,
                change,
            } => {
                let was = replace(page, new);
                match *change {
                    Change::Same => {
                        *other = was;
                        *change = Change::Rewritten;
                    }
                    Change::Rewritten | Change::Forgotten => *change = Change::Rewritten,
                    Change::Added | Change::Passed => *change = Change::Added,
                }
            }
        }
    }

    /// Forgets the page, which is there.
    pub fn forget(&mut self)
        requires { IsSome (page_now self.old) }
        ensures page { page_now self.new ≡ None }
        ensures before { page_before self.new ≡ page_before self.old }
        ensures changed { is_same self.new ≡ false }
        ensures whole { AreWhole self.old → AreWhole self.new }
    {
        let Slot::Taken {
            page,
            other,
            change,
        } = self
        else {
            return;
        };
        match *change {
            Change::Same => {
                swap(page, other);
                *change = Change::Forgotten;
            }
            Change::Rewritten | Change::Forgotten => *change = Change::Forgotten,
            Change::Added | Change::Passed => *change = Change::Passed,
        }
    }

    /// Keeps the page as it is now. If none is there, the slot is vacant.
    pub fn settle(&mut self)
        ensures page { page_now self.new ≡ page_now self.old }
        ensures same { is_same self.new ≡ true }
        ensures whole { AreWhole self.old → AreWhole self.new }
    {
        if let Slot::Taken { change, .. } = self {
            match *change {
                Change::Same | Change::Rewritten | Change::Added => *change = Change::Same,
                Change::Forgotten | Change::Passed => *self = Slot::Vacant,
            }
        }
    }

    /// Takes the page back to what it was. If none was there, the slot is vacant.
    pub fn take_back(&mut self)
        ensures page { page_before self.new ≡ page_before self.old }
        ensures same { is_same self.new ≡ true }
        ensures whole { AreWhole self.old → AreWhole self.new }
    {
        if let Slot::Taken {
            page,
            other,
            change,
        } = self
        {
            match *change {
                Change::Same => (),
                Change::Rewritten | Change::Forgotten => {
                    swap(page, other);
                    *change = Change::Same;
                }
                Change::Added | Change::Passed => *self = Slot::Vacant,
            }
        }
    }
}
