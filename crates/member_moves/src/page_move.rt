//! One move of a page.
ghost use Rattle.std.specs.Prelude.{◌≡◌};
ghost use Rattle.log_recovery.specs.page_store.Pages.{same_home};
ghost use Rattle.member_moves.specs.Moves.{has_home, is_from, is_unswitched, other_home, rephased};

use log_recovery::Home;

/// How far a move is.
#[derive(Clone, Copy, Debug, PartialEq, Eq)]
pub enum Phase {
    /// The new home is reserved for the page.
    Reserved,
    /// The page also stands at the new home.
    Copied,
    /// The page's place was changed to the new home, by a group that is not known to be durable.
    Switched,
}

/// A page's way from its old home to a new one.
#[derive(Clone, Copy, Debug, PartialEq, Eq)]
pub struct Move {
    pub from: Home,
    pub to: Home,
    pub phase: Phase,
}

pub(crate) fn is_same(one: &Home, other: &Home) -> bool
    ensures { result ≡ same_home one.now other.now }
{
    one.vol.number() == other.vol.number() && one.page == other.page
}

impl Move {
    /// Whether it is from that home.
    pub(crate) fn is_from(&self, home: &Home) -> bool
        ensures { result ≡ is_from home.now self.now }
    {
        is_same(&self.from, home)
    }

    /// Whether one of its two homes is that home.
    pub(crate) fn has_home(&self, home: &Home) -> bool
        ensures { result ≡ has_home home.now self.now }
    {
        self.is_from(home) || is_same(&self.to, home)
    }

    /// The other one of its homes.
    pub(crate) fn other_home(&self, home: &Home) -> Home
        ensures { result ≡ other_home home.now self.now }
    {
        if self.is_from(home) {
            self.to
        } else {
            self.from
        }
    }

    /// Whether the page's place was not changed yet.
    pub(crate) fn is_unswitched(&self) -> bool
        ensures { result ≡ is_unswitched self.now }
    {
        self.phase != Phase::Switched
    }

    /// Sets the phase, if it is from that home.
    pub(crate) fn set_phase_from(&mut self, from: &Home, phase: Phase)
        ensures { self.new ≡ rephased phase from.now self.old }
    {
        if self.is_from(from) {
            self.phase = phase;
        }
    }
}
