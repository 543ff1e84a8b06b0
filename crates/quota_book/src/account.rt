//! An owner's share of a fileset, now and as it was kept.
ghost use Rattle.std.specs.Prelude.{◌≡◌, false};
ghost use Rattle.quota_book.specs.Accounts.{Kept as KeptSide, Now as NowSide, is_same as stays, share_on};

use fileset_model::{Limits, Usage};

/// What an owner uses, and what it may use.
#[derive(Clone, Copy)]
pub struct Share {
    pub usage: Usage,
    pub limits: Limits,
}

/// One of an owner's two shares.
#[derive(Clone, Copy)]
pub enum Side {
    /// What the owner has now.
    Now,
    /// What was kept.
    Kept,
}

/// An owner's share now, and what it was when it was kept, if it may have changed since.
#[derive(Clone, Copy)]
pub enum Account {
    Same(Share),
    Changed { now: Share, was: Share },
}

impl Account {
    /// One of the two shares.
    pub fn share(&self, side: Side) -> Share
        ensures { result ≡ share_on side self.now }
    {
        match (self, side) {
            (Account::Same(share), _) => *share,
            (Account::Changed { now, .. }, Side::Now) => *now,
            (Account::Changed { was, .. }, Side::Kept) => *was,
        }
    }

    /// Whether the share is as it was kept.
    pub fn is_same(&self) -> bool
        ensures { result ≡ stays self.now }
    {
        matches!(self, Account::Same(_))
    }

    /// An account with this share now, and with what was kept as it is.
    pub fn with(&self, now: Share) -> Account
        ensures now { share_on NowSide result ≡ now }
        ensures kept { share_on KeptSide result ≡ share_on KeptSide self.now }
        ensures changed { stays result ≡ false }
    {
        Account::Changed {
            now,
            was: self.share(Side::Kept),
        }
    }
}
