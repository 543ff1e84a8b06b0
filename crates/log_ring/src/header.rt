//! What the header of a group of the log says.
ghost use Rattle.std.specs.Prelude.{◌≡◌};

use disk_label::Home;
use std::marker::Model;

/// Homes in their order, which contracts see as their list.
#[derive(Drop)]
pub struct HomeList {
    homes: Vec<Home>,
}

impl Model for HomeList {
    ghost use Rattle.std.specs.Prelude.{List};
    ghost use Rattle.disk_label.specs.domain_base.declared.place.Home.{Home};

    ghost Value = { List Home };

    ghost view = { λ l. l.homes.items };
}

impl HomeList {
    /// These homes.
    pub fn new(homes: Vec<Home>) -> HomeList
        ensures { result ≡ homes.items }
    {
        HomeList { homes }
    }

    /// Its homes.
    pub fn as_slice(&self) -> &[Home]
        ensures { result.now ≡ self.now }
    {
        self.homes.as_slice()
    }

    /// Its homes, given back.
    pub fn into_vec(self) -> Vec<Home>
        ensures { result.items ≡ self }
    {
        self.homes
    }
}

/// The content of the header of a group.
#[derive(Drop)]
pub struct Header {
    /// The number of the group. Each group has one more than the group before it.
    pub number: u64,
    /// The home of each of its images, in their order.
    pub homes: HomeList,
}

/// The result of reading a page of the log at which a group may begin.
#[derive(Drop)]
pub enum HeaderRead {
    /// Its gate is closed: no group begins there.
    Closed,
    /// A group begins there.
    Group(Header),
    /// Its gate is open, and what follows it is no header.
    Bad,
}
