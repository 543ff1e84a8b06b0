ghost use Rattle.std.specs.Prelude.{◌≡◌};
ghost use Rattle.std.specs.Ordering.{as_partial_cmp, eq_by_cmp};
ghost use Rattle.std.specs.Cmp.{partial_order_from_own_ties};
ghost use Rattle.std.specs.Cmp.Rules.{comparing};
ghost use Rattle.std.proofs.Common.{rules};
ghost use Rattle.fileset_values.specs.Orders.{owner_cmp, owner_id, owner_kind};

use crate::listing::Listing;
use crate::names::{Bytes, FilesetName, Path};
use std::cmp::Ordering;

/// A path in a fileset, written `FILESET:/NAME/NAME`.
#[derive(Drop)]
pub struct Place {
    pub fileset: FilesetName,
    pub path: Path,
}

/// Whose usage a quota limits.
#[derive(Clone, Copy, Debug)]
pub enum Owner {
    /// The files and directories of a user id.
    User(u32),
    /// The files and directories of a group id.
    Group(u32),
    /// All files and directories of the fileset.
    Fileset,
}

impl Owner {
    /// Where the owner's kind stands in the order of owners: users, groups, and then the fileset.
    fn kind(&self) -> u8
        ensures { result ≡ owner_kind self.now }
    {
        match self {
            Owner::User(_) => 0,
            Owner::Group(_) => 1,
            Owner::Fileset => 2,
        }
    }

    fn id(&self) -> u32
        ensures { result ≡ owner_id self.now }
    {
        match self {
            Owner::User(id) | Owner::Group(id) => *id,
            Owner::Fileset => 0,
        }
    }
}

impl PartialEq for Owner {
    ghost eq = { eq_by_cmp owner_cmp };

    ghost laws = { Prim.search (comparing, rules) };

    fn eq(&self, other: &Owner) -> bool {
        self.cmp(other) == Ordering::Equal
    }
}

impl Eq for Owner {
    ghost laws = { Prim.search (comparing, rules) };
}

impl PartialOrd for Owner {
    ghost partial_cmp = { as_partial_cmp owner_cmp };

    ghost laws = { partial_order_from_own_ties
        (Prim.search (comparing, rules))
        (Prim.search (comparing, rules)) };

    fn partial_cmp(&self, other: &Owner) -> Option<Ordering> {
        Some(self.cmp(other))
    }
}

impl Ord for Owner {
    ghost cmp = { owner_cmp };

    ghost total = { Prim.search (comparing, rules) };

    ghost matches_partial_cmp = { Prim.search (comparing, rules) };

    ghost matches_eq = { Prim.search (comparing, rules) };

    fn cmp(&self, other: &Owner) -> Ordering {
        self.kind()
            .cmp(&other.kind())
            .then(self.id().cmp(&other.id()))
    }
}

/// Who gives a command: a client, numbered from 1 to 8, or the mover of pages and volumes.
#[derive(Clone, Copy, Debug, PartialEq, Eq)]
pub enum Actor {
    Client(u8),
    Mover,
}

/// A command of a client, or of the mover of pages and volumes. Offsets and sizes are in bytes,
/// block limits in blocks of 512 bytes. A limit of 0 means no limit. Volumes are numbered from 1 to
/// 8.
#[derive(Drop)]
pub enum Command {
    /// Makes a fileset with an empty root (mkfset).
    Mkfset {
        fileset: FilesetName,
    },
    /// Removes a fileset without a clone (rmfset).
    Rmfset {
        fileset: FilesetName,
    },
    /// Makes a frozen copy of a fileset (clonefset).
    Clonefset {
        fileset: FilesetName,
        new_name: FilesetName,
    },
    /// Lists the filesets (showfsets).
    Showfsets,
    /// Sets an owner's limits in a fileset.
    Setquota {
        fileset: FilesetName,
        who: Owner,
        files: u64,
        blocks: u64,
    },
    /// Shows an owner's usage and limits in a fileset.
    Showquota {
        fileset: FilesetName,
        who: Owner,
    },
    /// Makes an empty file.
    Create {
        place: Place,
        uid: u32,
        gid: u32,
    },
    /// Makes an empty directory.
    Mkdir {
        place: Place,
        uid: u32,
        gid: u32,
    },
    /// Writes bytes into a file from an offset on.
    Write {
        place: Place,
        offset: u64,
        bytes: Bytes,
    },
    /// Reads at most `count` bytes of a file from an offset on.
    Read {
        place: Place,
        offset: u64,
        count: u32,
    },
    /// Sets the size of a file.
    Truncate {
        place: Place,
        size: u64,
    },
    /// Moves a file or directory to another path of the same fileset.
    Rename {
        place: Place,
        to: Path,
    },
    /// Gives a file one more path in the same fileset.
    Link {
        place: Place,
        to: Path,
    },
    /// Counts the paths of a file.
    Links {
        place: Place,
    },
    /// Removes a path of a file, and the file with its last path.
    Unlink {
        place: Place,
    },
    /// Removes an empty directory.
    Rmdir {
        place: Place,
    },
    /// Lists the names in a directory.
    List {
        place: Place,
    },
    /// Shows the attributes of a file or directory.
    Stat {
        place: Place,
    },
    /// Makes a file durable.
    Fsync {
        place: Place,
    },
    /// Sets whether the data of a file is logged (chfile -L).
    Chfile {
        place: Place,
        logged: bool,
    },
    /// Spreads the new pages of a file without pages over `width` volumes (stripe -n).
    Stripe {
        width: u8,
        place: Place,
    },
    /// Makes everything durable.
    Sync,
    /// Asks the mover's running job to stop.
    Cancel,
    /// Shows the member volumes of the domain (showfdmn).
    Showfdmn,
    /// Shows where the pages of a file stand (showfile).
    Showfile {
        place: Place,
    },
    /// Moves pages of a file to volume `to`: `count` pages from page `first` on, or those of them
    /// that stand on volume `from`. Without `first` the range begins at page 0, without `count` it
    /// has no end, and without `from` it lies on any volume.
    Migrate {
        place: Place,
        first: Option<u32>,
        count: Option<u32>,
        from: Option<u32>,
        to: u32,
    },
    /// Moves pages until the volumes are used evenly.
    Balance,
    /// Makes a volume of the rack a member (addvol).
    Addvol {
        vol: u32,
    },
    /// Empties a member volume and takes it out of the domain (rmvol).
    Rmvol {
        vol: u32,
    },
    /// Opens a closed member volume again (chvol -A).
    ChvolA {
        vol: u32,
    },
    /// Moves the log to a volume (switchlog).
    Switchlog {
        vol: u32,
    },
    /// Brings the domain to version 4 of its format.
    Upgrade,
    /// Moves pages of a file so that it has fewer extents.
    Defragment {
        place: Place,
    },
}

/// Commands in their order.
pub type CommandList = Listing<Command>;
