//! Domains by the parts in which a set of files stands.
ghost use Rattle.std.specs.Prelude.{◌++◌, [], None, ℕ, List};
ghost use Rattle.standing_laws.specs.domain_base.declared.place.CellAt.{CellAt};
ghost use Rattle.standing_laws.specs.domain_base.declared.version.Version.{Version};
ghost use Rattle.set_standing.specs.Follow.{Said};
ghost use Rattle.set_standing.specs.Parts.{KeepsAround, Parts};

/// If no part changes, a domain that stands around the slot still does.
pub fn parts_that_stay_keep_all_around()
    ensures { (number : ℕ) (version : Version) (born : ℕ) (parts : Parts)
        → KeepsAround None number version born [] parts parts }
{}

/// The domain around the slot still stands after two changes, if it does after each. What both take
/// away is put on the list. If the first says nothing of directories, both together say of one what
/// the second says of it.
pub fn changes_of_parts_join()
    ensures { (said : Said) (number : ℕ) (version : Version) (born : ℕ) (removed more : List CellAt)
        (parts between parts_now : Parts)
        → KeepsAround None number version born removed parts between
        → KeepsAround said number version born more between parts_now
        → KeepsAround said number version born (removed ++ more) parts parts_now }
{}
