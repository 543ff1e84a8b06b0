//! A law of changes of names, and of what directories say of those that they stand in.
ghost use Rattle.std.specs.Prelude.{◌≡◌, ℕ, Some};
ghost use Rattle.std.specs.FinMap.{get};
ghost use Rattle.fileset_lending.specs.fileset_model.Filesets.{FilesetMap};
ghost use Rattle.fileset_lending.specs.fileset_model.declared.fileset.FilesetSlot.{FilesetSlot};
ghost use Rattle.fileset_lending.specs.fileset_table.declared.slot.FilesetEntry.{FilesetEntry};
ghost use Rattle.fileset_lending.specs.fileset_table.declared.slot.SlotItem.TheVariants as slot;
ghost use Rattle.fileset_lending.specs.domain_standing.Domain.{DomainNow, item_in};
ghost use Rattle.fileset_lending.specs.domain_standing.Standing.{HaveParents, StandsDomain};
ghost use Rattle.fileset_lending.specs.standing_laws.Sound.{IsSound};
ghost use Rattle.fileset_lending.specs.set_standing.Around.{StaysAround};
ghost use Rattle.fileset_lending.specs.set_standing.Follow.{Said};
ghost use Rattle.fileset_lending.specs.set_standing.Directories.{AreTags, DirectoriesFollow, numbers_of};

/// After names of one original have changed, each directory of a domain still says the directory in
/// which its row stands, if each stands where it stood. The one exception is a directory for which
/// it was recorded which directory it stands in.
pub fn directories_say_where_they_stand()
    ensures { (said : Said) (number : ℕ) (entry : FilesetEntry) (d now : DomainNow)
        (all all_now : FilesetMap) (fileset fileset_now : FilesetSlot) → StandsDomain d all
        → IsSound d → StandsDomain now all_now → IsSound now
        → item_in d number ≡ Some (slot.Original entry) → get all entry.name ≡ Some fileset
        → get all_now entry.name ≡ Some fileset_now → StaysAround said number d now
        → AreTags said → DirectoriesFollow (numbers_of said) fileset.tree fileset_now.tree
        → HaveParents d → HaveParents now }
{}
