//! Limits of whole filesets, which stand in the slots of the table.
ghost use Rattle.std.specs.Prelude.{◌≡◌, ℕ, Some};
ghost use Rattle.std.specs.FinMap.{get, insert};
ghost use Rattle.domain_standing.specs.domain_base.declared.place.Home.{Home};
ghost use Rattle.domain_standing.specs.fileset_model.Filesets.{FilesetMap};
ghost use Rattle.domain_standing.specs.fileset_model.Usage.{with_limits};
ghost use Rattle.domain_standing.specs.fileset_values.declared.command.Owner.TheVariants as owner;
ghost use Rattle.domain_standing.specs.fileset_model.declared.fileset.FilesetSlot.{FilesetSlot};
ghost use Rattle.domain_standing.specs.fileset_model.declared.fileset.Limits.{Limits};
ghost use Rattle.domain_standing.specs.fileset_table.declared.slot.FilesetEntry.{FilesetEntry};
ghost use Rattle.domain_standing.specs.free_space.Spaces.{Spaces};
ghost use Rattle.domain_standing.specs.quota_book.Book.{Book};
ghost use Rattle.domain_standing.specs.release_list.Standing.{Files};
ghost use Rattle.domain_standing.specs.Chains.{IndexesAt};
ghost use Rattle.domain_standing.specs.Domain.{DomainNow};
ghost use Rattle.domain_standing.specs.Slots.{StandSlots};
ghost use Rattle.domain_standing.specs.Sources.{StandAlone};
ghost use Rattle.domain_standing.specs.Standing.{AreBooksOf, HaveParents, IsMarkedBut, StandsDomain};
ghost use Rattle.standing_laws.specs.BoundedFileset.{BoundsFileset};
ghost use Rattle.standing_laws.specs.Leads.{StandsBelow};
ghost use Rattle.standing_laws.specs.SetsQuota.{fileset_limited};

/// If the limits of a whole fileset are set and each unchanged page keeps its bytes, a domain still
/// stands for its filesets, with these limits in that fileset.
pub fn a_domain_stands_on_where_a_fileset_is_bounded()
    ensures { (number : ℕ) (entry : FilesetEntry) (limits : Limits) (d now : DomainNow)
        → BoundsFileset number entry limits d now
        → ((home : Home) → now.pages home ≡ d.pages home → now.contents home ≡ d.contents home)
        → (all : FilesetMap) → StandsDomain d all → (fileset : FilesetSlot)
        → get all entry.name ≡ Some fileset
        → StandsDomain now (insert all entry.name (fileset_limited owner.Fileset limits fileset)) }
{}

/// If the limits of a whole fileset are set, no file starts to be read through another one.
pub fn files_stand_alone_where_a_fileset_is_bounded()
    ensures { (number : ℕ) (entry : FilesetEntry) (limits : Limits) (d now : DomainNow)
        (files : Files) (indexes : IndexesAt) → StandsBelow d files indexes
        → BoundsFileset number entry limits d now → StandAlone d → StandAlone now }
{}

/// If the limits of a whole fileset are set, bitmaps say the same of any free space.
pub fn bits_stay_where_a_fileset_is_bounded()
    ensures { (number : ℕ) (entry : FilesetEntry) (limits : Limits) (d now : DomainNow)
        (files : Files) (indexes : IndexesAt) → StandsBelow d files indexes
        → BoundsFileset number entry limits d now → (space : Spaces)
        → IsMarkedBut (record d { space = space }) → IsMarkedBut (record now { space = space }) }
{}

/// If the limits of a whole fileset are set, each directory still says the one in which its row
/// stands.
pub fn parents_stay_where_a_fileset_is_bounded()
    ensures { (number : ℕ) (entry : FilesetEntry) (limits : Limits) (d now : DomainNow)
        (files : Files) (indexes : IndexesAt) → StandsBelow d files indexes
        → BoundsFileset number entry limits d now → (all : FilesetMap) → StandSlots d all
        → HaveParents d → HaveParents now }
{}

/// If the limits of a whole fileset are set, books are those of their filesets if the book of that
/// fileset has the limits, too.
pub fn books_stay_where_a_fileset_is_bounded()
    ensures { (number : ℕ) (entry : FilesetEntry) (limits : Limits) (d now : DomainNow)
        (files : Files) (indexes : IndexesAt) → StandsBelow d files indexes
        → BoundsFileset number entry limits d now → (books books_now : ℕ → Book)
        → ((n : ℕ) → ¬ n ≡ number → books_now n ≡ books n)
        → books_now number ≡ record (books number) {
          limits = with_limits (books number).limits owner.Fileset limits;
        } → (all : FilesetMap) (fileset : FilesetSlot) → get all entry.name ≡ Some fileset
        → AreBooksOf books d all → AreBooksOf books_now now
        (insert all entry.name (fileset_limited owner.Fileset limits fileset)) }
{}
