//! Quota cells of what is being removed.
ghost use Rattle.std.specs.Prelude.{ℕ};
ghost use Rattle.standing_laws.specs.release_list.Standing.{Files};
ghost use Rattle.standing_laws.specs.fileset_model.Filesets.{FilesetMap};
ghost use Rattle.standing_laws.specs.domain_standing.Chains.{IndexesAt};
ghost use Rattle.standing_laws.specs.domain_standing.Domain.{DomainNow};
ghost use Rattle.standing_laws.specs.domain_standing.Slots.{StandSlots};
ghost use Rattle.standing_laws.specs.domain_standing.Sources.{StandAlone};
ghost use Rattle.standing_laws.specs.domain_standing.Standing.{HaveParents, IsMarkedBut};
ghost use Rattle.standing_laws.specs.free_space.Spaces.{Spaces};
ghost use Rattle.standing_laws.specs.Leads.{StandsBelow};
ghost use Rattle.standing_laws.specs.Sound.{StandsSound};
ghost use Rattle.release_laws.specs.QuotaCells.{EndsQuotaOf, LosesQuotaOf};

/// If a domain stands and no file is read through another one, this stays true once one of the
/// quota cells of what is being removed is free. What the rules of pages ask besides stays true.
pub fn a_domain_stands_on_where_a_quota_cell_goes()
    ensures below { (d now : DomainNow) (files files_now : Files) (indexes : IndexesAt)
        → StandsBelow d files indexes → StandAlone d → (number : ℕ)
        → LosesQuotaOf number d now files files_now → StandsBelow now files_now indexes }
    ensures alone { (d now : DomainNow) (files files_now : Files) (indexes : IndexesAt)
        → StandsBelow d files indexes → StandAlone d → (number : ℕ)
        → LosesQuotaOf number d now files files_now → StandAlone now }
    ensures sound { (d now : DomainNow) (files files_now : Files) (indexes : IndexesAt)
        → StandsBelow d files indexes → StandAlone d → (number : ℕ)
        → LosesQuotaOf number d now files files_now → StandsSound d files indexes
        → StandsSound now files_now indexes }
{}

/// It stands for the same filesets, each directory still says the one in which its row stands, and
/// bits of bitmaps say of free space what they said.
pub fn filesets_stand_where_a_quota_cell_goes()
    ensures slots { (d now : DomainNow) (files files_now : Files) (indexes : IndexesAt)
        → StandsBelow d files indexes → StandAlone d → (number : ℕ)
        → LosesQuotaOf number d now files files_now → (all : FilesetMap) → StandSlots d all
        → StandSlots now all }
    ensures parents { (d now : DomainNow) (files files_now : Files) (indexes : IndexesAt)
        → StandsBelow d files indexes → StandAlone d → (number : ℕ)
        → LosesQuotaOf number d now files files_now → (all : FilesetMap) → StandSlots d all
        → HaveParents d → HaveParents now }
    ensures bits { (d now : DomainNow) (files files_now : Files) (indexes : IndexesAt)
        → StandsBelow d files indexes → StandAlone d → (number : ℕ)
        → LosesQuotaOf number d now files files_now → (space : Spaces)
        → IsMarkedBut (record d { space = space }) → IsMarkedBut (record now { space = space }) }
{}

/// If a domain stands and no file is read through another one, this stays true once the last of the
/// quota cells of what is being removed is free and its slot names none any more. What the rules of
/// pages ask besides stays true.
pub fn a_domain_stands_on_where_the_last_quota_cell_goes()
    ensures below { (d now : DomainNow) (files files_now : Files) (indexes : IndexesAt)
        → StandsBelow d files indexes → StandAlone d → (number : ℕ)
        → EndsQuotaOf number d now files files_now → StandsBelow now files_now indexes }
    ensures alone { (d now : DomainNow) (files files_now : Files) (indexes : IndexesAt)
        → StandsBelow d files indexes → StandAlone d → (number : ℕ)
        → EndsQuotaOf number d now files files_now → StandAlone now }
    ensures sound { (d now : DomainNow) (files files_now : Files) (indexes : IndexesAt)
        → StandsBelow d files indexes → StandAlone d → (number : ℕ)
        → EndsQuotaOf number d now files files_now → StandsSound d files indexes
        → StandsSound now files_now indexes }
{}

/// It stands for the same filesets, each directory still says the one in which its row stands, and
/// bits of bitmaps say of free space what they said.
pub fn filesets_stand_where_the_last_quota_cell_goes()
    ensures slots { (d now : DomainNow) (files files_now : Files) (indexes : IndexesAt)
        → StandsBelow d files indexes → StandAlone d → (number : ℕ)
        → EndsQuotaOf number d now files files_now → (all : FilesetMap) → StandSlots d all
        → StandSlots now all }
    ensures parents { (d now : DomainNow) (files files_now : Files) (indexes : IndexesAt)
        → StandsBelow d files indexes → StandAlone d → (number : ℕ)
        → EndsQuotaOf number d now files files_now → (all : FilesetMap) → StandSlots d all
        → HaveParents d → HaveParents now }
    ensures bits { (d now : DomainNow) (files files_now : Files) (indexes : IndexesAt)
        → StandsBelow d files indexes → StandAlone d → (number : ℕ)
        → EndsQuotaOf number d now files files_now → (space : Spaces)
        → IsMarkedBut (record d { space = space }) → IsMarkedBut (record now { space = space }) }
{}
