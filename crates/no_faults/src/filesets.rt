//! A law: a domain that is read from pages without a fault stands.
ghost use Rattle.std.specs.Prelude.{◌≡◌, ℕ, false};
ghost use Rattle.domain_memory.specs.fileset_model.Filesets.{FilesetMap};
ghost use Rattle.domain_memory.specs.domain_standing.Keeping.{KeepDirectories};
ghost use Rattle.domain_memory.specs.domain_layout.CellRules.{of_clone};
ghost use Rattle.domain_memory.specs.domain_layout.Filled.{AreFilled};
ghost use Rattle.domain_memory.specs.domain_layout.Shape.{AreShapesOf, Shapes};
ghost use Rattle.domain_memory.specs.fileset_shapes.Files.{IsWhole};
ghost use Rattle.domain_memory.specs.domain_standing.Domain.{DomainNow, item_in, layout_of};
ghost use Rattle.domain_memory.specs.domain_standing.Standing.{StandsDomain};
ghost use Rattle.no_faults.specs.Attached.{IsReadFrom};

/// A domain that is read from pages without a fault stands for the filesets that these have, if
/// each page of a file or directory on a member is there, no directory is to be cut, and no slot
/// has a clone.
pub fn a_read_domain_stands()
    ensures { (d : DomainNow) (shapes : Shapes) (all : FilesetMap) → IsReadFrom d
        → IsWhole d.pages (layout_of d) → AreShapesOf d.pages d.table shapes
        → AreFilled d.contents shapes all
        → ((number : ℕ) → KeepDirectories d.pages d.table number)
        → ((number : ℕ) → of_clone (item_in d number) ≡ false) → StandsDomain d all }
{}
