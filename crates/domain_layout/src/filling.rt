//! Which bytes the filesets of a shape depend on.
ghost use Rattle.name_space.specs.fileset_model.Filesets.{FilesetMap};
ghost use Rattle.domain_layout.specs.Filled.{AreFilled, Contents};
ghost use Rattle.domain_layout.specs.Shape.{Shapes};
ghost use Rattle.domain_layout.specs.Agreeing.{AgreeOn};

/// Shapes are filled only from the bytes at the homes of their files: contents that agree there
/// make the same filesets of them.
pub fn filled_at_homes()
    ensures { (one other : Contents) (shapes : Shapes) (all : FilesetMap) → AgreeOn one other shapes
        → AreFilled one shapes all → AreFilled other shapes all }
{}
