//! Laws of names in a clone.
ghost use Rattle.name_space.specs.Views.{ViewsHaveNames};

/// What a clone shows of an original's rows makes a clone of the same names, except that what is
/// out of sync is not there, and directories may have no index.
pub fn views_have_names()
    ensures { ViewsHaveNames }
{}
