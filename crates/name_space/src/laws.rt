//! Laws of the fileset that a set's rows make.
ghost use Rattle.name_space.specs.Laws.{BytesAreFree, ChangesAreLike, ClonesHaveNames, RootIsOriginal};

/// A root directory alone makes the empty fileset.
pub fn root_is_original()
    ensures { RootIsOriginal }
{}

/// What files hold, their sizes and flags, and the limits of owners are no part of names: if only
/// these change, a set's rows make the changed fileset.
pub fn bytes_are_free()
    ensures { BytesAreFree }
{}

/// A change of one node that leaves its kind and owner changes no names.
pub fn changes_are_like()
    ensures { ChangesAreLike }
{}

/// The rows of an original make its new clone as well.
pub fn clones_have_names()
    ensures { ClonesHaveNames }
{}
