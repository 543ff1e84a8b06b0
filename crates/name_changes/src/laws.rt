//! Filesets that are at hand.
ghost use Rattle.fileset_lending.specs.page_store.Bitfiles.{Bitfiles};
ghost use Rattle.fileset_lending.specs.name_space.Changes.{HasOriginal};

/// If it is known that the rows of a set make some fileset, one is at hand: the one with the same
/// paths and no byte in any file. So a type may keep the fact truncated, and a call on names that
/// asks for a fileset like this has one.
pub fn filesets_of_rows_are_at_hand()
    ensures { (files : Bitfiles) → ∥ HasOriginal files ∥₁ → HasOriginal files }
{}
