//! Domains that were written down byte by byte, and what they mean, each by the contract of a
//! function without a body.
ghost use Rattle.std.specs.Prelude.{[], ◌∷◌};
ghost use Rattle.std.specs.FinMap.{empty};
ghost use Rattle.domain_making.specs.domain_base.declared.version.Version.{Version};
ghost use Rattle.domain_making.specs.domain_layout.Read.{Means};
ghost use Rattle.domain_tests.specs.EmptyDomain.{image_of};
ghost use Rattle.domain_tests.specs.OneFileset.{filesets, image_of as image_of_one};

/// A domain without filesets, of either version, has no fault, and means none.
pub fn empty_domain_means_nothing()
    ensures { (version : Version) → Means (512 ∷ []) (image_of version) empty }
{}

/// A domain with one fileset whose root has no row has no fault, and means that fileset.
pub fn one_fileset_means_itself()
    ensures { Means (512 ∷ []) image_of_one filesets }
{}
