//! Why a domain whose pages break no rule is not attached.
ghost use Rattle.std.specs.Prelude.{◌≡◌};
ghost use Rattle.attached_domain.specs.declared.unfit.Unfit.TheVariants.{OutOfMemory as NoMemoryLeft};

use no_faults::OutOfMemory;
use std::error::Error;
use std::fmt;

/// Why a domain whose pages break no rule is not attached.
#[derive(Clone, Copy, Debug, PartialEq, Eq)]
pub enum Unfit {
    /// A slot of the fileset table has a clone.
    Cloned,
    /// A file is read through another one, though no slot has a clone. It belongs to what is being
    /// removed, or is itself to be removed.
    ReadThrough,
    /// What is being removed names quota cells that are not the first ones of its fileset.
    WrongQuotas,
    /// A tag leads to a file that is to be removed whole.
    RemovedFile,
    /// A tag of an original leads to a directory that is to be cut: it keeps fewer pages than a file
    /// can have.
    CutDirectory,
    /// Memory ran out.
    OutOfMemory,
}

impl fmt::Display for Unfit {
    fn fmt<W: fmt::Write>(&self, f: &mut fmt::Formatter<W>) -> fmt::Result {
        f.write_str(match self {
            Unfit::Cloned => "the domain has a clone",
            Unfit::ReadThrough => "a file is read through another one",
            Unfit::WrongQuotas => "what is being removed names other quota cells",
            Unfit::RemovedFile => "a tag leads to a file that is to be removed",
            Unfit::CutDirectory => "a directory is to be cut",
            Unfit::OutOfMemory => "out of memory",
        })
    }
}

impl Error for Unfit {}

impl From<OutOfMemory> for Unfit {
    ghost from_gives = { λ _ e. e ≡ NoMemoryLeft };

    fn from(_: OutOfMemory) -> Unfit {
        Unfit::OutOfMemory
    }
}
