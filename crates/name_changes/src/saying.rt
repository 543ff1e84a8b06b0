//! What a directory that is made or moved says of the directory that it stands in.
ghost use Rattle.std.specs.Prelude.{◌≡◌, None, IfErr, OnErr, OnOk};
ghost use Rattle.fileset_lending.specs.domain_base.declared.place.Kind.TheVariants as kind;
ghost use Rattle.fileset_lending.specs.page_store.Bitfiles.{IsDirectory};
ghost use Rattle.fileset_lending.specs.Chosen.{CallsChange, files_in};
ghost use Rattle.fileset_lending.specs.name_space.declared.fault.NameFault.TheVariants as fault;
ghost use Rattle.fileset_lending.specs.set_standing.Directories.{AreTags, said_of};

use fileset_lending::{Chosen, Kind, NameFault, Tag};
use std::alloc::Global;

/// Records for a directory of lent files which directory it stands in; for a file nothing is
/// recorded. After an Err nothing has changed.
pub(crate) fn say_parent(
    chosen: &mut Chosen,
    alloc: Global,
    of: Kind,
    tag: Tag,
    parent: Tag,
) -> Result<(), NameFault>
    requires { of ≡ kind.Directory → IsDirectory (files_in chosen.old) tag }
    ensures ok { OnOk result (CallsChange (said_of of tag parent) chosen.old chosen.new) }
    ensures err { OnErr result (CallsChange None chosen.old chosen.new) }
    ensures tags { AreTags (said_of of tag parent) }
    ensures files { files_in chosen.new ≡ files_in chosen.old }
    ensures fault { IfErr result (λ cause. cause ≡ fault.OutOfMemory) }
{
    match of {
        Kind::File => Ok(()),
        Kind::Directory => match chosen.set.set_parent(alloc, tag, parent) {
            Ok(()) => Ok(()),
            Err(_) => Err(NameFault::OutOfMemory),
        },
    }
}
