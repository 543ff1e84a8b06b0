//! Commands at the root of a fileset, which is always there: it is never made, taken away, moved or
//! replaced.
ghost use Rattle.std.specs.Prelude.{◌≡◌, ◌≢◌, ◌≤◌, [], false, true, IfErr, if◌then◌else◌, length};
ghost use Rattle.domain_changes.specs.fileset_model.Filesets.{FilesetMap};
ghost use Rattle.domain_changes.specs.fileset_values.declared.command.Command.{Command};
ghost use Rattle.domain_changes.specs.fileset_values.declared.command.Command.TheVariants.{Link, Rename};
ghost use Rattle.domain_changes.specs.name_space.Names.{is_directory_kind};
ghost use Rattle.domain_changes.specs.domain_memory.Kept.{KeepsKept};
ghost use Rattle.domain_changes.specs.domain_memory.Memory.{StandsFor};
ghost use Rattle.domain_changes.specs.domain_memory.Staged.{IsSettled, MayGoBack};
ghost use Rattle.domain_state.specs.History.{StandsForSome};
ghost use Rattle.name_commands.specs.Ending.{EndsAs, LacksPage};
ghost use Rattle.name_commands.specs.Leaving.{taking};
ghost use Rattle.name_commands.specs.Naming.{IsPathToGet, creation};
ghost use Rattle.name_commands.specs.Rooted.{IsRefusedIn, IsRefusedOnto, refused_below};
ghost use Rattle.name_commands.specs.declared.stop.Stop.TheVariants.{NoPage};

use crate::creating::stage_creation;
use crate::finding::slot_of;
use crate::linking::stage_link;
use crate::placing::find_place;
use crate::renaming::stage_rename;
use crate::stop::Stop;
use crate::taking::stage_taking;
use domain_changes::{DomainMemory, FilesetName, Kind, Path, Place, Refusal, Reply, Tag, VolIx};
use name_changes::{look_at, settings_of};
use std::alloc::Global;

/// Whether a path is the root's.
fn is_root(path: &Path) -> bool
    ensures root { result ≡ true → path.now ≡ [] }
    ensures named { result ≡ false → 1 ≤ length path.now }
{
    path.as_slice().is_empty()
}

/// Refuses a command at the root of a fileset, or with no-fileset if no fileset has this name.
/// Memory stays as it is.
fn refuse_root(
    memory: DomainMemory,
    fileset: &FilesetName,
    refusal: Refusal,
) -> (DomainMemory, Result<Reply, Stop>)
    requires settled { IsSettled memory }
    requires stands { ∥ StandsForSome memory ∥₁ }
    requires back { ∥ MayGoBack memory ∥₁ }
    ensures ends { (command : Command) → IsRefusedIn fileset.now refusal command
        → (all : FilesetMap) → StandsFor memory all → EndsAs result.0 all command result.1 }
    ensures pages { IfErr result.1 (λ stop. stop ≢ NoPage) }
    ensures kept { ∥ KeepsKept memory result.0 ∥₁ }
    ensures back { ∥ MayGoBack result.0 ∥₁ }
{
    match slot_of(&memory, fileset) {
        Ok(_number) => (memory, Err(Stop::Refused(refusal))),
        Err(stop) => (memory, Err(stop)),
    }
}

/// The refusal for a thing of a kind.
fn refusal_onto(kind: Kind, of_file: Refusal, of_directory: Refusal) -> Refusal
    ensures { result ≡ (if is_directory_kind kind then of_directory else of_file) }
{
    match kind {
        Kind::File => of_file,
        Kind::Directory => of_directory,
    }
}

/// Refuses to put something in place of the root of a fileset. What the way to the thing refuses
/// comes first; then there is one refusal for a file, and one for a directory. Memory stays as it
/// is.
fn refuse_onto(
    memory: DomainMemory,
    place: &Place,
    of_file: Refusal,
    of_directory: Refusal,
    prefer: VolIx,
) -> (DomainMemory, Result<Reply, Stop>)
    requires settled { IsSettled memory }
    requires stands { ∥ StandsForSome memory ∥₁ }
    requires back { ∥ MayGoBack memory ∥₁ }
    ensures ends { (command : Command) → IsRefusedOnto place.now of_file of_directory command
        → (all : FilesetMap) → StandsFor memory all → EndsAs result.0 all command result.1 }
    ensures kept { ∥ KeepsKept memory result.0 ∥₁ }
    ensures back { ∥ MayGoBack result.0 ∥₁ }
{
    let (memory, found) = find_place(memory, place, prefer);
    match found {
        Ok(at) => {
            let refusal = refusal_onto(at.kind, of_file, of_directory);
            (memory, Err(Stop::Refused(refusal)))
        }
        Err(stop) => (memory, Err(stop)),
    }
}

/// Why the root cannot be moved below a directory, by what leads to the directory.
fn refusal_below(led: Result<(Tag, Kind), Refusal>) -> Refusal
    ensures { result ≡ refused_below led }
{
    match led {
        Ok((_, kind)) => match kind {
            Kind::Directory => Refusal::IntoItself,
            Kind::File => Refusal::NotDirectory,
        },
        Err(refusal) => refusal,
    }
}

/// Renames the root of a fileset. A rename to itself changes nothing; any other is refused. Memory
/// stays as it is.
fn rename_root(
    memory: DomainMemory,
    alloc: Global,
    place: &Place,
    to: &Path,
    prefer: VolIx,
) -> (DomainMemory, Result<Reply, Stop>)
    requires settled { IsSettled memory }
    requires stands { ∥ StandsForSome memory ∥₁ }
    requires back { ∥ MayGoBack memory ∥₁ }
    requires root { place.now.path ≡ [] }
    ensures ends { (all : FilesetMap) → StandsFor memory all
        → EndsAs result.0 all (Rename place.now to.now) result.1 }
    ensures kept { ∥ KeepsKept memory result.0 ∥₁ }
    ensures back { ∥ MayGoBack result.0 ∥₁ }
{
    let number = match slot_of(&memory, &place.fileset) {
        Ok(number) => number,
        Err(stop) => return (memory, Err(stop)),
    };
    if is_root(to) {
        return (memory, Ok(Reply::Done));
    }
    let parent = match to.front(alloc, to.as_slice().len() - 1) {
        Ok(parent) => parent,
        Err(_) => return (memory, Err(Stop::OutOfMemory)),
    };
    let settings = settings_of(&memory, prefer);
    let (memory, led) = look_at(memory, number, settings, &parent);
    (memory, Err(Stop::Refused(refusal_below(led))))
}

/// Lays a new file or directory over a domain's memory. The command is refused as the rules of
/// filesets say, in their order. If the command is stopped, the change may be half made.
pub fn stage_making(
    memory: DomainMemory,
    alloc: Global,
    place: &Place,
    kind: Kind,
    uid: u32,
    gid: u32,
    prefer: VolIx,
) -> (DomainMemory, Result<Reply, Stop>)
    requires settled { IsSettled memory }
    requires stands { ∥ StandsForSome memory ∥₁ }
    requires back { ∥ MayGoBack memory ∥₁ }
    requires named { IsPathToGet place.now.path }
    ensures ends { (all : FilesetMap) → StandsFor memory all
        → EndsAs result.0 all (creation kind place.now uid gid) result.1 }
    ensures kept { ∥ KeepsKept memory result.0 ∥₁ }
    ensures back { ∥ MayGoBack result.0 ∥₁ }
    ensures cause { IfErr result.1 (λ stop. stop ≡ NoPage
        → LacksPage (creation kind place.now uid gid) memory) }
{
    if is_root(&place.path) {
        return refuse_root(memory, &place.fileset, Refusal::Exists);
    }
    stage_creation(memory, alloc, place, kind, uid, gid, prefer)
}

/// Lays the removal of a path of a file, or of a directory, over a domain's memory. The command is
/// refused as the rules of filesets say, in their order. If the command is stopped, the change may
/// be half made.
pub fn stage_leaving(
    memory: DomainMemory,
    alloc: Global,
    place: &Place,
    of: Kind,
    prefer: VolIx,
) -> (DomainMemory, Result<Reply, Stop>)
    requires settled { IsSettled memory }
    requires stands { ∥ StandsForSome memory ∥₁ }
    requires back { ∥ MayGoBack memory ∥₁ }
    ensures ends { (all : FilesetMap) → StandsFor memory all
        → EndsAs result.0 all (taking of place.now) result.1 }
    ensures kept { ∥ KeepsKept memory result.0 ∥₁ }
    ensures back { ∥ MayGoBack result.0 ∥₁ }
    ensures cause { IfErr result.1 (λ stop. stop ≡ NoPage
        → LacksPage (taking of place.now) memory) }
{
    if is_root(&place.path) {
        let refusal = refusal_onto(of, Refusal::IsDirectory, Refusal::NotEmpty);
        return refuse_root(memory, &place.fileset, refusal);
    }
    stage_taking(memory, alloc, place, of, prefer)
}

/// Lays a second path of a file over a domain's memory. The command is refused as the rules of
/// filesets say, in their order. If the command is stopped, the change may be half made.
pub fn stage_linking(
    memory: DomainMemory,
    alloc: Global,
    place: &Place,
    to: &Path,
    prefer: VolIx,
) -> (DomainMemory, Result<Reply, Stop>)
    requires settled { IsSettled memory }
    requires stands { ∥ StandsForSome memory ∥₁ }
    requires back { ∥ MayGoBack memory ∥₁ }
    requires named { IsPathToGet to.now }
    ensures ends { (all : FilesetMap) → StandsFor memory all
        → EndsAs result.0 all (Link place.now to.now) result.1 }
    ensures kept { ∥ KeepsKept memory result.0 ∥₁ }
    ensures back { ∥ MayGoBack result.0 ∥₁ }
    ensures cause { IfErr result.1 (λ stop. stop ≡ NoPage
        → LacksPage (Link place.now to.now) memory) }
{
    let from_root = is_root(&place.path);
    let to_root = is_root(to);
    if from_root {
        return refuse_root(memory, &place.fileset, Refusal::IsDirectory);
    }
    if to_root {
        return refuse_onto(memory, place, Refusal::Exists, Refusal::IsDirectory, prefer);
    }
    stage_link(memory, alloc, place, to, prefer)
}

/// Lays a move over a domain's memory: what stands at a path moves to a second path, in place of
/// what stands there. The command is refused as the rules of filesets say, in their order. If the
/// command is stopped, the change may be half made.
pub fn stage_moving(
    memory: DomainMemory,
    alloc: Global,
    place: &Place,
    to: &Path,
    prefer: VolIx,
) -> (DomainMemory, Result<Reply, Stop>)
    requires settled { IsSettled memory }
    requires stands { ∥ StandsForSome memory ∥₁ }
    requires back { ∥ MayGoBack memory ∥₁ }
    requires named { IsPathToGet to.now }
    ensures ends { (all : FilesetMap) → StandsFor memory all
        → EndsAs result.0 all (Rename place.now to.now) result.1 }
    ensures kept { ∥ KeepsKept memory result.0 ∥₁ }
    ensures back { ∥ MayGoBack result.0 ∥₁ }
    ensures cause { IfErr result.1 (λ stop. stop ≡ NoPage
        → LacksPage (Rename place.now to.now) memory) }
{
    let from_root = is_root(&place.path);
    let to_root = is_root(to);
    if from_root {
        return rename_root(memory, alloc, place, to, prefer);
    }
    if to_root {
        return refuse_onto(
            memory,
            place,
            Refusal::IsDirectory,
            Refusal::NotEmpty,
            prefer,
        );
    }
    stage_rename(memory, alloc, place, to, prefer)
}
