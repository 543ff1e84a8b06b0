//! Which commands are answered so far.
ghost use Rattle.std.specs.Prelude.{◌≡◌, ◌↔◌, true};
ghost use Rattle.file_commands.specs.name_commands.Ending.{IsServed};
ghost use Rattle.file_commands.specs.name_commands.Naming.{IsPathToGet};

use file_commands::{Command, Path, is_fileset_name, is_row_name};

/// Whether something may get a path, or the path is the root's: a last name is one that a row may
/// have.
fn is_path_to_get(path: &Path) -> bool
    ensures { (result ≡ true) ↔ IsPathToGet path.now }
{
    let names = path.as_slice();
    if names.is_empty() {
        return true;
    }
    is_row_name(names[names.len() - 1].as_slice())
}

/// Whether a command is one of those that are answered so far, with names of the forms that scripts
/// have. Each command must be checked by this before it is answered.
pub fn is_served(command: &Command) -> bool
    ensures { (result ≡ true) ↔ IsServed command.now }
{
    match command {
        Command::Mkfset { fileset } => is_fileset_name(fileset.as_slice()),
        Command::Rmfset { .. } | Command::Setquota { .. } => true,
        Command::Showfsets | Command::Showquota { .. } => true,
        Command::Write { .. } | Command::Truncate { .. } | Command::Chfile { .. } => true,
        Command::Read { .. } | Command::Links { .. } => true,
        Command::List { .. } | Command::Stat { .. } | Command::Fsync { .. } => true,
        Command::Sync | Command::Cancel => true,
        Command::Showfdmn | Command::Showfile { .. } => true,
        Command::Create { place, .. } | Command::Mkdir { place, .. } => is_path_to_get(&place.path),
        Command::Link { to, .. } | Command::Rename { to, .. } => is_path_to_get(to),
        Command::Unlink { .. } | Command::Rmdir { .. } => true,
        _ => false,
    }
}
