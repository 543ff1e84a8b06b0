ghost use Rattle.std.specs.Prelude.{◌≡◌};
ghost use Rattle.history_reading.specs.Entries.{answer_kind};

use script_text::from_fileset_values::Command;

/// The kind of reply that a command gives if it is not refused.
#[derive(Clone, Copy, Debug, PartialEq, Eq)]
pub enum AnswerKind {
    /// Nothing but that it is done.
    Done,
    /// How many bytes were written, pages moved, or paths a file has.
    Count,
    /// The bytes that were read.
    Read,
    /// The names in a directory.
    Names,
    /// The attributes of a file or directory.
    Stat,
    Filesets,
    /// An owner's usage and limits.
    Quota,
    /// The member volumes.
    Volumes,
    /// Where the pages of a file stand.
    Extents,
}

/// The kind of reply that this command gives if it is not refused.
pub fn answer_kind(command: &Command) -> AnswerKind
    ensures { result ≡ answer_kind command.now }
{
    match command {
        Command::Write { .. }
        | Command::Links { .. }
        | Command::Migrate { .. }
        | Command::Balance
        | Command::Defragment { .. } => AnswerKind::Count,
        Command::Read { .. } => AnswerKind::Read,
        Command::List { .. } => AnswerKind::Names,
        Command::Stat { .. } => AnswerKind::Stat,
        Command::Showfsets => AnswerKind::Filesets,
        Command::Showquota { .. } => AnswerKind::Quota,
        Command::Showfdmn => AnswerKind::Volumes,
        Command::Showfile { .. } => AnswerKind::Extents,
        _ => AnswerKind::Done,
    }
}
