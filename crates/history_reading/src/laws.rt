//! Laws of the text of commands and of lines. Each is the contract of a function without a body.
ghost use Rattle.std.specs.Prelude.{◌≡◌};
ghost use Rattle.script_text.specs.command_text.Texts.{command_text};
ghost use Rattle.script_text.specs.fileset_values.declared.command.Command.{Command as CommandOf};
ghost use Rattle.script_text.specs.fileset_values.declared.entry.Entry.{Entry as EntryOf};
ghost use Rattle.history_reading.specs.Entries.{IsEntry, unstamped};
ghost use Rattle.script_text.specs.History.{line_of};
ghost use Rattle.script_text.specs.command_text.WellFormed.{IsWellFormed, Says};

/// The text of a command, as a history writes it, says that same command by the table of commands,
/// including the commands on volumes. So no two commands have one text.
pub fn printed_commands_are_read()
    ensures said { (command : CommandOf) → IsWellFormed command
        → Says (command_text command) command }
    ensures one { (command other : CommandOf) → IsWellFormed command → IsWellFormed other
        → command_text command ≡ command_text other → command ≡ other }
{}

/// Entries with one line are the same except for their stamps, which are not written.
pub fn lines_tell_entries_apart()
    ensures { (entry other : EntryOf) → IsEntry entry → IsEntry other
        → line_of entry ≡ line_of other → unstamped entry ≡ unstamped other }
{}
