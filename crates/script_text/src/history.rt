//! The lines of a history.
ghost use Rattle.std.specs.Prelude.{◌≡◌, ◌++◌, OnOk, IfOk};
ghost use Rattle.script_text.specs.History.{line_of};

use crate::reply_text::push_reply;
use command_text::{Entry, OutOfMemory, push_actor, push_command};
use std::alloc::Global;

/// The line of an entry with its newline: who gave the command, the command, ` -> ` and the reply.
#[tactic(auto, unfolding(crate::specs::History::line_of))]
pub fn history_line(alloc: Global, entry: &Entry) -> Result<Vec<u8>, OutOfMemory>
    ensures { IfOk result (λ line. line.items ≡ line_of entry.now) }
{
    let mut line = Vec::new(alloc);
    push_actor(&mut line, entry.actor)?;
    line.push(b' ')?;
    push_command(&mut line, &entry.command)?;
    line.extend_from_slice(b" -> ")?;
    push_reply(&mut line, &entry.reply)?;
    line.push(b'\n')?;
    Ok(line)
}
