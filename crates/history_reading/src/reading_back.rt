//! An entry written as its line and read back.
ghost use Rattle.std.specs.Prelude.{◌≡◌, IfErr, IfOk};
ghost use Rattle.history_reading.specs.Entries.{IsEntry, unstamped};
ghost use Rattle.script_text.specs.declared.script.ScriptFault.TheVariants.{OutOfMemory as NoMemory};

use crate::read_line;
use script_text::{Entry, ScriptFault, history_line};
use std::alloc::Global;

/// Writes the line of an entry and reads it back. The result is the entry except for its stamp,
/// which is not written and then 0. Fails only if memory runs out.
pub fn written_and_read(alloc: Global, entry: &Entry) -> Result<Entry, ScriptFault>
    requires { IsEntry entry.now }
    ensures same { IfOk result (λ back. back ≡ unstamped entry.now) }
    ensures fault { IfErr result (λ fault. fault ≡ NoMemory) }
{
    match history_line(alloc, entry) {
        Ok(line) => read_line(alloc, line.as_slice()),
        Err(_) => Err(ScriptFault::OutOfMemory),
    }
}
