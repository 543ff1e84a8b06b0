//! Gates. A gate is a block before a body. The body counts only if its gate is open, and the gate's
//! first byte says whether it is. So a body is written while its gate is closed, and counts at once
//! when the gate is written open. Anchors and the groups of the log have gates.
ghost use Rattle.std.specs.Prelude.{◌≡◌, ◌<◌, ◌↔◌, length, IsTrue};
ghost use Rattle.domain_base.specs.Gate.{IsOpen, opened, closed};

use crate::limits::{BLOCK_BYTES, OPEN_GATE};

/// Whether the gate that begins with these bytes is open.
pub fn is_open(gate: &[u8]) -> bool
    requires { 0 < length gate.now }
    ensures { IsTrue result ↔ IsOpen gate.now }
{
    gate[0] == OPEN_GATE
}

/// An open gate, as it is written.
#[tactic(auto, unfolding(crate::specs::Gate::opened))]
pub fn open_block() -> [u8; BLOCK_BYTES]
    ensures value { result ≡ opened }
    ensures len { length result ≡ BLOCK_BYTES }
    ensures open { IsOpen result }
{
    [OPEN_GATE; BLOCK_BYTES]
}

/// A closed gate, as it is written.
#[tactic(auto, unfolding(crate::specs::Gate::closed))]
pub fn closed_block() -> [u8; BLOCK_BYTES]
    ensures value { result ≡ closed }
    ensures len { length result ≡ BLOCK_BYTES }
{
    [0; BLOCK_BYTES]
}
