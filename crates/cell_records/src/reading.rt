//! Fields read one after the other.

ghost use Rattle.std.specs.Prelude.{◌≡◌, length, true};
ghost use Rattle.cell_records.specs.Rules.{are_widths, nothing_seen, scan};

use crate::rule::{Rule, Seen};
use byteorder::{ByteOrder, LittleEndian};

/// Where fields of these widths and rules at the front of the bytes end. After an error it is the
/// start of the first field that the bytes do not fill as its rule says.
pub fn scan_fields(widths: &[u8], rules: &[Rule], bytes: &[u8]) -> Result<usize, usize>
    requires same { length rules.now ≡ length widths.now }
    requires wide { are_widths widths.now ≡ true }
    ensures { result ≡ scan widths.now rules.now nothing_seen bytes.now 0 }
{
    let mut seen = Seen {
        from: 0,
        page: 0,
        used: false,
    };
    let mut at = 0;
    for (i, width) in widths.iter().enumerate() {
        let width = usize::from(*width);
        let rest = &bytes[at..];
        if rest.len() < width {
            return Err(at);
        }
        let number = LittleEndian::read_uint(rest, width);
        if !rules[i].allows(seen, number) {
            return Err(at);
        }
        seen = rules[i].after(seen, number);
        at += width;
    }
    Ok(at)
}
