//! How wide the fields of a record are.

ghost use Rattle.std.specs.Prelude.{◌≡◌, ◌^◌, ◌<◌, sum};

/// The widths of a record's fields in bytes, its head's three first: kind, zero and length.
///
/// The widths together are below 65,536, since a record says its length in two bytes.
#[derive(Clone, Copy, Debug)]
pub struct Layout<const N: usize> {
    pub widths: [u8; N],
    pub ghost short: { sum widths < 2 ^ 16 },
}

impl<const N: usize> Layout<N> {
    /// How many bytes a record of this layout takes, its head among them.
    pub fn size(&self) -> usize
        ensures { result ≡ sum self.now.widths }
    {
        let mut size = 0;
        for width in &self.widths {
            size += usize::from(*width);
        }
        size
    }
}
