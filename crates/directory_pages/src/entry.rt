//! Hashes, and entries in their order.
ghost use Rattle.std.specs.Prelude.{◌≡◌, ◌+◌, ◌*◌, ◌%◌, ◌^◌};
ghost use Rattle.directory_pages.specs.Entries.{hash_of, is_below as below};

/// An entry of an index: the hash of a name, and the page of the directory that has its row.
#[derive(Clone, Copy, Debug, PartialEq, Eq)]
pub struct IndexEntry {
    pub hash: u32,
    pub page: u32,
}

/// The hash of some bytes and one more.
fn hash_on(hash: u32, byte: u8) -> u32
    ensures { result ≡ (hash * 31 + byte) % 2 ^ 32 }
{
    ((u64::from(hash) * 31 + u64::from(byte)) % 4_294_967_296) as u32
}

/// The hash of a name: from 0 on, 31 times the hash so far plus the next byte, modulo 2^32.
pub fn name_hash(name: &[u8]) -> u32
    ensures { result ≡ hash_of name.now }
{
    let mut hash = 0;
    for byte in name {
        hash = hash_on(hash, *byte);
    }
    hash
}

/// Whether an entry comes before another: by its hash, and then by its page.
pub(crate) fn is_below(entry: &IndexEntry, other: &IndexEntry) -> bool
    ensures { result ≡ below entry.now other.now }
{
    entry.hash < other.hash || (entry.hash == other.hash && entry.page < other.page)
}
