ghost use Rattle.std.specs.Prelude.{◌≡◌, ℕ, ◌≤◌, List, [], IfOk, length, nat_eq, take};
ghost use Rattle.std.specs.Ordering.{nat_cmp, as_partial_cmp};
ghost use Rattle.std.specs.Cmp.{partial_order_from_own_ties};
ghost use Rattle.std.specs.Cmp.Lexicographic.{lists_ties, pointwise, slice_cmp, texts_ties};
ghost use Rattle.std.specs.Cmp.Rules.{comparing};
ghost use Rattle.std.proofs.Common.{rules};

use domain_base::OutOfMemory;
use std::alloc::Global;
use std::cmp::Ordering;
use std::marker::Model;

/// The name of a fileset. Any bytes are allowed here. A script can only give names of 1 to 31
/// letters, digits, underscores, hyphens and dots.
#[derive(Debug, Drop)]
pub struct FilesetName {
    bytes: Vec<u8>,
}

impl Model for FilesetName {
    ghost Value = { List ℕ };

    ghost view = { λ n. n.bytes.items };
}

impl FilesetName {
    /// A name with the same bytes.
    pub fn copy(&self, alloc: Global) -> Result<FilesetName, OutOfMemory>
        ensures { IfOk result (λ copy. copy ≡ self.now) }
    {
        let bytes = Vec::from_slice(alloc, self.bytes.as_slice())?;
        Ok(FilesetName { bytes })
    }

    pub fn from_vec(bytes: Vec<u8>) -> FilesetName
        ensures { result ≡ bytes.items }
    {
        FilesetName { bytes }
    }

    pub fn into_vec(self) -> Vec<u8>
        ensures { result.items ≡ self }
    {
        self.bytes
    }

    pub fn as_slice(&self) -> &[u8]
        ensures { result.now ≡ self.now }
    {
        self.bytes.as_slice()
    }
}

impl PartialEq for FilesetName {
    ghost eq = { pointwise nat_eq };

    ghost laws = { Prim.search (comparing, rules) };

    fn eq(&self, other: &FilesetName) -> bool {
        self.bytes == other.bytes
    }
}

impl Eq for FilesetName {
    ghost laws = { Prim.search (comparing, rules) };
}

impl PartialOrd for FilesetName {
    ghost partial_cmp = { as_partial_cmp (slice_cmp nat_cmp) };

    ghost laws = { partial_order_from_own_ties
        (Prim.search (comparing, rules))
        (Prim.search (comparing, rules)) };

    fn partial_cmp(&self, other: &FilesetName) -> Option<Ordering> {
        Some(self.cmp(other))
    }
}

impl Ord for FilesetName {
    ghost cmp = { slice_cmp nat_cmp };

    ghost total = { Prim.search (comparing, rules) };

    ghost matches_partial_cmp = { Prim.search (comparing, rules) };

    ghost matches_eq = { Prim.search (comparing, rules) };

    fn cmp(&self, other: &FilesetName) -> Ordering {
        self.bytes.cmp(&other.bytes)
    }
}

/// The name of a file or directory in its directory. Any bytes are allowed here. A script can only
/// give names of 1 to 255 bytes without a slash or a zero byte, and never only one or two dots.
#[derive(Debug, Drop)]
pub struct Name {
    bytes: Vec<u8>,
}

impl Model for Name {
    ghost Value = { List ℕ };

    ghost view = { λ n. n.bytes.items };
}

impl Name {
    /// A name with the same bytes.
    pub fn copy(&self, alloc: Global) -> Result<Name, OutOfMemory>
        ensures { IfOk result (λ copy. copy ≡ self.now) }
    {
        let bytes = Vec::from_slice(alloc, self.bytes.as_slice())?;
        Ok(Name { bytes })
    }

    pub fn from_vec(bytes: Vec<u8>) -> Name
        ensures { result ≡ bytes.items }
    {
        Name { bytes }
    }

    pub fn into_vec(self) -> Vec<u8>
        ensures { result.items ≡ self }
    {
        self.bytes
    }

    pub fn as_slice(&self) -> &[u8]
        ensures { result.now ≡ self.now }
    {
        self.bytes.as_slice()
    }
}

impl PartialEq for Name {
    ghost eq = { pointwise nat_eq };

    ghost laws = { Prim.search (comparing, rules) };

    fn eq(&self, other: &Name) -> bool {
        self.bytes == other.bytes
    }
}

impl Eq for Name {
    ghost laws = { Prim.search (comparing, rules) };
}

impl PartialOrd for Name {
    ghost partial_cmp = { as_partial_cmp (slice_cmp nat_cmp) };

    ghost laws = { partial_order_from_own_ties
        (Prim.search (comparing, rules))
        (Prim.search (comparing, rules)) };

    fn partial_cmp(&self, other: &Name) -> Option<Ordering> {
        Some(self.cmp(other))
    }
}

impl Ord for Name {
    ghost cmp = { slice_cmp nat_cmp };

    ghost total = { Prim.search (comparing, rules) };

    ghost matches_partial_cmp = { Prim.search (comparing, rules) };

    ghost matches_eq = { Prim.search (comparing, rules) };

    fn cmp(&self, other: &Name) -> Ordering {
        self.bytes.cmp(&other.bytes)
    }
}

/// The names to follow from the root of a fileset to a file or directory. A path without names is
/// the root's.
#[derive(Debug, Drop)]
pub struct Path {
    names: Vec<Name>,
}

impl Model for Path {
    ghost Value = { List (List ℕ) };

    ghost view = { λ p. p.names.items };
}

impl Path {
    /// The path of the root.
    pub fn root(alloc: Global) -> Path
        ensures { result ≡ [] }
    {
        Path {
            names: Vec::new(alloc),
        }
    }

    /// The path of the first `count` names.
    pub fn front(&self, alloc: Global, count: usize) -> Result<Path, OutOfMemory>
        requires { count ≤ length self.now }
        ensures { IfOk result (λ path. path ≡ take count self.now) }
    {
        let mut names = Vec::new(alloc);
        for name in &self.names[..count] {
            names.push(name.copy(alloc)?)?;
        }
        Ok(Path { names })
    }

    /// A path with the same names.
    pub fn copy(&self, alloc: Global) -> Result<Path, OutOfMemory>
        ensures { IfOk result (λ copy. copy ≡ self.now) }
    {
        self.front(alloc, self.names.len())
    }

    pub fn from_vec(names: Vec<Name>) -> Path
        ensures { result ≡ names.items }
    {
        Path { names }
    }

    pub fn into_vec(self) -> Vec<Name>
        ensures { result.items ≡ self }
    {
        self.names
    }

    pub fn as_slice(&self) -> &[Name]
        ensures { result.now ≡ self.now }
    {
        self.names.as_slice()
    }
}

impl PartialEq for Path {
    ghost eq = { pointwise (pointwise nat_eq) };

    ghost laws = { Prim.search (comparing, rules) };

    fn eq(&self, other: &Path) -> bool {
        self.names == other.names
    }
}

impl Eq for Path {
    ghost laws = { Prim.search (comparing, rules) };
}

impl PartialOrd for Path {
    ghost partial_cmp = { as_partial_cmp (slice_cmp (slice_cmp nat_cmp)) };

    ghost laws = { partial_order_from_own_ties
        (Prim.search (comparing, rules))
        (lists_ties (slice_cmp nat_cmp) texts_ties) };

    fn partial_cmp(&self, other: &Path) -> Option<Ordering> {
        Some(self.cmp(other))
    }
}

impl Ord for Path {
    ghost cmp = { slice_cmp (slice_cmp nat_cmp) };

    ghost total = { Prim.search (comparing, rules) };

    ghost matches_partial_cmp = { Prim.search (comparing, rules) };

    ghost matches_eq = { lists_ties (slice_cmp nat_cmp) texts_ties };

    fn cmp(&self, other: &Path) -> Ordering {
        self.names.cmp(&other.names)
    }
}

/// Bytes that a command writes or a reply gives.
#[derive(Debug, Drop)]
pub struct Bytes {
    bytes: Vec<u8>,
}

impl Model for Bytes {
    ghost Value = { List ℕ };

    ghost view = { λ b. b.bytes.items };
}

impl Bytes {
    pub fn from_vec(bytes: Vec<u8>) -> Bytes
        ensures { result ≡ bytes.items }
    {
        Bytes { bytes }
    }

    pub fn into_vec(self) -> Vec<u8>
        ensures { result.items ≡ self }
    {
        self.bytes
    }

    pub fn as_slice(&self) -> &[u8]
        ensures { result.now ≡ self.now }
    {
        self.bytes.as_slice()
    }
}

impl PartialEq for Bytes {
    ghost eq = { pointwise nat_eq };

    ghost laws = { Prim.search (comparing, rules) };

    fn eq(&self, other: &Bytes) -> bool {
        self.bytes == other.bytes
    }
}

impl Eq for Bytes {
    ghost laws = { Prim.search (comparing, rules) };
}
