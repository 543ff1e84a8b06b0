ghost use Rattle.std.specs.Prelude.{◌&&◌, ◌==◌, count_by, ◌++◌, ◌+◌, ◌^◌, ◌≡◌, ◌≤◌, IfOk, IsTrue, None, OnErr, OnOk, false as NotThere, filter, length, map as map_each, not, option_copied, sum_by, ℕ};
ghost use Rattle.std.specs.List.{list_any};
ghost use Rattle.std.specs.Option.{option_map_or};
ghost use Rattle.std.specs.Ordering.{eq_by_cmp, nat_cmp};
ghost use Rattle.std.specs.FinMap.{get};
ghost use Rattle.std.specs.FinMap.Entries.{where_key};
ghost use Rattle.fileset_values.specs.domain_base.declared.limits.TheConstants.{FILE_BYTES};
ghost use Rattle.fileset_model.specs.Apply.{empty_fileset, flagged_node, is_clone, is_clone_of, linked, moved_path, renamed, original_of, truncated_node, with_change, with_node, without, written_node};
ghost use Rattle.fileset_values.specs.Orders.{owner_cmp, path_cmp};
ghost use Rattle.fileset_model.specs.Paths.{is_directory as is_directory_node, is_out_of_sync, name_below as name_of_row, node_at as node_under, names_one, paths_to, rows_of, same_path};
ghost use Rattle.fileset_model.specs.Usage.{blocks_of, counts_for, is_owners, is_unlimited, limits_of, used_blocks, used_files, with_limits};
ghost use Rattle.fileset_model.specs.declared.fileset.Role.TheVariants.{CloneOf as CloneRole};
ghost use Rattle.std.specs.FinMap as map;

use crate::node::Node;
use fileset_values::limits::BLOCKS_PER_PAGE;
use fileset_values::{FilesetName, Name, NameItem, OutOfMemory, Owner, Path};
use sorted_sets::entries::{find, place_of, put, take_away};
use std::alloc::Global;
use std::marker::Model;

/// The most files and blocks of 512 bytes that an owner may have. A limit of 0 means no limit.
#[derive(Clone, Copy, Debug, PartialEq, Eq)]
pub struct Limits {
    pub files: u64,
    pub blocks: u64,
}

impl Limits {
    /// Whether these limits bind nothing.
    fn is_unlimited(&self) -> bool
        ensures { result ≡ is_unlimited self.now }
    {
        self.files == 0 && self.blocks == 0
    }
}

/// Files and directories, and blocks of 512 bytes.
#[derive(Clone, Copy, Debug, PartialEq, Eq)]
pub struct Usage {
    pub files: u64,
    pub blocks: u64,
}

/// The files and directories of a fileset, with the limits of their owners.
#[derive(Drop)]
pub struct FilesetTree {
    pub(crate) paths: Vec<(Path, u64)>,
    pub(crate) nodes: Vec<(u64, Node)>,
    pub(crate) limits: Vec<(Owner, Limits)>,
}

impl Model for FilesetTree {
    ghost use Rattle.fileset_model.specs.Fileset.{Fileset, fileset_code};

    ghost Value = { Fileset };

    ghost coded = { fileset_code };

    ghost use Rattle.std.specs.Prelude.{◌≡◌, IsTrue};
    ghost use Rattle.std.specs.Ordering.{nat_cmp};
    ghost use Rattle.std.specs.FinMap as map;
    ghost use Rattle.fileset_values.specs.Orders.{owner_cmp, path_cmp};

    ghost view = { λ f. record {
      paths = map.from_sorted f.paths.items;
      nodes = map.from_sorted f.nodes.items;
      limits = map.from_sorted f.limits.items;
    } };

    ghost invariant = { λ f.
        IsTrue (map.is_sorted path_cmp f.paths.items)
        × IsTrue (map.is_sorted nat_cmp f.nodes.items)
        × IsTrue (map.is_sorted owner_cmp f.limits.items) };
}

impl FilesetTree {
    /// An empty root of this number, owned by uid 0 and gid 0, and no limits.
    pub fn empty(alloc: Global, root: u64) -> Result<FilesetTree, OutOfMemory>
        ensures { IfOk result (λ tree. tree ≡ empty_fileset root) }
    {
        let mut paths = Vec::new(alloc);
        paths.push((Path::root(alloc), root))?;
        let mut nodes = Vec::new(alloc);
        nodes.push((root, Node::Directory { uid: 0, gid: 0 }))?;
        Ok(FilesetTree {
            paths,
            nodes,
            limits: Vec::new(alloc),
        })
    }

    /// The number of what stands at a path.
    pub fn number_at(&self, path: &Path) -> Option<u64>
        ensures { result ≡ map.get self.now.paths path.now }
    {
        find(&self.paths, path).copied()
    }

    /// The node that has a number.
    pub fn node(&self, number: u64) -> Option<&Node>
        ensures { option_copied result ≡ map.get self.now.nodes number }
    {
        find(&self.nodes, &number)
    }

    /// The node at a path.
    pub fn node_at(&self, path: &Path) -> Option<&Node>
        ensures { option_copied result ≡ node_under self.now path.now }
    {
        match self.number_at(path) {
            Some(number) => self.node(number),
            None => None,
        }
    }

    /// A number that is at least `least` and above all numbers in use.
    pub(crate) fn number_above(&self, least: u64) -> Result<u64, OutOfMemory>
        ensures least { IfOk result (λ number. least ≤ number) }
        ensures above { IfOk result (λ number.
            (k : ℕ) → number ≤ k → map.get self.now.nodes k ≡ None) }
    {
        let mut number = least;
        for (used, _) in &self.nodes {
            number = number.max(number_after(*used)?);
        }
        Ok(number)
    }

    /// Adds a node at a path. After an error the tree is as before.
    pub fn add(&mut self, path: Path, number: u64, node: Node) -> Result<(), OutOfMemory>
        ensures ok { OnOk result (self.new ≡ with_node path number node self.old) }
        ensures err { OnErr result (self.new ≡ self.old) }
    {
        self.paths.reserve(1)?;
        put(&mut self.nodes, number, node)?;
        put(&mut self.paths, path, number)?;
        Ok(())
    }

    /// Writes the bytes into the file at a path. After an error the tree is as before.
    pub fn write(
        &mut self,
        alloc: Global,
        path: &Path,
        offset: u64,
        bytes: &[u8],
    ) -> Result<(), OutOfMemory>
        requires { offset + length bytes.now ≤ FILE_BYTES }
        ensures ok { OnOk result
            (self.new ≡ with_change path.now (written_node offset bytes.now) self.old) }
        ensures err { OnErr result (self.new ≡ self.old) }
    {
        let Some(number) = self.number_at(path) else {
            return Ok(());
        };
        let Ok(place) = place_of(&self.nodes, &number) else {
            return Ok(());
        };
        self.nodes[place].1.write(alloc, offset, bytes)?;
        Ok(())
    }

    /// Sets the size of the file at a path. After an error the tree is as before.
    pub fn truncate(&mut self, alloc: Global, path: &Path, size: u64) -> Result<(), OutOfMemory>
        ensures ok { OnOk result (self.new ≡ with_change path.now (truncated_node size) self.old) }
        ensures err { OnErr result (self.new ≡ self.old) }
    {
        let Some(number) = self.number_at(path) else {
            return Ok(());
        };
        let Ok(place) = place_of(&self.nodes, &number) else {
            return Ok(());
        };
        self.nodes[place].1.truncate(alloc, size)?;
        Ok(())
    }

    /// Sets whether the data of the file at a path is logged.
    pub fn set_logged(&mut self, path: &Path, logged: bool)
        ensures { self.new ≡ with_change path.now (flagged_node logged) self.old }
    {
        let Some(number) = self.number_at(path) else {
            return;
        };
        let Ok(place) = place_of(&self.nodes, &number) else {
            return;
        };
        self.nodes[place].1.set_logged(logged);
    }

    /// How many paths lead to a number.
    pub fn paths_to(&self, number: u64) -> usize
        ensures { result ≡ paths_to self.now number }
    {
        count_paths(&self.paths, number)
    }

    /// Whether two paths are the same, or lead to one number.
    pub fn names_one(&self, path: &Path, other: &Path) -> bool
        ensures { result ≡ names_one self.now path.now other.now }
    {
        if *path == *other {
            return true;
        }
        match self.number_at(path) {
            Some(number) => match self.number_at(other) {
                Some(n) => n == number,
                None => false,
            },
            None => false,
        }
    }

    /// Makes a second path lead to what stands at the first. After an error the tree is as before.
    pub fn link(&mut self, path: &Path, to: Path) -> Result<(), OutOfMemory>
        ensures ok { OnOk result (self.new ≡ linked path.now to self.old) }
        ensures err { OnErr result (self.new ≡ self.old) }
    {
        let Some(number) = self.number_at(path) else {
            return Ok(());
        };
        put(&mut self.paths, to, number)?;
        Ok(())
    }

    /// Removes a path. What stands there goes with its last path.
    pub fn remove(&mut self, path: &Path)
        ensures { self.new ≡ without path.now self.old }
    {
        let Some(number) = self.number_at(path) else {
            return;
        };
        let stays = is_named_elsewhere(&self.paths, path, number);
        take_away(&mut self.paths, path);
        if !stays {
            take_away(&mut self.nodes, &number);
        }
    }

    /// Moves what stands at a path, and all below it, to another path, in place of what stands
    /// there. If both paths lead to one number, nothing changes. After an error the tree is as
    /// before.
    pub fn rename(&mut self, alloc: Global, from: &Path, to: &Path) -> Result<(), OutOfMemory>
        ensures ok { OnOk result (self.new ≡ renamed from.now to.now self.old) }
        ensures err { OnErr result (self.new ≡ self.old) }
    {
        if self.names_one(from, to) {
            return Ok(());
        }
        let paths = moved_paths(alloc, &self.paths, from, to)?;
        self.remove(to);
        self.set_paths(paths);
        Ok(())
    }

    /// Exchanges all paths.
    fn set_paths(&mut self, paths: Vec<(Path, u64)>)
        requires { IsTrue (map.is_sorted path_cmp paths.items) }
        ensures { self.new ≡ record self.old { paths = map.from_sorted paths.items } }
    {
        self.paths = paths;
    }

    /// Whether a number is a directory's.
    fn is_directory(&self, number: u64) -> bool
        ensures { result ≡ option_map_or is_directory_node (get self.now.nodes number) NotThere }
    {
        match self.node(number) {
            Some(node) => node.is_directory(),
            None => false,
        }
    }

    /// The rows of the directory at a path, in byte order of their names.
    pub fn rows(&self, alloc: Global, parent: &Path) -> Result<Vec<NameItem>, OutOfMemory>
        ensures { IfOk result (λ rows. rows.items ≡ rows_of self.now parent.now) }
    {
        let mut rows = Vec::new(alloc);
        for (path, number) in &self.paths {
            if let Some(name) = name_below(parent, path) {
                let row = NameItem {
                    name: name.copy(alloc)?,
                    directory: self.is_directory(*number),
                };
                rows.push(row)?;
            }
        }
        Ok(rows)
    }

    /// What an owner uses.
    pub fn usage(&self, alloc: Global, who: Owner) -> Result<Usage, OutOfMemory>
        ensures files { IfOk result (λ usage. usage.files ≡ used_files self.now who) }
        ensures blocks { IfOk result (λ usage. usage.blocks ≡ used_blocks self.now who) }
    {
        let root = self.number_at(&Path::root(alloc));
        let usage = usage_of(&self.nodes, who, root)?;
        Ok(usage)
    }

    /// An owner's limits.
    pub fn limits(&self, who: Owner) -> Limits
        ensures { result ≡ limits_of self.now who }
    {
        match find(&self.limits, &who) {
            Some(limits) => *limits,
            None => Limits {
                files: 0,
                blocks: 0,
            },
        }
    }

    /// Sets an owner's limits. An owner whose limits bind nothing has no entry. After an error the
    /// tree is as before.
    pub fn limit(&mut self, who: Owner, limits: Limits) -> Result<(), OutOfMemory>
        ensures ok { OnOk result
            (self.new ≡ record self.old { limits = with_limits self.old.limits who limits }) }
        ensures err { OnErr result (self.new ≡ self.old) }
    {
        if limits.is_unlimited() {
            take_away(&mut self.limits, &who);
            return Ok(());
        }
        put(&mut self.limits, who, limits)?;
        Ok(())
    }

    /// A clone of the fileset with this name and tree. It has no limits, and no number of it lost
    /// its frozen content.
    pub fn clone_of(&self, alloc: Global, name: &FilesetName) -> Result<FilesetSlot, OutOfMemory>
        ensures { IfOk result (λ slot. slot ≡ record {
          tree = record self.now { limits = map.empty };
          role = CloneRole name.now map.empty;
        }) }
    {
        let tree = self.frozen(alloc)?;
        let role = Role::CloneOf {
            original: name.copy(alloc)?,
            out: NumberSet::new(alloc),
        };
        Ok(FilesetSlot { tree, role })
    }

    /// A tree with the same files and directories, and without limits.
    fn frozen(&self, alloc: Global) -> Result<FilesetTree, OutOfMemory>
        ensures { IfOk result (λ tree. tree ≡ record self.now { limits = map.empty }) }
    {
        let paths = copied_paths(alloc, &self.paths)?;
        let nodes = copied_nodes(alloc, &self.nodes)?;
        Ok(FilesetTree {
            paths,
            nodes,
            limits: Vec::new(alloc),
        })
    }
}

/// The next number. Fails as out of memory if there is none.
fn number_after(number: u64) -> Result<u64, OutOfMemory>
    ensures ok { IfOk result (λ next. next ≡ number + 1) }
    ensures err { OnErr result (2 ^ 64 ≤ number + 1) }
{
    number.checked_add(1).ok_or(OutOfMemory)
}

/// How many paths lead to a number.
fn count_paths(paths: &[(Path, u64)], number: u64) -> usize
    ensures { result ≡ count_by (λ e. e.1 == number) paths.now }
{
    let mut count = 0;
    for (_, used) in paths {
        if *used == number {
            count += 1;
        }
    }
    count
}

/// Whether another path leads to a number as well.
fn is_named_elsewhere(paths: &[(Path, u64)], path: &Path, number: u64) -> bool
    ensures { result ≡ list_any (λ e. e.1 == number && not (same_path e.0 path.now)) paths.now }
{
    for (other, used) in paths {
        if *used == number && *other != *path {
            return true;
        }
    }
    false
}

/// The paths without `to`. In each that begins with `from`, that front is exchanged for `to`. If
/// two paths become one, the number of the first stays.
fn moved_paths(
    alloc: Global,
    paths: &[(Path, u64)],
    from: &Path,
    to: &Path,
) -> Result<Vec<(Path, u64)>, OutOfMemory>
    ensures { IfOk result (λ v. v.items ≡ map.entries (map.from_entries {R = path_cmp}
        (map_each
        (λ e. (moved_path from.now to.now e.0, e.1))
        (where_key path_cmp (λ path. not (eq_by_cmp path_cmp to.now path)) paths.now)))) }
{
    let mut moved = Vec::new(alloc);
    for i in (0..paths.len()).rev() {
        let (path, number) = &paths[i];
        if *path != *to {
            put(&mut moved, exchanged(alloc, path, from, to)?, *number)?;
        }
    }
    Ok(moved)
}

/// A path that begins with `from`, with that front exchanged for `to`. Any other path stays as it
/// is.
fn exchanged(alloc: Global, path: &Path, from: &Path, to: &Path) -> Result<Path, OutOfMemory>
    ensures { IfOk result (λ exchanged. exchanged ≡ moved_path from.now to.now path.now) }
{
    if !path.as_slice().starts_with(from.as_slice()) {
        let copy = path.copy(alloc)?;
        return Ok(copy);
    }
    let exchanged = below(alloc, to, &path.as_slice()[from.as_slice().len()..])?;
    Ok(exchanged)
}

/// The path of these names from another path on.
fn below(alloc: Global, front: &Path, names: &[Name]) -> Result<Path, OutOfMemory>
    ensures { IfOk result (λ path. path ≡ front.now ++ names.now) }
{
    let mut all = front.copy(alloc)?.into_vec();
    for name in names {
        all.push(name.copy(alloc)?)?;
    }
    Ok(Path::from_vec(all))
}

/// The last name of a path that lies directly below the directory at `parent`.
fn name_below<'a>(parent: &Path, path: &'a Path) -> Option<&'a Name>
    ensures { option_copied result ≡ name_of_row parent.now path.now }
{
    let names = path.as_slice();
    let front = parent.as_slice();
    if !names.starts_with(front) {
        return None;
    }
    match &names[front.len()..] {
        [name] => Some(name),
        _ => None,
    }
}

/// Whether a node is an owner's.
fn is_owners_node(who: Owner, node: &Node) -> bool
    ensures { result ≡ is_owners who node.now }
{
    let (uid, gid) = match node {
        Node::File { uid, gid, .. } | Node::Directory { uid, gid } => (*uid, *gid),
    };
    match who {
        Owner::User(id) => id == uid,
        Owner::Group(id) => id == gid,
        Owner::Fileset => true,
    }
}

/// Whether an entry counts for an owner: it is the owner's, and not the root.
fn counts(who: Owner, root: Option<u64>, number: u64, node: &Node) -> bool
    ensures { result ≡ counts_for who root (number, node.now) }
{
    is_owners_node(who, node)
        && match root {
            Some(root) => root != number,
            None => true,
        }
}

/// The blocks of a node. A number that does not fit is reported as out of memory.
fn node_blocks(node: &Node) -> Result<u64, OutOfMemory>
    ensures ok { IfOk result (λ blocks. blocks ≡ blocks_of node.now) }
    ensures err { OnErr result (2 ^ 64 ≤ blocks_of node.now) }
{
    match node {
        Node::File { pages, .. } => (pages.len() as u64)
            .checked_mul(u64::from(BLOCKS_PER_PAGE))
            .ok_or(OutOfMemory),
        Node::Directory { .. } => Ok(0),
    }
}

/// What an owner uses of these nodes. The root does not count.
fn usage_of(nodes: &[(u64, Node)], who: Owner, root: Option<u64>) -> Result<Usage, OutOfMemory>
    ensures files { IfOk result (λ usage.
        usage.files ≡ length (filter (counts_for who root) nodes.now)) }
    ensures blocks { IfOk result (λ usage.
        usage.blocks ≡ sum_by (λ e. blocks_of e.1) (filter (counts_for who root) nodes.now)) }
{
    let mut usage = Usage {
        files: 0,
        blocks: 0,
    };
    for (number, node) in nodes {
        if counts(who, root, *number, node) {
            let blocks = node_blocks(node)?;
            usage = Usage {
                files: usage.files.checked_add(1).ok_or(OutOfMemory)?,
                blocks: usage.blocks.checked_add(blocks).ok_or(OutOfMemory)?,
            };
        }
    }
    Ok(usage)
}

fn copied_paths(alloc: Global, paths: &[(Path, u64)]) -> Result<Vec<(Path, u64)>, OutOfMemory>
    ensures { IfOk result (λ v. v.items ≡ paths.now) }
{
    let mut copies = Vec::new(alloc);
    for (path, number) in paths {
        copies.push((path.copy(alloc)?, *number))?;
    }
    Ok(copies)
}

fn copied_nodes(alloc: Global, nodes: &[(u64, Node)]) -> Result<Vec<(u64, Node)>, OutOfMemory>
    ensures { IfOk result (λ v. v.items ≡ nodes.now) }
{
    let mut copies = Vec::new(alloc);
    for (number, node) in nodes {
        copies.push((*number, node.copy(alloc)?))?;
    }
    Ok(copies)
}

/// Numbers of files and directories.
#[derive(Drop)]
pub struct NumberSet {
    pub(crate) numbers: Vec<(u64, ())>,
}

impl Model for NumberSet {
    ghost use Rattle.std.specs.Prelude.{◌≡◌, IsTrue};
    ghost use Rattle.std.specs.Ordering.{nat_cmp};
    ghost use Rattle.std.specs.Coded.{coded_ℕ};
    ghost use Rattle.std.specs.FinMap as map;
    ghost use Rattle.std.specs.FinSet as set;

    ghost Value = { set.FinSet nat_cmp };

    ghost coded = { set.code coded_ℕ };

    ghost view = { λ s. map.from_sorted s.numbers.items };

    ghost invariant = { λ s. IsTrue (map.is_sorted nat_cmp s.numbers.items) };
}

impl NumberSet {
    /// No numbers.
    pub fn new(alloc: Global) -> NumberSet
        ensures { result ≡ map.empty }
    {
        NumberSet {
            numbers: Vec::new(alloc),
        }
    }

    /// Adds a number. After an error the numbers are as before.
    pub fn insert(&mut self, number: u64) -> Result<(), OutOfMemory>
        ensures ok { OnOk result (self.new ≡ map.insert self.old number tt) }
        ensures err { OnErr result (self.new ≡ self.old) }
    {
        put(&mut self.numbers, number, ())?;
        Ok(())
    }

    pub fn contains(&self, number: u64) -> bool
        ensures { result ≡ map.contains_key self.now number }
    {
        match find(&self.numbers, &number) {
            Some(_) => true,
            None => false,
        }
    }
}

/// Whether a fileset is an original, or the clone of one.
#[derive(Drop)]
pub enum Role {
    Original,
    /// A frozen copy. The numbers in `out` lost their frozen content for want of a free page.
    CloneOf {
        original: FilesetName,
        out: NumberSet,
    },
}

impl Role {
    pub fn is_clone(&self) -> bool
        ensures { result ≡ is_clone self.now }
    {
        match self {
            Role::Original => false,
            Role::CloneOf { .. } => true,
        }
    }

    /// Whether it is that of a clone of the fileset with this name.
    pub fn is_clone_of(&self, name: &FilesetName) -> bool
        ensures { result ≡ is_clone_of name.now self.now }
    {
        match self {
            Role::Original => false,
            Role::CloneOf { original, .. } => name == original,
        }
    }

    /// The original of a clone.
    pub fn original(&self, alloc: Global) -> Result<Option<FilesetName>, OutOfMemory>
        ensures { IfOk result (λ original. original ≡ original_of self.now) }
    {
        match self {
            Role::Original => Ok(None),
            Role::CloneOf { original, .. } => {
                let original = original.copy(alloc)?;
                Ok(Some(original))
            }
        }
    }

    /// Whether a number lost its frozen content. No number of an original does.
    pub fn is_out_of_sync(&self, number: u64) -> bool
        ensures { result ≡ is_out_of_sync self.now number }
    {
        match self {
            Role::Original => false,
            Role::CloneOf { out, .. } => out.contains(number),
        }
    }
}

/// A fileset of a domain.
#[derive(Drop)]
pub struct FilesetSlot {
    pub tree: FilesetTree,
    pub role: Role,
}
