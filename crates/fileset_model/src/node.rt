ghost use Rattle.std.specs.Prelude.{◌+◌, ◌≡◌, ◌≤◌, IfOk, OnErr, OnOk, length};
ghost use Rattle.fileset_values.specs.domain_base.declared.limits.TheConstants.{FILE_BYTES};
ghost use Rattle.fileset_model.specs.Apply.{flagged_node, truncated_node, written_node};
ghost use Rattle.fileset_model.specs.Paths.{is_directory};

use crate::page_map::PageMap;
use fileset_values::OutOfMemory;
use std::alloc::Global;

/// A file or directory of a fileset, as a path leads to it.
#[derive(Drop)]
pub enum Node {
    /// A file of `size` bytes. Its absent pages read as zeros.
    File {
        uid: u32,
        gid: u32,
        size: u64,
        logged: bool,
        pages: PageMap,
    },
    Directory {
        uid: u32,
        gid: u32,
    },
}

impl Node {
    pub fn is_directory(&self) -> bool
        ensures { result ≡ is_directory self.now }
    {
        match self {
            Node::File { .. } => false,
            Node::Directory { .. } => true,
        }
    }

    /// Writes the bytes into a file. A directory stays as it is. After an error the node is as
    /// before.
    pub fn write(&mut self, alloc: Global, offset: u64, bytes: &[u8]) -> Result<(), OutOfMemory>
        requires { offset + length bytes.now ≤ FILE_BYTES }
        ensures ok { OnOk result (self.new ≡ written_node offset bytes.now self.old) }
        ensures err { OnErr result (self.new ≡ self.old) }
    {
        match self {
            Node::File { size, pages, .. } => {
                pages.write(alloc, offset, bytes)?;
                *size = (*size).max(offset + bytes.len() as u64);
            }
            Node::Directory { .. } => {}
        }
        Ok(())
    }

    /// Sets the size of a file. A directory stays as it is. After an error the node is as before.
    pub fn truncate(&mut self, alloc: Global, new_size: u64) -> Result<(), OutOfMemory>
        ensures ok { OnOk result (self.new ≡ truncated_node new_size self.old) }
        ensures err { OnErr result (self.new ≡ self.old) }
    {
        match self {
            Node::File { size, pages, .. } => {
                pages.truncate(alloc, new_size)?;
                *size = new_size;
            }
            Node::Directory { .. } => {}
        }
        Ok(())
    }

    /// Sets whether the data of a file is logged. A directory stays as it is.
    pub fn set_logged(&mut self, flag: bool)
        ensures { self.new ≡ flagged_node flag self.old }
    {
        match self {
            Node::File { logged, .. } => *logged = flag,
            Node::Directory { .. } => {}
        }
    }

    /// A node with the same content.
    pub fn copy(&self, alloc: Global) -> Result<Node, OutOfMemory>
        ensures { IfOk result (λ copy. copy ≡ self.now) }
    {
        match self {
            Node::File {
                uid,
                gid,
                size,
                logged,
                pages,
            } => {
                let pages = pages.copy(alloc)?;
                Ok(Node::File {
                    uid: *uid,
                    gid: *gid,
                    size: *size,
                    logged: *logged,
                    pages,
                })
            }
            Node::Directory { uid, gid } => Ok(Node::Directory {
                uid: *uid,
                gid: *gid,
            }),
        }
    }
}
