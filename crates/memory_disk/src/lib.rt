//! Racks of volumes in memory, which fail where they are told to and tell what a stop may leave,
//! and racks of volumes in files of the operating system.
#![tactic(auto)]

mod counts;
mod draws;
mod fuse;
mod kept;
mod marks;
mod memory;
mod rack;
mod volume;
mod volumes;

pub use fuse::FuseRack;
pub use memory::MemoryRack;
pub use rack::FileRack;
