//! Disks: bytes at places, a sync after which a crash loses nothing, and what a crash may leave at each call.
#![tactic(auto)]

mod bytes;
mod counts;
mod device;
mod file;
mod held;
mod kept;
mod memory;
mod plan;
mod replay;
mod synced;

pub use device::{Disk, Failed, LENGTH_LIMIT};
pub use file::{DiskFile, FileAction, FileDisk, FileFault};
pub use kept::Fill;
pub use memory::MemoryDisk;
pub use synced::write_synced;
