//! One file of a database as the engine sees it, in memory or of the system, and the files of a store by
//! their names.
#![tactic(auto)]

mod disk;
mod file;
mod history;
mod memory;
mod store;
mod tear;

pub use base_types::{Failed, OutOfMemory};
pub use disk::Disk;
pub use file::FileDisk;
pub use memory::MemDisk;
pub use store::{FileName, LaneDisks, Store};
