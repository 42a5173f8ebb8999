//! The writer of a log lane: it closes, empties and extends the lane's two files, so that a crash at any
//! moment leaves each whole.
#![tactic(auto)]

mod fault;
mod frame;
mod steps;
mod writer;

pub use disk_core::{Disk, Failed, FileName, LaneDisks};
pub use fault::LaneFault;
pub use writer::{LaneWriter, Stage};
