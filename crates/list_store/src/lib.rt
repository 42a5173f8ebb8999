//! Tables in memory and a log file that has what was committed: it is opened, blocks are run one after the
//! other, and each that changes rows is on the disk before it is answered.
#![tactic(auto)]

mod fault;
mod laws;
mod reading;
mod store;

pub use base_types::OutOfMemory;
pub use fault::OpenFault;
pub use laws::{one_beginning, one_reading, some_reading};
pub use store::ListStore;
