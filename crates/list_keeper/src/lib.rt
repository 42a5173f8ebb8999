//! A keeper of rows in memory: what it holds is what its calls from the log's beginning on have made, and the
//! changes of the last transaction are forced as one batch of the log file.
#![tactic(auto)]

mod blocks;
mod calls;
mod fault;
mod keeper;
mod rows;
mod state;

pub use base_types::OutOfMemory;
pub use fault::LoadFault;
pub use keeper::ListKeeper;
