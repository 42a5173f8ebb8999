//! Rows of the tables of a schema in memory, with the changes of one transaction, which can be taken back
//! without memory and forced as one batch of a log file.
#![tactic(auto)]

mod calls;
mod load;
mod rows;
mod undo;

pub use base_types::OutOfMemory;
pub use rows::TxnRows;
