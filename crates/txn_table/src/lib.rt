//! The transactions of the sessions, and the records that each has made.
#![tactic(auto)]

mod buffer;
mod table;

pub use base_types::OutOfMemory;
pub use buffer::{Txn, TxnFull};
pub use table::TxnTable;
