//! The range locks that sessions hold, and the answers to requests for more.
#![tactic(auto)]

mod order;
mod orders;
mod own;
mod place;
mod places;
mod table;

pub use base_types::OutOfMemory;
pub use key_space::{Key, LockName, Mode, Range, Verdict};
pub use table::LockTable;
