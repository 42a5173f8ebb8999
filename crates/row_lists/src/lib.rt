//! The rows of a table in memory, in the order of their keys, each change of which can be taken back without
//! memory.
#![tactic(auto)]

mod row_list;

pub use base_types::OutOfMemory;
pub use row_list::{Before, Piece, RowList};
