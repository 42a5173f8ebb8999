//! The way from the root of an index to the node into which a key belongs, and look-ups by it.
//!
//! A reader takes no latch: a node that the writer changes meanwhile is to be read again.
#![tactic(auto)]

mod answers;
mod descend;
mod leaf;
mod looks;
mod seek;

pub use answers::{Look, Looked, Part, Piece};
pub use descend::next_node;
pub use leaf::value_in;
pub use looks::{try_chunk, try_get};
