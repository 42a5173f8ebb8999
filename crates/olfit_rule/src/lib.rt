//! The protocol of an index with one writer and readers that take no latch.
//!
//! A reader loads a node's version, its words, and its version again: where both are the same even number,
//! the words are those that the node had at one moment. The writer makes a version odd before it changes a
//! word of the node, and the next even number afterwards.
#![tactic(auto)]

mod open;
mod plays;
mod steps;
mod view;
mod writer;

pub use open::{Memory, opened};
pub use plays::Noted;
pub use steps::{Read, agree, begin, find_root, meet, peek, read_node, reader};
pub use view::{Change, Hand, Moment, Protocol, View, Words};
pub use writer::{own_node, own_root, rewrite, store_root};
