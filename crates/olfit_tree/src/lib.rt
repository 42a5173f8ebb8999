//! An ordered index from keys to values, with one writer, and
//! readers that look up while it works and take no latch.
#![tactic(auto)]

mod build;
mod index;
mod reader;
mod writer;

pub use index::Index;
pub use olfit_walk::{Look, Looked, Part, Piece};
pub use reader::Reader;
pub use writer::{AddFault, Writer};
