//! The nodes of an index by their 64 words, seen as a list of entries.
//!
//! A node has in word 0 its version, in words 1 and 2 the halves of its low key, in 3 and 4 those of its
//! right neighbour's low key and in 5 this neighbour's number plus 1 (0 where there is none), in 6 its level
//! times 65,536 plus the number of its entries, and from 7 on places for sixteen entries of three words: the
//! halves of the key, and the value (in a leaf) or the
//! child's number (above the leaves). Words 55 to 63 are 0.
#![tactic(auto)]

mod entries;
mod head;

pub use entries::{child, count, entry, find, insert_at, place_of, remove_at, split};
pub use head::{Link, level, low, made, number, right, set_right};
