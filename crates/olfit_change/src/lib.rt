//! Changes of an index by its writer: a key is put in or taken out, and full nodes are split for it.
#![tactic(auto)]

mod descend;
mod keys;
mod nodes;

pub use descend::{nodes_needed, value_of};
pub use keys::{link_above, put, put_leaf, take};
