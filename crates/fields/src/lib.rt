//! Numbers in bytes, XOR of bytes, and where two lists of bytes differ.
#![tactic(auto)]

mod differ;
mod numbers;
mod xor;

pub use differ::{a_diff_span_is_the_shortest, diff_span};
pub use numbers::{get_u16, get_u32, get_u64, put_u16, put_u32, put_u64};
pub use xor::xor_into;
