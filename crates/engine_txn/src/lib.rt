//! Blocks run over any keeper of rows: each try of a block is at most one transaction.
#![tactic(auto)]

mod answer;
mod begun;
mod block;
mod calls;
mod ended;
mod read;
mod statement;
mod tried;

pub use answer::Answer;
pub use block::try_block;
pub use calls::BlockCalls;
pub use tried::Tried;
