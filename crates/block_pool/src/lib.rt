//! Blocks of 4,096 bytes out of one region, given out and taken back, and runs of neighbouring ones.
#![tactic(auto)]

mod block;
mod pool;
mod run;

pub use base_types::OutOfMemory;
pub use block::Block;
pub use pool::{Pool, PoolFull};
pub use run::Run;
