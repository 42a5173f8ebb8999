//! What a try of a block makes of the tables and the log of a keeper in memory, as laws of its calls.
#![tactic(auto)]

mod laws;

pub use laws::tries_mean_their_blocks;
