//! Statements run over any keeper of rows, by its calls alone: under one lock, piece by piece, and back to
//! where they began if they are refused.
#![tactic(auto)]

mod act;
mod change;
mod falling;
mod insert;
mod laws;
mod plan;
mod select;
mod settle;
mod totals;
mod values;
mod window;

pub use base_types::OutOfMemory;
pub use plan::run_plan;
