//! The calls that a keeper of rows was sent, as a value that takes no memory: what a keeper tells of itself.
//! By them alone it is said which tables and which batches of a log the keeper has.
#![tactic(auto)]

mod laws;
mod log;

pub use laws::{
    batches_make_the_tables, keys_are_of_numbers, loads_add_a_batch,
    standing_changes_make_the_tables,
};
pub use log::{CallLog, Note};
