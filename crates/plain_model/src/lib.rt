//! What SQL means: tables, statements and blocks over plain lists of rows, and the calls that a keeper of
//! rows serves.
#![tactic(auto)]

mod call_laws;
mod calls;
mod laws;
mod plain;
mod refusal;
mod reply;
mod rows;
mod stop;
mod tables;
mod values;

pub use base_types::OutOfMemory;
pub use call_laws::{
    calls_play_as_operations, marks_begin, since_composes, since_keeps, writes_are_reads,
};
pub use calls::{RowCalls, RowPiece};
pub use laws::{
    kept_rows_lie_in_their_range, means_tables, one_meaning, plan_means_its_statement,
    refused_changes_nothing, rolled_back_changes_nothing, select_changes_nothing, serial_composes,
};
pub use plain::{misplaced, run_plain};
pub use reply::{Refusal, Reply};
pub use rows::key_numbers;
pub use stop::{Resource, Stop};
pub use tables::Tables;
pub use values::allows;
