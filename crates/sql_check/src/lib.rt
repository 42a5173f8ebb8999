//! Statements checked against the tables: the plan of each that fits, or the first name, kind or count that
//! is wrong.
#![tactic(auto)]

mod checking;
mod columns;
mod fault;
mod laws;
mod misfits;
mod plan;
mod planning;
mod range;

pub use base_types::OutOfMemory;
pub use checking::{check, misfit, table_number};
pub use columns::column_number;
pub use fault::CheckFault;
pub use laws::{
    out_of_memory_is_no_misfit, range_is_what_conditions_allow, rows_lie_in_their_range,
};
pub use plan::{
    Assignment, DeletePlan, InsertPlan, IntStep, IntTerm, Plan, SelectPlan, Test, TextTerm,
    TotalPlan, TotalsPlan, UpdatePlan,
};
pub use range::row_key;
