//! The statements of SQL: every text is read as its one statement,
//! or refused at the first place from which on none continues.
#![tactic(auto)]

mod changes;
mod conditions;
mod creates;
mod fault;
mod laws;
mod literal;
mod parser;
mod parsing;
mod selects;
mod statement;
mod values;

pub use base_types::OutOfMemory;
pub use fault::ParseFault;
pub use laws::{literal_text, one_answer, one_statement};
pub use parsing::parse;
pub use statement::{
    Change, Comparison, Condition, Delete, Insert, Order, Select, Shown, Statement, Step, Term,
    Total, Totals, Update,
};
