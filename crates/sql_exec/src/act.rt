// What UPDATE and DELETE do with each row, and what changes come to.
use key_space::Key;
use row_types::{Items, Row};
use sql_check::{DeletePlan, UpdatePlan};

/// The plan of a statement that changes the rows that it keeps.
#[derive(Clone, Copy)]
pub(crate) enum ChangePlan<'a> {
    Update(&'a UpdatePlan),
    Delete(&'a DeletePlan),
}

/// What is done with a row.
#[derive(Drop)]
pub(crate) enum Act {
    Keep,
    /// Another row of its key takes its place.
    Set(Row),
    Take,
    /// The new row can't be made.
    Refuse,
}

/// What the changes of a statement came to.
#[derive(Drop)]
pub(crate) enum Changes {
    /// So many rows were added, changed or taken away.
    Made(u64),
    /// A row with this key is there.
    Duplicate(Items<i64>),
    /// A whole number leaves the range of numbers.
    OutOfRange,
}

/// How far a piece went, and with how many of its rows something was done.
#[derive(Clone, Copy)]
pub(crate) struct Passed {
    pub upto: Key,
    pub count: u64,
}
