// Statements with tables and columns as numbers.
use key_space::Range;
use row_types::{Items, Row, Text};
use sql_parse::Comparison;

/// A statement that fits the tables: its table and columns as their numbers from 0, and for a statement on
/// a table the range of keys in which all rows lie that it looks up, adds, changes or takes away. Where the
/// range is `None`, there are none.
#[derive(Debug, Drop)]
pub enum Plan {
    Insert(InsertPlan),
    Select(SelectPlan),
    Totals(TotalsPlan),
    Update(UpdatePlan),
    Delete(DeletePlan),
    Create,
    Begin,
    Commit,
    Rollback,
}

/// INSERT. The range goes from the least to the greatest key of the rows.
#[derive(Debug, Drop)]
pub struct InsertPlan {
    pub table: u16,
    pub range: Option<Range>,
    /// They fit the table.
    pub rows: Items<Row>,
}

/// SELECT of columns.
#[derive(Debug, Drop)]
pub struct SelectPlan {
    pub table: u16,
    pub range: Option<Range>,
    pub columns: Items<u8>,
    pub conditions: Items<Test>,
    /// Whether the greatest key comes first.
    pub is_falling: bool,
    /// At most so many rows.
    pub limit: Option<u64>,
}

/// SELECT of numbers over all rows.
#[derive(Debug, Drop)]
pub struct TotalsPlan {
    pub table: u16,
    pub range: Option<Range>,
    pub totals: Items<TotalPlan>,
    pub conditions: Items<Test>,
}

/// UPDATE.
#[derive(Debug, Drop)]
pub struct UpdatePlan {
    pub table: u16,
    pub range: Option<Range>,
    pub changes: Items<Assignment>,
    pub conditions: Items<Test>,
}

/// DELETE.
#[derive(Debug, Drop)]
pub struct DeletePlan {
    pub table: u16,
    pub range: Option<Range>,
    pub conditions: Items<Test>,
}

/// A condition on a column: what it has is compared with a value of its kind.
#[derive(Debug, Drop)]
pub enum Test {
    Int {
        column: u8,
        comparison: Comparison,
        value: i64,
    },
    Text {
        column: u8,
        comparison: Comparison,
        value: Text,
    },
}

/// A number over all rows.
#[derive(Clone, Copy, Debug, PartialEq, Eq, Drop)]
pub enum TotalPlan {
    Count,
    /// The sum of a column of whole numbers.
    Sum(u8),
}

/// What a column becomes.
#[derive(Debug, Drop)]
pub enum Assignment {
    /// A whole number: the first term, to which the further ones are added, or from which they are taken
    /// away.
    Int {
        column: u8,
        first: IntTerm,
        further: Items<IntStep>,
    },
    Text {
        column: u8,
        text: TextTerm,
    },
}

/// A whole number: this one, or that of a column in the old row.
#[derive(Clone, Copy, Debug, PartialEq, Eq, Drop)]
pub enum IntTerm {
    Number(i64),
    Column(u8),
}

/// `+ term` or `- term`.
#[derive(Clone, Copy, Debug, PartialEq, Eq, Drop)]
pub struct IntStep {
    pub is_minus: bool,
    pub term: IntTerm,
}

/// A text: this one, or that of a column in the old row.
#[derive(Debug, Drop)]
pub enum TextTerm {
    Text(Text),
    Column(u8),
}
