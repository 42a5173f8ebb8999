// The statements of the language: one variant for each alternative of the grammar, with its parts in order.
use row_types::{Items, Name, Row, TableDef, Value};

/// A statement.
#[derive(Debug, Drop)]
pub enum Statement {
    /// `CREATE TABLE`. The numbers of the columns that are marked PRIMARY KEY count from 0; from the 256th
    /// column on each is reported as 255.
    Create(TableDef),
    Insert(Insert),
    Select(Select),
    Totals(Totals),
    Update(Update),
    Delete(Delete),
    Begin,
    Commit,
    Rollback,
}

/// `INSERT INTO table VALUES rows`.
#[derive(Debug, Drop)]
pub struct Insert {
    pub table: Name,
    pub rows: Items<Row>,
}

/// `SELECT shown FROM table WHERE conditions ORDER BY order LIMIT limit`.
#[derive(Debug, Drop)]
pub struct Select {
    pub shown: Shown,
    pub table: Name,
    pub conditions: Items<Condition>,
    pub order: Option<Order>,
    /// At most so many rows, a number below 2^63.
    pub limit: Option<u64>,
}

/// What of a row is shown.
#[derive(Debug, Drop)]
pub enum Shown {
    /// `*`: all columns.
    All,
    Columns(Items<Name>),
}

/// The column that rows are put in the order of, and whether it falls.
#[derive(Debug, Drop)]
pub struct Order {
    pub column: Name,
    pub is_falling: bool,
}

/// `SELECT totals FROM table WHERE conditions`.
#[derive(Debug, Drop)]
pub struct Totals {
    pub totals: Items<Total>,
    pub table: Name,
    pub conditions: Items<Condition>,
}

/// A number over all rows.
#[derive(Debug, Drop)]
pub enum Total {
    /// `COUNT(*)`: how many there are.
    Count,
    /// `SUM(column)`.
    Sum(Name),
}

/// `UPDATE table SET changes WHERE conditions`.
#[derive(Debug, Drop)]
pub struct Update {
    pub table: Name,
    pub changes: Items<Change>,
    pub conditions: Items<Condition>,
}

/// `column = first further`, where `further` is added and taken away from left to right.
#[derive(Debug, Drop)]
pub struct Change {
    pub column: Name,
    pub first: Term,
    pub further: Items<Step>,
}

/// `+ term` or `- term`.
#[derive(Debug, Drop)]
pub struct Step {
    pub is_minus: bool,
    pub term: Term,
}

/// A value, or what a column has in the old row.
#[derive(Debug, Drop)]
pub enum Term {
    Value(Value),
    Column(Name),
}

/// `DELETE FROM table WHERE conditions`.
#[derive(Debug, Drop)]
pub struct Delete {
    pub table: Name,
    pub conditions: Items<Condition>,
}

/// `column comparison value`.
#[derive(Debug, Drop)]
pub struct Condition {
    pub column: Name,
    pub comparison: Comparison,
    pub value: Value,
}

/// How two values are compared.
#[derive(Clone, Copy, Debug, PartialEq, Eq)]
pub enum Comparison {
    Equal,
    NotEqual,
    Less,
    LessEqual,
    Greater,
    GreaterEqual,
}
