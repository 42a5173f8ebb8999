// What a statement is answered with.
use crate::Resource;
use row_types::{Items, Row};

/// The reply to a statement.
#[derive(Debug, Drop)]
pub enum Reply {
    /// CREATE, BEGIN, COMMIT and ROLLBACK were done.
    Done,
    /// INSERT, UPDATE and DELETE: how many rows were added, changed or taken away.
    Many(u64),
    /// SELECT: the rows in their order, each with the values that are shown of it.
    Rows(Items<Row>),
    /// CHECKPOINT: the new generation.
    Opened(u64),
    /// Nothing was done, and why.
    Refused(Refusal),
}

/// Why a statement is refused: a variant for each text that is printed, with its numbers.
#[derive(Debug, Drop)]
pub enum Refusal {
    /// The text is no statement; `at` is the first place of the script from which on none continues.
    Syntax { at: u64 },
    /// BEGIN or CHECKPOINT inside a block.
    InBlock,
    /// COMMIT or ROLLBACK outside a block, or any statement behind a BEGIN that was refused.
    NoBlock,
    /// CREATE that doesn't stand at the front of the setup.
    OnlyFirst,

    /// No table has the name.
    NoTable,
    /// No column of the table has the name.
    NoColumn,
    /// A whole number where a text is wanted, or the other way round.
    Kind,
    /// ORDER BY a column that isn't the key.
    Order,
    /// UPDATE of the key.
    KeyFixed,
    /// UPDATE of one column by two assignments.
    Twice,
    /// A row of `given` values for a table of `wanted` columns.
    Count { given: u64, wanted: u64 },
    /// A text of up to `given` bytes for a column of at most `limit`.
    Length { given: u64, limit: u64 },

    /// A row with this key is there.
    Duplicate { key: Items<i64> },
    /// A whole number below -2^63 or above 2^63 - 1.
    Range,

    /// CREATE: a table has the name.
    TableExists,
    /// CREATE: there are `limit` tables.
    Tables { limit: u64 },
    /// CREATE: more than 32 columns.
    Columns { count: u64 },
    /// CREATE: two columns have one name; `place` is the number of the second, from 0.
    SameName { place: u64 },
    /// CREATE: not exactly one column is marked as the key, or one that holds texts.
    NoKey,
    /// CREATE: a row takes more than 4,096 bytes.
    TooWide { bytes: u64 },

    /// Something that the engine has only so much of is used up.
    Resource(Resource),
    /// As many transactions, checkpoints or turns as there may be were made.
    Spent { limit: u64 },
}
