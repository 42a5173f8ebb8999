// Blocks as text, and what a try over a keeper and the plain model say of them, as text.
use crate::{Keeper, Kind};
use engine_txn::{Tried, try_block};
use plain_model::{Refusal, Reply, Tables, run_plain};
use row_types::{Block, BlockEnd, Items, PlacedText, Row, Schema, Text, Transaction, Value};
use sql_parse::{Statement, parse};
use std::alloc::Global;
use std::test::Fail;

/// The schema of some CREATE statements.
pub fn schema(alloc: Global, texts: &str) -> Result<Schema, Fail> {
    let mut schema = Schema::empty(alloc);
    for text in texts.split("; ") {
        if text.len() > 1000 {
            return Err(Fail::from("the text is too long"));
        }
        match parse(alloc, text, 0) {
            Ok(Statement::Create(table)) => match schema.add(table) {
                Ok(()) => {}
                Err(_) => return Err(Fail::from("a table is refused")),
            },
            _ => return Err(Fail::from("no table is defined")),
        }
    }
    Ok(schema)
}

/// A text that begins at place 0.
fn placed(alloc: Global, text: &str) -> Result<PlacedText, Fail> {
    if text.len() > 1_000_000 {
        return Err(Fail::from("the text is too long"));
    }
    let kept = Text::new(alloc, text)?;
    Ok(PlacedText::new(0, kept))
}

/// The block of statements that are parted by `; `.
pub fn block(alloc: Global, texts: &str) -> Result<Block, Fail> {
    let Some(rest) = texts.strip_prefix("BEGIN") else {
        return Ok(Block::Alone(placed(alloc, texts)?));
    };
    let mut statements = Vec::new(alloc);
    let mut end = BlockEnd::CutOff;
    for text in rest.split("; ") {
        match text {
            "" => {}
            "COMMIT" => end = BlockEnd::Commit,
            "ROLLBACK" => end = BlockEnd::Rollback,
            text => statements.push(placed(alloc, text)?)?,
        }
    }
    let statements = Items::from_vec(statements);
    Ok(Block::Transaction(Transaction { statements, end }))
}

/// A row as text, without quotes being doubled.
fn row_text(alloc: Global, row: &Row) -> Result<String, Fail> {
    let mut text = String::new(alloc);
    for (i, value) in row.as_slice().iter().enumerate() {
        if i > 0 {
            text.push_str(", ")?;
        }
        match value {
            Value::Int(number) => text.push_str(format!(in alloc; "{number}")?.as_str())?,
            Value::Text(t) => text.push_str(t.as_str())?,
        }
    }
    Ok(text)
}

/// A refusal as text.
fn refusal_text(alloc: Global, refusal: &Refusal) -> Result<String, Fail> {
    Ok(match refusal {
        Refusal::Duplicate { key } => match key.as_slice() {
            [number] => format!(in alloc; "DUPLICATE {number}")?,
            _ => String::from_str(alloc, "DUPLICATE")?,
        },
        other => format!(in alloc; "{other:?}")?,
    })
}

/// A reply as text.
fn reply_text(alloc: Global, reply: &Reply) -> Result<String, Fail> {
    match reply {
        Reply::Done => Ok(String::from_str(alloc, "ok")?),
        Reply::Many(count) => Ok(format!(in alloc; "ok {count}")?),
        Reply::Opened(generation) => Ok(format!(in alloc; "opened {generation}")?),
        Reply::Refused(refusal) => refusal_text(alloc, refusal),
        Reply::Rows(rows) => {
            let mut text = String::new(alloc);
            for row in rows.as_slice() {
                text.push_str(row_text(alloc, row)?.as_str())?;
                text.push_str(" / ")?;
            }
            text.push_str(format!(in alloc; "rows {}", rows.len())?.as_str())?;
            Ok(text)
        }
    }
}

/// Replies as one text.
fn replies_text(alloc: Global, replies: &[Reply]) -> Result<String, Fail> {
    let mut text = String::new(alloc);
    for (i, reply) in replies.iter().enumerate() {
        if i > 0 {
            text.push_str(" / ")?;
        }
        text.push_str(reply_text(alloc, reply)?.as_str())?;
    }
    Ok(text)
}

/// What a try came to, as text.
fn tried_text(alloc: Global, tried: &Tried) -> Result<String, Fail> {
    match tried {
        Tried::Said(replies) => replies_text(alloc, replies.as_slice()),
        Tried::Stopped => Ok(String::from_str(alloc, "stopped")?),
        Tried::OutOfMemory => Ok(String::from_str(alloc, "out of memory")?),
        Tried::Died { holder, age } => Ok(format!(in alloc; "died {holder} {age}")?),
    }
}

/// Tries a block, and returns what it came to as text.
pub fn tried(
    alloc: Global,
    keeper: &mut Keeper,
    texts: &str,
    age: Option<u64>,
) -> Result<String, Fail> {
    let block = block(alloc, texts)?;
    if keeper.is_running() {
        return Err(Fail::from("a transaction runs"));
    }
    tried_text(alloc, &try_block(alloc, keeper, &block, age))
}

/// The rows of a keeper as text.
pub fn kept_text(alloc: Global, keeper: &Keeper) -> Result<String, Fail> {
    let mut text = String::new(alloc);
    for slot in keeper.slots() {
        text.push_str(format!(in alloc; "{}: ", slot.table)?.as_str())?;
        text.push_str(row_text(alloc, &slot.row)?.as_str())?;
        text.push_str(" / ")?;
    }
    Ok(text)
}

/// Adds the rows of a table as text.
fn add_table(alloc: Global, text: &mut String, number: u16, rows: &[Row]) -> Result<(), Fail> {
    for row in rows {
        text.push_str(format!(in alloc; "{number}: ")?.as_str())?;
        text.push_str(row_text(alloc, row)?.as_str())?;
        text.push_str(" / ")?;
    }
    Ok(())
}

/// The rows of tables as text.
pub fn tables_text(alloc: Global, tables: &Tables) -> Result<String, Fail> {
    let mut text = String::new(alloc);
    for number in 0..tables.schema().tables().len() {
        add_table(alloc, &mut text, number as u16, tables.rows(number as u16))?;
    }
    Ok(text)
}

/// The replies to a block by the plain model, and its tables after it.
pub fn plain(alloc: Global, tables: &Tables, texts: &str) -> Result<(String, Tables), Fail> {
    let (replies, after) = run_plain(alloc, tables, &block(alloc, texts)?)?;
    Ok((replies_text(alloc, replies.as_slice())?, after))
}

/// The calls of a keeper, in their order.
pub fn calls_text(alloc: Global, keeper: &Keeper) -> Result<String, Fail> {
    let mut text = String::new(alloc);
    for (i, kind) in keeper.made().iter().enumerate() {
        if i > 0 {
            text.push_str(" ")?;
        }
        text.push_str(word_of(*kind))?;
    }
    Ok(text)
}

/// A kind of call as a word.
fn word_of(kind: Kind) -> &'static str {
    match kind {
        Kind::Begin => "begin",
        Kind::Lock => "lock",
        Kind::Mark => "mark",
        Kind::Get => "get",
        Kind::Chunk => "chunk",
        Kind::Put => "put",
        Kind::Del => "del",
        Kind::UndoTo => "undo_to",
        Kind::Commit => "commit",
        Kind::Undo => "undo",
    }
}
