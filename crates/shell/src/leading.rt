// The leading statements of a setup.
ghost use Rattle.std.specs.Prelude.{◌≡◌, [], List, IfOk, MatchOption};
ghost use Rattle.row_types.specs.declared.block.Block.TheVariants.{Alone};
ghost use Rattle.row_types.specs.Tables.{Tables, schema_of};
ghost use Rattle.shell.specs.Leading.{AreLeading, IsDone, IsLead, created_by};

use base_types::OutOfMemory;
use plain_model::{Refusal, Reply};
use row_types::{Block, Items, PlacedText, Schema, TableDef};
use sql_parse::{ParseFault, Statement, one_answer, parse};
use std::alloc::Global;

/// A leading statement.
#[derive(Drop)]
pub(crate) enum Lead {
    /// It asks for a table.
    Create(TableDef),
    /// It is no statement from this place on.
    NoStatement(u64),
}

/// The table that a statement asks for, where it is a CREATE.
fn created(statement: Statement) -> Option<TableDef>
    ensures { result ≡ created_by statement }
{
    match statement {
        Statement::Create(def) => Some(def),
        Statement::Insert(_) => None,
        Statement::Select(_) => None,
        Statement::Totals(_) => None,
        Statement::Update(_) => None,
        Statement::Delete(_) => None,
        Statement::Begin => None,
        Statement::Commit => None,
        Statement::Rollback => None,
    }
}

/// The leading statement that a block is, where it is one.
fn lead_of(alloc: Global, block: &Block) -> Result<Option<Lead>, OutOfMemory>
    ensures { IfOk result (λ found. MatchOption found
        ((lead : Lead) → ¬ (IsLead block.now lead)) (λ lead. IsLead block.now lead)) }
{
    match block {
        Block::Alone(text) => text_lead(alloc, text),
        Block::Transaction(_) => Ok(None),
    }
}

/// The leading statement that a text is, where it is one.
fn text_lead(alloc: Global, text: &PlacedText) -> Result<Option<Lead>, OutOfMemory>
    ensures { IfOk result (λ found. MatchOption found
        ((lead : Lead) → ¬ (IsLead (Alone text.now) lead)) (λ lead. IsLead (Alone text.now) lead)) }
{
    one_answer();
    match parse(alloc, text.text().as_str(), text.base()) {
        Ok(statement) => Ok(created(statement).map(Lead::Create)),
        Err(ParseFault::Syntax { at }) => Ok(Some(Lead::NoStatement(at))),
        Err(ParseFault::OutOfMemory) => Err(OutOfMemory),
    }
}

/// Adds a table to a schema, and replies to that.
fn create(schema: &mut Schema, def: TableDef) -> Result<Reply, OutOfMemory>
    ensures { IfOk result (λ reply. IsDone (Lead.Create def) schema.old reply schema.new) }
{
    match schema.add(def) {
        Ok(()) => Ok(Reply::Done),
        Err(fault) => match Refusal::of_schema(fault) {
            Some(refusal) => Ok(Reply::Refused(refusal)),
            None => Err(OutOfMemory),
        },
    }
}

/// Does what a leading statement says, and replies to it.
fn reply_to(schema: &mut Schema, lead: Lead) -> Result<Reply, OutOfMemory>
    ensures { IfOk result (λ reply. IsDone lead schema.old reply schema.new) }
{
    match lead {
        Lead::Create(def) => create(schema, def),
        Lead::NoStatement(at) => Ok(Reply::Refused(Refusal::Syntax { at })),
    }
}

/// The tables that the leading statements of a setup's blocks ask for and get, and the replies to these.
pub(crate) fn read_leading(
    alloc: Global,
    blocks: &[Block],
) -> Result<(Schema, Items<Reply>), OutOfMemory>
    ensures { IfOk result (λ found. (tables : Tables) × AreLeading blocks.now [] found.1 tables
        × (schema_of tables ≡ found.0)) }
{
    let mut schema = Schema::empty(alloc);
    let mut replies = Items::new(alloc);
    for block in blocks {
        let Some(lead) = lead_of(alloc, block)? else {
            return Ok((schema, replies));
        };
        let reply = reply_to(&mut schema, lead)?;
        replies.push(reply)?;
    }
    Ok((schema, replies))
}
