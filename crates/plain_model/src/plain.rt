// The meaning of blocks, run over plain lists of rows: slow, and what every other way of running them is
// compared with.
ghost use Rattle.std.specs.Prelude.{◌≡◌, ◌≤◌, [], length, IfOk};
ghost use Rattle.std.specs.List.{AllByRecursion};
ghost use Rattle.plain_model.specs.Meaning.{acts, means};
ghost use Rattle.plain_model.specs.Blocks.{misplaced, IsPlain, PlainAnswer, RunsSoFar, TransactionAnswers};
ghost use Rattle.plain_model.specs.Blocks.{block_means};

use crate::rows::{copied, deletes, inserts, selects, totals, updates};
use crate::{OutOfMemory, Refusal, Reply, Tables};
use row_types::{Block, BlockEnd, Columns, PlacedText, Row, TableDef, Transaction, TryCopy};
use sql_check::{misfit, table_number};
use sql_parse::{ParseFault, Statement, parse};
use std::alloc::Global;

/// What a statement means on its table: the reply, and the rows after it.
fn acts(
    alloc: Global,
    def: &TableDef,
    statement: &Statement,
    rows: &[Row],
) -> Result<(Reply, Vec<Row>), OutOfMemory>
    requires { length def.now.columns ≤ 32 }
    ensures { IfOk result (λ done. (done.0, done.1.items) ≡ acts def.now statement.now rows.now) }
{
    let columns = &Columns::new(def.columns.as_slice());
    match statement {
        Statement::Insert(s) => inserts(alloc, def, s.rows.as_slice(), rows),
        Statement::Select(s) => Ok((selects(alloc, columns, s, rows)?, copied(alloc, rows)?)),
        Statement::Totals(s) => Ok((totals(alloc, columns, s, rows)?, copied(alloc, rows)?)),
        Statement::Update(s) => updates(alloc, columns, s, rows),
        Statement::Delete(s) => deletes(alloc, columns, s, rows),
        Statement::Create(_) => Ok((Reply::Done, copied(alloc, rows)?)),
        Statement::Begin => Ok((Reply::Done, copied(alloc, rows)?)),
        Statement::Commit => Ok((Reply::Done, copied(alloc, rows)?)),
        Statement::Rollback => Ok((Reply::Done, copied(alloc, rows)?)),
    }
}

/// What a statement means: the reply, and the tables after it.
fn means(
    alloc: Global,
    tables: &Tables,
    statement: &Statement,
) -> Result<(Reply, Tables), OutOfMemory>
    ensures { IfOk result (λ done. (done.0, done.1) ≡ means tables.now statement.now) }
{
    if let Some(fault) = misfit(tables.schema(), statement) {
        return match Refusal::of_check(fault) {
            Some(refusal) => Ok((Reply::Refused(refusal), tables.copy()?)),
            None => Err(OutOfMemory),
        };
    }
    match table_number(tables.schema(), statement) {
        None => Ok((Reply::Done, tables.copy()?)),
        Some(table) => {
            let def = tables.schema().table(table);
            let (reply, rows) = acts(alloc, def, statement, tables.rows(table))?;
            Ok((reply, tables.with_rows(table, rows)?))
        }
    }
}

/// Why a statement isn't allowed where it stands, in a block behind BEGIN or outside of one. `None`: it is.
///
/// CREATE TABLE is refused in both places with [`Refusal::OnlyFirst`]. Behind BEGIN a BEGIN, COMMIT or
/// ROLLBACK is refused with [`Refusal::InBlock`]; outside BEGIN is allowed, and a COMMIT or ROLLBACK is
/// refused with [`Refusal::NoBlock`]. All other statements are allowed in both places.
pub fn misplaced(is_inside: bool, statement: &Statement) -> Option<Refusal>
    ensures { result ≡ misplaced is_inside statement.now }
{
    match statement {
        Statement::Create(_) => Some(Refusal::OnlyFirst),
        Statement::Begin => {
            if is_inside {
                return Some(Refusal::InBlock);
            }
            None
        }
        Statement::Commit | Statement::Rollback => Some(if is_inside {
            Refusal::InBlock
        } else {
            Refusal::NoBlock
        }),
        Statement::Insert(_) => None,
        Statement::Select(_) => None,
        Statement::Totals(_) => None,
        Statement::Update(_) => None,
        Statement::Delete(_) => None,
    }
}

/// The answer to a text, and the tables after it.
fn answer(
    alloc: Global,
    tables: &Tables,
    is_inside: bool,
    text: &PlacedText,
) -> Result<(Reply, Tables), OutOfMemory>
    ensures { IfOk result (λ done. PlainAnswer is_inside text.now tables.now done.0 done.1) }
{
    let statement = match parse(alloc, text.text().as_str(), text.base()) {
        Ok(statement) => statement,
        Err(ParseFault::Syntax { at }) => {
            return Ok((Reply::Refused(Refusal::Syntax { at }), tables.copy()?));
        }
        Err(ParseFault::OutOfMemory) => return Err(OutOfMemory),
    };
    match misplaced(is_inside, &statement) {
        Some(refusal) => Ok((Reply::Refused(refusal), tables.copy()?)),
        None => means(alloc, tables, &statement),
    }
}

/// Runs the statements behind BEGIN, and replies to it and to them.
fn run_inside(
    alloc: Global,
    tables: &Tables,
    t: &Transaction,
) -> Result<(Vec<Reply>, Tables), OutOfMemory>
    ensures so_far { IfOk
        result (λ done. RunsSoFar t.now.statements [] t.now.end tables.now done.0.items done.1) }
    ensures plain { IfOk result (λ done. AllByRecursion IsPlain done.0.items) }
{
    let mut replies = Vec::new(alloc);
    replies.push(Reply::Done)?;
    let mut now = tables.copy()?;
    let statements = t.statements.as_slice();
    for text in statements {
        let (reply, next) = answer(alloc, &now, true, text)?;
        replies.push(reply)?;
        now = next;
    }
    Ok((replies, now))
}

/// Runs BEGIN, what follows it, and its end.
fn run_transaction(
    alloc: Global,
    tables: &Tables,
    t: &Transaction,
) -> Result<(Vec<Reply>, Tables), OutOfMemory>
    ensures means { IfOk result (λ done.
        TransactionAnswers t.now.statements t.now.end tables.now done.0.items done.1) }
    ensures plain { IfOk result (λ done. AllByRecursion IsPlain done.0.items) }
{
    let (mut replies, now) = run_inside(alloc, tables, t)?;
    match t.end {
        BlockEnd::Commit => {
            replies.push(Reply::Done)?;
            Ok((replies, now))
        }
        BlockEnd::Rollback => {
            replies.push(Reply::Done)?;
            Ok((replies, tables.copy()?))
        }
        BlockEnd::CutOff => Ok((replies, tables.copy()?)),
    }
}

/// The replies to a block, and the tables after it, where there is enough of everything.
///
/// It goes by what statements mean and by nothing else, over copies of the lists of rows. So it is slow,
/// and tests compare with it what the engine does.
pub fn run_plain(
    alloc: Global,
    tables: &Tables,
    block: &Block,
) -> Result<(Vec<Reply>, Tables), OutOfMemory>
    ensures means { IfOk result (λ done. block_means block.now tables.now done.0.items done.1) }
    ensures plain { IfOk result (λ done. AllByRecursion IsPlain done.0.items) }
{
    match block {
        Block::Alone(text) => {
            let (reply, after) = answer(alloc, tables, false, text)?;
            let mut replies = Vec::with_capacity(alloc, 1)?;
            replies.push(reply)?;
            Ok((replies, after))
        }
        Block::Transaction(t) => run_transaction(alloc, tables, t),
    }
}
