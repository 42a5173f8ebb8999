// UPDATE and DELETE: the rows of a range are changed or taken away, piece by piece.
ghost use Rattle.std.specs.Prelude.{◌≡◌, ◌≤◌, IfErr, IfOk, IfSome, IsTrue, OnOk, Some};
ghost use Rattle.std.specs.List.{AllByRecursion};
ghost use Rattle.row_types.specs.Keys.{row_key};
ghost use Rattle.row_types.specs.Schema.{keys_at};
ghost use Rattle.key_space.specs.Ranges.{IsNotEmpty};
ghost use Rattle.sql_check.specs.Columns.{def_at};
ghost use Rattle.plain_model.specs.CallRows.{IsRowAt};
ghost use Rattle.plain_model.specs.Calls.{is_running};
ghost use Rattle.plain_model.specs.Runs.{Since};
ghost use Rattle.sql_exec.specs.Acts.{act_of, as_plan, delete_act, update_act};
ghost use Rattle.sql_exec.specs.Bodies.{CanWrite, OnlyForward, PlanEnds};
ghost use Rattle.sql_exec.specs.Means.{HasGiver, IsNotSpentReply, IsOwnOrBy, Stops};
ghost use Rattle.sql_exec.specs.Fits.{NamesKept, tests_of};
ghost use Rattle.sql_exec.specs.Parts.{Changed};
ghost use Rattle.sql_exec.specs.Pieces.{ActsAll, ActsOne, ActsPiece, IsOfTable};
ghost use Rattle.sql_exec.specs.Plays.{OnTable};
ghost use Rattle.sql_exec.specs.Sends.{ChangeSends};

use crate::OutOfMemory;
use crate::act::{Act, ChangePlan, Changes, Passed};
use crate::settle::settle;
use crate::values::{passes_all, planned_row};
use key_space::{Range, key_of};
use plain_model::{Reply, RowCalls, Stop};
use row_types::Row;
use sql_check::{DeletePlan, UpdatePlan};
use std::alloc::Global;

/// What a plan does with a row that is there.
fn act_of(alloc: Global, plan: ChangePlan<'_>, row: &Row) -> Result<Act, OutOfMemory>
    ensures { IfOk result (λ act. act ≡ act_of plan.entry row.now) }
{
    match plan {
        ChangePlan::Update(p) => update_act(alloc, p, row),
        ChangePlan::Delete(p) => Ok(delete_act(p, row)),
    }
}

fn update_act(alloc: Global, p: &UpdatePlan, row: &Row) -> Result<Act, OutOfMemory>
    ensures { IfOk result (λ act. act ≡ update_act p.now row.now) }
{
    if !passes_all(p.conditions.as_slice(), row) {
        return Ok(Act::Keep);
    }
    match planned_row(alloc, p.changes.as_slice(), row)? {
        Some(new) => Ok(Act::Set(new)),
        None => Ok(Act::Refuse),
    }
}

fn delete_act(p: &DeletePlan, row: &Row) -> Act
    ensures { result ≡ delete_act p.now row.now }
{
    if passes_all(p.conditions.as_slice(), row) {
        return Act::Take;
    }
    Act::Keep
}

/// Does to a row of the table what the plan says, and returns whether that is anything. `None`: the new row
/// can't be made.
fn act<R: RowCalls>(
    alloc: Global,
    rows: &mut R,
    table: u16,
    plan: ChangePlan<'_>,
    row: &Row,
) -> Result<Option<bool>, Stop>
    requires plan { IsOfTable (R.defs rows.old) table plan }
    requires row { IsRowAt (R.defs rows.old) table (row_key (keys_at (R.defs rows.old) table) row.now)
        (row_key (keys_at (R.defs rows.old) table) row.now) row.now }
    requires can { CanWrite (R.calls rows.old) table (row_key (keys_at (R.defs rows.old) table) row.now)
        (row_key (keys_at (R.defs rows.old) table) row.now) }
    ensures schema { R.defs rows.new ≡ R.defs rows.old }
    ensures calls { ActsOne (keys_at (R.defs rows.old) table) table (act_of plan.entry row.now) row.now
        (R.calls rows.old) result (R.calls rows.new) }
{
    match act_of(alloc, plan, row)? {
        Act::Keep => Ok(Some(false)),
        Act::Set(new) => {
            rows.put(table, &new)?;
            Ok(Some(true))
        }
        Act::Take => {
            let key = key_of(rows.schema(), table, row);
            rows.del(table, key)?;
            Ok(Some(true))
        }
        Act::Refuse => Ok(None),
    }
}

/// Does to each row of a piece what the plan says, and returns with how many that was anything. `None`: a
/// new row can't be made.
fn act_all<R: RowCalls>(
    alloc: Global,
    rows: &mut R,
    table: u16,
    plan: ChangePlan<'_>,
    piece: &[Row],
    range: Range,
) -> Result<Option<u64>, Stop>
    requires plan { IsOfTable (R.defs rows.old) table plan }
    requires rows { AllByRecursion
        (IsRowAt (R.defs rows.old) table range.lo.number range.hi.number) piece.now }
    requires can { CanWrite (R.calls rows.old) table range.lo.number range.hi.number }
    ensures schema { R.defs rows.new ≡ R.defs rows.old }
    ensures forward { OnlyForward (R.calls rows.old) (R.calls rows.new) }
    ensures can { OnOk result (CanWrite (R.calls rows.new) table range.lo.number range.hi.number) }
    ensures end { IfErr result (IsOwnOrBy (R.calls rows.new)) }
    ensures acts { ActsAll (R.defs rows.old) table plan.entry piece.now (R.calls rows.old) result
        (R.calls rows.new) }
{
    let mut count = 0;
    for row in piece {
        let Some(is_done) = act(alloc, rows, table, plan, row)? else {
            return Ok(None);
        };
        if is_done {
            count += 1;
        }
    }
    Ok(Some(count))
}

/// The same for the rows from `range.lo` on, as far as one piece goes.
fn act_piece<R: RowCalls>(
    alloc: Global,
    rows: &mut R,
    table: u16,
    plan: ChangePlan<'_>,
    range: Range,
) -> Result<Option<Passed>, Stop>
    requires range { IsNotEmpty range }
    requires plan { IsOfTable (R.defs rows.old) table plan }
    requires can { CanWrite (R.calls rows.old) table range.lo.number range.hi.number }
    ensures schema { R.defs rows.new ≡ R.defs rows.old }
    ensures forward { OnlyForward (R.calls rows.old) (R.calls rows.new) }
    ensures can { OnOk result (CanWrite (R.calls rows.new) table range.lo.number range.hi.number) }
    ensures end { IfErr result (IsOwnOrBy (R.calls rows.new)) }
    ensures low { IfOk result (λ passed. IfSome passed (λ passed. range.lo.number ≤ passed.upto.number)) }
    ensures high { IfOk result (λ passed. IfSome passed (λ passed. passed.upto.number ≤ range.hi.number)) }
    ensures acts { ActsPiece (R.defs rows.old) table plan.entry range (R.calls rows.old) result
        (R.calls rows.new) }
{
    let piece = rows.chunk(table, range)?;
    let reached = Range {
        lo: range.lo,
        hi: piece.upto,
    };
    match act_all(alloc, rows, table, plan, piece.rows.as_slice(), reached)? {
        Some(count) => Ok(Some(Passed {
            upto: piece.upto,
            count,
        })),
        None => Ok(None),
    }
}

/// Does to each row of a range what the plan says.
fn change_all<R: RowCalls>(
    alloc: Global,
    rows: &mut R,
    table: u16,
    plan: ChangePlan<'_>,
    range: Range,
) -> Result<Changes, Stop>
    requires range { IsNotEmpty range }
    requires plan { IsOfTable (R.defs rows.old) table plan }
    requires kept { NamesKept (R.defs rows.old) table (Some range) (tests_of (as_plan plan)) }
    requires can { CanWrite (R.calls rows.old) table range.lo.number range.hi.number }
    ensures schema { R.defs rows.new ≡ R.defs rows.old }
    ensures changed { Changed (R.defs rows.old) table (as_plan plan.entry) (R.calls rows.old) result
        (R.calls rows.new) }
{
    let mut rest = range;
    let mut count: u64 = 0;
    loop {
        let Some(passed) = act_piece(alloc, rows, table, plan, rest)? else {
            return Ok(Changes::OutOfRange);
        };
        count = count.saturating_add(passed.count);
        let Some(more) = rest.behind(passed.upto) else {
            return Ok(Changes::Made(count));
        };
        rest = more;
    }
}

/// Runs an UPDATE or a DELETE whose lock is held. It is undone where it is refused.
pub(crate) fn change<R: RowCalls>(
    alloc: Global,
    rows: &mut R,
    table: u16,
    plan: ChangePlan<'_>,
    range: Range,
) -> Result<Reply, Stop>
    requires range { IsNotEmpty range }
    requires plan { IsOfTable (R.defs rows.old) table plan }
    requires kept { NamesKept (R.defs rows.old) table (Some range) (tests_of (as_plan plan)) }
    requires can { CanWrite (R.calls rows.old) table range.lo.number range.hi.number }
    ensures schema { R.defs rows.new ≡ R.defs rows.old }
    ensures since { Since (R.calls rows.old) (R.calls rows.new) }
    ensures runs { OnOk result (IsTrue (is_running (R.calls rows.new))) }
    ensures end { IfErr result (Stops (R.calls rows.new)) }
    ensures lack { IfOk result (HasGiver (R.calls rows.old) (R.calls rows.new)) }
    ensures spent { IfOk result IsNotSpentReply }
    ensures plain { OnTable (R.defs rows.old) table
        (PlanEnds (def_at (R.defs rows.old) table) (as_plan plan.entry) result)
        (R.calls rows.old) (R.calls rows.new) }
    ensures sent { ChangeSends (R.defs rows.old) table (act_of plan.entry) (R.calls rows.old) (R.calls rows.new) }
{
    let mark = rows.mark()?;
    let changes = change_all(alloc, rows, table, plan, range);
    settle(rows, mark, changes)
}
