// INSERT: each row is put where there is none of its key.
ghost use Rattle.std.specs.Prelude.{◌≡◌, ◌<◌, [], length, IfErr, IfOk, IsTrue, OnOk, Some};
ghost use Rattle.std.specs.List.{AllByRecursion};
ghost use Rattle.row_types.specs.Keys.{row_key};
ghost use Rattle.row_types.specs.Schema.{columns_at, keys_at};
ghost use Rattle.row_types.specs.Slot.{IsRowOf};
ghost use Rattle.sql_check.specs.Columns.{def_at};
ghost use Rattle.sql_check.specs.declared.plan.Plan.TheVariants.{Insert};
ghost use Rattle.plain_model.specs.Calls.{is_running};
ghost use Rattle.plain_model.specs.Runs.{Since};
ghost use Rattle.sql_exec.specs.Bodies.{CanWrite, InsertsOne, PlanEnds};
ghost use Rattle.sql_exec.specs.Fits.{IsNamed};
ghost use Rattle.sql_exec.specs.Means.{HasGiver, IsNotSpentReply, Stops};
ghost use Rattle.sql_exec.specs.Parts.{Changed};
ghost use Rattle.sql_exec.specs.Plays.{OnTable};
ghost use Rattle.sql_exec.specs.Sends.{SendsOnly};

use crate::act::Changes;
use crate::settle::settle;
use key_space::{Range, key_of};
use plain_model::{Reply, RowCalls, Stop, key_numbers};
use row_types::Row;
use sql_check::InsertPlan;
use std::alloc::Global;

/// Puts a row where there is none of its key. `false`: there is one.
fn insert_one<R: RowCalls>(rows: &mut R, table: u16, row: &Row) -> Result<bool, Stop>
    requires table { table < length (R.defs rows.old) }
    requires row { IsRowOf (columns_at (R.defs rows.old) table) row.now }
    requires can { CanWrite (R.calls rows.old) table (row_key (keys_at (R.defs rows.old) table) row.now)
        (row_key (keys_at (R.defs rows.old) table) row.now) }
    ensures schema { R.defs rows.new ≡ R.defs rows.old }
    ensures calls { InsertsOne table (row_key (keys_at (R.defs rows.old) table) row.now) row.now
        (R.calls rows.old) result (R.calls rows.new) }
{
    let key = key_of(rows.schema(), table, row);
    match rows.get(table, key)? {
        Some(_) => Ok(false),
        None => {
            rows.put(table, row)?;
            Ok(true)
        }
    }
}

/// Adds the rows of an INSERT in their order, up to the first whose key is there.
fn insert_all<R: RowCalls>(
    alloc: Global,
    rows: &mut R,
    p: &InsertPlan,
    range: Range,
) -> Result<Changes, Stop>
    requires table { p.now.table < length (R.defs rows.old) }
    requires named { AllByRecursion (IsNamed (R.defs rows.old) p.now.table (Some range)) p.now.rows }
    requires can { CanWrite (R.calls rows.old) p.now.table range.lo.number range.hi.number }
    ensures schema { R.defs rows.new ≡ R.defs rows.old }
    ensures changed { Changed (R.defs rows.old) p.now.table (Insert p.now) (R.calls rows.old) result
        (R.calls rows.new) }
{
    let list = p.rows.as_slice();
    for row in list {
        if !insert_one(rows, p.table, row)? {
            let marks = rows.schema().table(p.table).keys.as_slice();
            return Ok(Changes::Duplicate(key_numbers(alloc, marks, row)?));
        }
    }
    Ok(Changes::Made(list.len() as u64))
}

/// Runs an INSERT whose lock is held. It is undone where it is refused.
pub(crate) fn insert<R: RowCalls>(
    alloc: Global,
    rows: &mut R,
    p: &InsertPlan,
    range: Range,
) -> Result<Reply, Stop>
    requires table { p.now.table < length (R.defs rows.old) }
    requires named { AllByRecursion (IsNamed (R.defs rows.old) p.now.table (Some range)) p.now.rows }
    requires can { CanWrite (R.calls rows.old) p.now.table range.lo.number range.hi.number }
    ensures schema { R.defs rows.new ≡ R.defs rows.old }
    ensures since { Since (R.calls rows.old) (R.calls rows.new) }
    ensures runs { OnOk result (IsTrue (is_running (R.calls rows.new))) }
    ensures end { IfErr result (Stops (R.calls rows.new)) }
    ensures lack { IfOk result (HasGiver (R.calls rows.old) (R.calls rows.new)) }
    ensures spent { IfOk result IsNotSpentReply }
    ensures plain { OnTable (R.defs rows.old) p.now.table
        (PlanEnds (def_at (R.defs rows.old) p.now.table) (Insert p.now) result)
        (R.calls rows.old) (R.calls rows.new) }
    ensures sent { SendsOnly p.now.rows [] (R.calls rows.old) (R.calls rows.new) }
{
    let mark = rows.mark()?;
    let changes = insert_all(alloc, rows, p, range);
    settle(rows, mark, changes)
}
