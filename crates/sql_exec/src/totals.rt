// SELECT of totals: sums over the rows of a range that pass, piece by piece. No row is kept.
ghost use Rattle.std.specs.Prelude.{◌≡◌, ◌<◌, ◌++◌, ◌+ℤ◌, pos, [], map, length, false, IfOk};
ghost use Rattle.std.specs.Prelude.{IfSome, None, Some, true};
ghost use Rattle.std.specs.List.{Any};
ghost use Rattle.key_space.specs.Plays.{Rows};
ghost use Rattle.key_space.specs.Ranges.{IsNotEmpty};
ghost use Rattle.sql_check.specs.Columns.{def_at};
ghost use Rattle.sql_check.specs.declared.plan.Plan.TheVariants.{Totals};
ghost use Rattle.plain_model.specs.Meaning.{totals_reply};
ghost use Rattle.sql_exec.specs.Bodies.{CanRead};
ghost use Rattle.sql_exec.specs.Fits.{IsOfInts, NamesKept};
ghost use Rattle.sql_exec.specs.Means.{IsNoLackReply, IsNotSpentReply};
ghost use Rattle.sql_exec.specs.Parts.{PlanReplies, Reads};
ghost use Rattle.sql_exec.specs.Selects.{part_of, sums_of, with_row_added, IsOver, GoesOver};

use crate::OutOfMemory;
use crate::values::passes_all;
use key_space::Range;
use plain_model::{Refusal, Reply, RowCalls, Stop};
use row_types::{Items, Row, Value, int_at};
use sql_check::{TotalPlan, TotalsPlan};
use std::alloc::Global;

/// What a row adds to a total.
fn part_of(row: &Row, total: TotalPlan) -> i128
    ensures { result ≡ part_of row.now total }
{
    match total {
        TotalPlan::Count => 1,
        TotalPlan::Sum(column) => i128::from(int_at(row, column as usize)),
    }
}

/// A zero for each total.
fn zeros(alloc: Global, totals: &[TotalPlan]) -> Result<Vec<i128>, OutOfMemory>
    ensures { IfOk result (λ sums. sums.items ≡ map (λ total. pos 0) totals.now) }
{
    let mut sums = Vec::with_capacity(alloc, totals.len())?;
    for _ in totals {
        sums.push(0)?;
    }
    Ok(sums)
}

/// A sum with one more number. `None`: it leaves 128 bits.
fn with_part(sum: i128, part: i128) -> Option<i128>
    ensures sum { IfSome result (λ next. next ≡ sum +ℤ part) }
    ensures over { result ≡ None → IsOver (sum +ℤ part) }
{
    sum.checked_add(part)
}

/// Adds a row to the sums. `false`: one of them leaves 128 bits.
fn add_row(totals: &[TotalPlan], row: &Row, sums: &mut [i128]) -> bool
    requires { length sums.old ≡ length totals.now }
    ensures added { result ≡ true → sums.new ≡ with_row_added totals.now row.now sums.old }
    ensures len { length sums.new ≡ length sums.old }
    ensures over { result ≡ false → Any IsOver (with_row_added totals.now row.now sums.old) }
{
    for (i, total) in totals.iter().enumerate() {
        match with_part(sums[i], part_of(row, *total)) {
            Some(sum) => sums[i] = sum,
            None => return false,
        }
    }
    true
}

/// Adds the rows that pass to the sums. `false`: one of them leaves 128 bits.
fn add_rows(p: &TotalsPlan, piece: &[Row], sums: &mut [i128]) -> bool
    requires { length sums.old ≡ length p.now.totals }
    ensures added { result ≡ true → (before : Rows) → sums.old ≡ sums_of p.now before
        → sums.new ≡ sums_of p.now (before ++ piece.now) }
    ensures len { length sums.new ≡ length sums.old }
    ensures over { result ≡ false → (before : Rows) → sums.old ≡ sums_of p.now before
        → GoesOver p.now (before ++ piece.now) }
{
    for row in piece {
        if passes_all(p.conditions.as_slice(), row) && !add_row(p.totals.as_slice(), row, sums) {
            return false;
        }
    }
    true
}

/// The row of totals. RANGE: one of them leaves 64 bits.
fn totals_reply(alloc: Global, sums: &[i128]) -> Result<Reply, OutOfMemory>
    ensures { IfOk result (λ reply. reply ≡ totals_reply sums.now) }
{
    let mut values = Vec::with_capacity(alloc, sums.len())?;
    for sum in sums {
        match i64::try_from(*sum) {
            Ok(number) => values.push(Value::Int(number))?,
            Err(_) => return Ok(Reply::Refused(Refusal::Range)),
        }
    }
    let mut rows = Vec::with_capacity(alloc, 1)?;
    rows.push(Items::from_vec(values))?;
    Ok(Reply::Rows(Items::from_vec(rows)))
}

/// The reply to a SELECT of totals over no rows.
pub(crate) fn no_rows(alloc: Global, p: &TotalsPlan) -> Result<Reply, OutOfMemory>
    ensures { IfOk result (λ reply. reply ≡ totals_reply (sums_of p.now [])) }
{
    let sums = zeros(alloc, p.totals.as_slice())?;
    totals_reply(alloc, &sums)
}

/// The reply to a SELECT of totals whose lock is held.
pub(crate) fn total<R: RowCalls>(
    alloc: Global,
    rows: &mut R,
    p: &TotalsPlan,
    range: Range,
) -> Result<Reply, Stop>
    requires range { IsNotEmpty range }
    requires can { CanRead (R.calls rows.old) p.now.table range.lo.number range.hi.number }
    requires kept { NamesKept (R.defs rows.old) p.now.table (Some range) p.now.conditions }
    requires ints { IsOfInts (Some range) }
    requires table { p.now.table < length (R.defs rows.old) }
    ensures schema { R.defs rows.new ≡ R.defs rows.old }
    ensures read { Reads (R.defs rows.old) p.now.table
        (PlanReplies (def_at (R.defs rows.old) p.now.table) (Totals p.now))
        (R.calls rows.old) result (R.calls rows.new) }
    ensures own { IfOk result IsNoLackReply }
    ensures spent { IfOk result IsNotSpentReply }
{
    let mut sums = zeros(alloc, p.totals.as_slice())?;
    let mut rest = range;
    loop {
        let piece = rows.chunk(p.table, rest)?;
        if !add_rows(p, piece.rows.as_slice(), &mut sums) {
            return Ok(Reply::Refused(Refusal::Range));
        }
        let Some(more) = rest.behind(piece.upto) else {
            return Ok(totals_reply(alloc, &sums)?);
        };
        rest = more;
    }
}
