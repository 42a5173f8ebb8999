// SELECT: the rows of a range that pass are collected, piece by piece, until there are enough.
ghost use Rattle.std.specs.Prelude.{◌≡◌, ◌++◌, nat_le, false, IfOk, OnOk, Some};
ghost use Rattle.std.specs.Option.{option_map_or};
ghost use Rattle.key_space.specs.Plays.{Rows};
ghost use Rattle.key_space.specs.Ranges.{IsNotEmpty};
ghost use Rattle.row_types.specs.Schema.{keys_at};
ghost use Rattle.sql_check.specs.Columns.{def_at};
ghost use Rattle.sql_check.specs.declared.plan.Plan.TheVariants.{Select};
ghost use Rattle.sql_exec.specs.Bodies.{CanRead};
ghost use Rattle.sql_exec.specs.Fits.{NamesKept};
ghost use Rattle.sql_exec.specs.Means.{IsNoLackReply, IsNotSpentReply};
ghost use Rattle.sql_exec.specs.Parts.{PlanReplies, Reads};
ghost use Rattle.sql_exec.specs.Selects.{Found, FoundInOrder, shown_of};

use crate::OutOfMemory;
use crate::falling::last_found;
use crate::values::{in_columns, passes_all};
use key_space::Range;
use plain_model::{Reply, RowCalls, Stop};
use row_types::{Items, Row};
use sql_check::SelectPlan;
use std::alloc::Global;

/// Whether there are as many as are wanted.
fn is_enough(wanted: Option<u64>, count: usize) -> bool
    ensures { result ≡ option_map_or (λ limit. nat_le limit count) wanted false }
{
    match wanted {
        Some(limit) => limit <= count as u64,
        None => false,
    }
}

/// Adds what is shown of the rows that pass, as long as more are wanted.
fn collect(
    alloc: Global,
    p: &SelectPlan,
    wanted: Option<u64>,
    piece: Items<Row>,
    found: &mut Vec<Row>,
) -> Result<(), OutOfMemory>
    ensures { (before : Rows) → found.old.items ≡ shown_of p.now wanted before
        → OnOk result (found.new.items ≡ shown_of p.now wanted (before ++ piece)) }
{
    for row in piece.into_vec() {
        let is_wanted = !is_enough(wanted, found.as_slice().len());
        if is_wanted && passes_all(p.conditions.as_slice(), &row) {
            found.push(in_columns(alloc, p.columns.as_slice(), row)?)?;
        }
    }
    Ok(())
}

/// What is shown of the rows of a range that pass, the lowest key first, at most so many as are wanted.
fn found_in<R: RowCalls>(
    alloc: Global,
    rows: &mut R,
    p: &SelectPlan,
    range: Range,
    wanted: Option<u64>,
) -> Result<Vec<Row>, Stop>
    requires range { IsNotEmpty range }
    requires can { CanRead (R.calls rows.old) p.now.table range.lo.number range.hi.number }
    ensures schema { R.defs rows.new ≡ R.defs rows.old }
    ensures read { Reads (R.defs rows.old) p.now.table
        (λ found. Found (keys_at (R.defs rows.old) p.now.table) range p.now wanted found.items)
        (R.calls rows.old) result (R.calls rows.new) }
{
    let mut found = Vec::new(alloc);
    let mut rest = range;
    loop {
        let piece = rows.chunk(p.table, rest)?;
        collect(alloc, p, wanted, piece.rows, &mut found)?;
        let Some(more) = rest.behind(piece.upto) else {
            return Ok(found);
        };
        if is_enough(wanted, found.as_slice().len()) {
            return Ok(found);
        }
        rest = more;
    }
}

/// What is shown of the rows of a range that pass, in the order that is asked for, at most `LIMIT` of them.
fn shown_in<R: RowCalls>(
    alloc: Global,
    rows: &mut R,
    p: &SelectPlan,
    range: Range,
) -> Result<Vec<Row>, Stop>
    requires range { IsNotEmpty range }
    requires can { CanRead (R.calls rows.old) p.now.table range.lo.number range.hi.number }
    ensures schema { R.defs rows.new ≡ R.defs rows.old }
    ensures read { Reads (R.defs rows.old) p.now.table
        (λ found. FoundInOrder (keys_at (R.defs rows.old) p.now.table) range p.now found.items)
        (R.calls rows.old) result (R.calls rows.new) }
{
    if !p.is_falling {
        return found_in(alloc, rows, p, range, p.limit);
    }
    match p.limit {
        Some(limit) => last_found(alloc, rows, p, range, limit),
        None => {
            let mut found = found_in(alloc, rows, p, range, None)?;
            found.reverse();
            Ok(found)
        }
    }
}

/// The reply to a SELECT whose lock is held.
pub(crate) fn select<R: RowCalls>(
    alloc: Global,
    rows: &mut R,
    p: &SelectPlan,
    range: Range,
) -> Result<Reply, Stop>
    requires range { IsNotEmpty range }
    requires can { CanRead (R.calls rows.old) p.now.table range.lo.number range.hi.number }
    requires kept { NamesKept (R.defs rows.old) p.now.table (Some range) p.now.conditions }
    ensures schema { R.defs rows.new ≡ R.defs rows.old }
    ensures read { Reads (R.defs rows.old) p.now.table
        (PlanReplies (def_at (R.defs rows.old) p.now.table) (Select p.now))
        (R.calls rows.old) result (R.calls rows.new) }
    ensures own { IfOk result IsNoLackReply }
    ensures spent { IfOk result IsNotSpentReply }
{
    let found = shown_in(alloc, rows, p, range)?;
    Ok(Reply::Rows(Items::from_vec(found)))
}
