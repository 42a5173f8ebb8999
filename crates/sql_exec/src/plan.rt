// A statement of any kind.
ghost use Rattle.std.specs.Prelude.{◌≡◌, IfErr, IfOk, IsTrue, None, OnOk, Some};
ghost use Rattle.sql_parse.specs.declared.statement.Statement.{Statement};
ghost use Rattle.sql_check.specs.Columns.{def_at};
ghost use Rattle.sql_check.specs.Valued.{IsPlanOf};
ghost use Rattle.plain_model.specs.declared.stop.Stop.TheVariants.{OutOfMemory as NoMemory};
ghost use Rattle.plain_model.specs.Calls.{is_running};
ghost use Rattle.plain_model.specs.Runs.{Since};
ghost use Rattle.sql_exec.specs.Bodies.{MayAs, PlanEnds, RepliesWithoutKeys};
ghost use Rattle.sql_exec.specs.Fits.{FitsTables};
ghost use Rattle.sql_exec.specs.Means.{HasGiver, IsChecked, IsNotSpentReply, LocksBy, Means, Stops, lock_of, mode_of};
ghost use Rattle.sql_exec.specs.Means.{IsOwn};
ghost use Rattle.sql_exec.specs.Plays.{OnTable};
ghost use Rattle.sql_exec.specs.Sends.{PlanSends, Sends};

use crate::act::ChangePlan;
use crate::change::change;
use crate::insert::insert;
use crate::laws::plans_fit;
use crate::select::select;
use crate::totals::{no_rows, total};
use key_space::{LockName, Mode};
use plain_model::{Refusal, Reply, RowCalls, Stop};
use row_types::Items;
use sql_check::Plan;
use std::alloc::Global;

/// The name of a plan's lock. `None`: it is about no key.
fn lock_of(plan: &Plan) -> Option<LockName>
    ensures { result ≡ lock_of plan.now }
{
    let (table, range) = match plan {
        Plan::Insert(p) => (p.table, p.range?),
        Plan::Select(p) => (p.table, p.range?),
        Plan::Totals(p) => (p.table, p.range?),
        Plan::Update(p) => (p.table, p.range?),
        Plan::Delete(p) => (p.table, p.range?),
        Plan::Create => return None,
        Plan::Begin => return None,
        Plan::Commit => return None,
        Plan::Rollback => return None,
    };
    Some(LockName { table, range })
}

/// The mode of a plan's lock.
fn mode_of(plan: &Plan) -> Mode
    ensures { result ≡ mode_of plan.now }
{
    match plan {
        Plan::Insert(_) | Plan::Update(_) | Plan::Delete(_) => Mode::Exclusive,
        Plan::Select(_) | Plan::Totals(_) => Mode::Shared,
        Plan::Create | Plan::Begin | Plan::Commit | Plan::Rollback => Mode::Shared,
    }
}

/// The reply to a plan that is about no key.
fn without_keys(alloc: Global, plan: &Plan) -> Result<Reply, Stop>
    ensures reply { IfOk result (RepliesWithoutKeys plan.now) }
    ensures memory { IfErr result (λ stop. stop ≡ NoMemory) }
{
    match plan {
        Plan::Insert(_) | Plan::Update(_) | Plan::Delete(_) => Ok(Reply::Many(0)),
        Plan::Select(_) => Ok(Reply::Rows(Items::new(alloc))),
        Plan::Totals(p) => Ok(no_rows(alloc, p)?),
        Plan::Create | Plan::Begin | Plan::Commit | Plan::Rollback => Ok(Reply::Done),
    }
}

/// Runs a plan whose lock is held.
fn run_locked<R: RowCalls>(
    alloc: Global,
    rows: &mut R,
    plan: &Plan,
    name: LockName,
) -> Result<Reply, Stop>
    requires running { IsTrue (is_running (R.calls rows.old)) }
    requires plan { FitsTables (R.defs rows.old) plan.now }
    requires name { lock_of plan.now ≡ Some name }
    requires locked { MayAs (mode_of plan.now) (R.calls rows.old) name }
    ensures schema { R.defs rows.new ≡ R.defs rows.old }
    ensures since { Since (R.calls rows.old) (R.calls rows.new) }
    ensures runs { OnOk result (IsTrue (is_running (R.calls rows.new))) }
    ensures end { IfErr result (Stops (R.calls rows.new)) }
    ensures lack { IfOk result (HasGiver (R.calls rows.old) (R.calls rows.new)) }
    ensures spent { IfOk result IsNotSpentReply }
    ensures plain { OnTable (R.defs rows.old) name.table
        (PlanEnds (def_at (R.defs rows.old) name.table) plan.now result)
        (R.calls rows.old) (R.calls rows.new) }
    ensures sent { PlanSends (R.defs rows.old) name.table plan.now (R.calls rows.old) (R.calls rows.new) }
{
    match plan {
        Plan::Insert(p) => insert(alloc, rows, p, name.range),
        Plan::Select(p) => select(alloc, rows, p, name.range),
        Plan::Totals(p) => total(alloc, rows, p, name.range),
        Plan::Update(p) => change(alloc, rows, name.table, ChangePlan::Update(p), name.range),
        Plan::Delete(p) => change(alloc, rows, name.table, ChangePlan::Delete(p), name.range),
        Plan::Create => Ok(Reply::Done),
        Plan::Begin => Ok(Reply::Done),
        Plan::Commit => Ok(Reply::Done),
        Plan::Rollback => Ok(Reply::Done),
    }
}

/// Runs a statement that fits the tables, in a transaction that runs, and returns the reply to it.
///
/// It asks for one lock, on all keys that the statement is about, before anything is looked up. Rows are
/// read and changed piece by piece. A statement that is refused, for a row or since a call had not enough
/// of something, is undone. The error is one that a call gave, or memory ran out; what was done by then
/// isn't undone, and no more is called.
pub fn run_plan<R: RowCalls>(alloc: Global, rows: &mut R, plan: &Plan) -> Result<Reply, Stop>
    requires running { IsTrue (is_running (R.calls rows.old)) }
    requires plan { IsChecked (R.defs rows.old) plan.now }
    ensures schema { R.defs rows.new ≡ R.defs rows.old }
    // Reply and effect, for the statement that the plan is of.
    ensures means { (statement : Statement) → IsPlanOf (R.defs rows.old) statement plan.now
        → Means (R.defs rows.old) statement (R.calls rows.old) result (R.calls rows.new) }
    // The lock is the first call and the only one of its kind; where the range is empty nothing is called.
    ensures lock { LocksBy (lock_of plan.now) (mode_of plan.now) (R.calls rows.old) (R.calls rows.new) }
    // Which rows are put and taken away, refused ones too: of an INSERT those that it lists, whatever the
    // tables are.
    ensures sent { (statement : Statement) → IsPlanOf (R.defs rows.old) statement plan.now
        → Sends (R.defs rows.old) statement (R.calls rows.old) (R.calls rows.new) }
    // A resource that is said to be lacking is what a call gave.
    ensures lack { IfOk result (HasGiver (R.calls rows.old) (R.calls rows.new)) }
    // A stop that something is spent is the error, and never the reply.
    ensures spent { IfOk result IsNotSpentReply }
    // A statement about no key calls nothing, so what comes of it is its own.
    ensures own { lock_of plan.now ≡ None → IsOwn result }
    ensures end { IfErr result (Stops (R.calls rows.new)) }
    ensures runs { OnOk result (IsTrue (is_running (R.calls rows.new))) }
{
    plans_fit();
    let Some(name) = lock_of(plan) else {
        return without_keys(alloc, plan);
    };
    match rows.lock(name, mode_of(plan)) {
        Ok(()) => run_locked(alloc, rows, plan, name),
        Err(Stop::Refused(resource)) => Ok(Reply::Refused(Refusal::Resource(resource))),
        Err(stop) => Err(stop),
    }
}
