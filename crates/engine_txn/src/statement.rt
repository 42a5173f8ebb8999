// One statement of a block.
ghost use Rattle.std.specs.Prelude.{◌≡◌, IfErr, IfOk, IsTrue, OnOk};
ghost use Rattle.plain_model.specs.declared.stop.Stop.TheVariants.{OutOfMemory as NoMemory};
ghost use Rattle.plain_model.specs.Calls.{is_running};
ghost use Rattle.sql_exec.specs.Means.{Means};
ghost use Rattle.engine_txn.specs.Progress.{AnswersText, ReadAs, RunsOr};
ghost use Rattle.engine_txn.specs.StatementRuns.{RowWork};
ghost use Rattle.engine_txn.specs.TextRuns.{HasCause, StopsSince};

use crate::BlockCalls;
use crate::read::Read;
use plain_model::{Refusal, Reply, Stop, misplaced};
use row_types::PlacedText;
use sql_check::check;
use sql_exec::run_plan;
use sql_parse::{ParseFault, Statement, parse};
use std::alloc::Global;

/// Reads the text of a statement that stands behind BEGIN or not.
pub(crate) fn read(alloc: Global, is_inside: bool, text: &PlacedText) -> Result<Read, Stop>
    ensures read { IfOk result (ReadAs is_inside text.now) }
    ensures memory { IfErr result (λ stop. stop ≡ NoMemory) }
{
    let statement = match parse(alloc, text.text().as_str(), text.base()) {
        Ok(statement) => statement,
        Err(ParseFault::Syntax { at }) => return Ok(Read::Refused(Refusal::Syntax { at })),
        Err(ParseFault::OutOfMemory) => return Err(Stop::OutOfMemory),
    };
    match misplaced(is_inside, &statement) {
        Some(refusal) => Ok(Read::Refused(refusal)),
        None => Ok(Read::Allowed(statement)),
    }
}

/// Checks and runs a statement in the transaction that runs.
pub(crate) fn run_statement<B: BlockCalls>(
    alloc: Global,
    calls: &mut B,
    statement: Statement,
) -> Result<Reply, Stop>
    requires running { IsTrue (is_running (B.calls calls.old)) }
    ensures schema { B.defs calls.new ≡ B.defs calls.old }
    ensures means { Means (B.defs calls.old) statement (B.calls calls.old) result (B.calls calls.new) }
    ensures calls { RunsOr result (B.defs calls.old) statement (B.calls calls.old) (B.calls calls.new) }
    ensures works { RowWork (B.calls calls.old) (B.calls calls.new) }
    ensures cause { IfOk result (HasCause (B.calls calls.old) (B.calls calls.new)) }
    ensures end { IfErr result (StopsSince (B.calls calls.old) (B.calls calls.new)) }
    ensures runs { OnOk result (IsTrue (is_running (B.calls calls.new))) }
{
    match check(alloc, calls.schema(), statement) {
        Ok(plan) => run_plan(alloc, calls, &plan),
        Err(fault) => match Refusal::of_check(fault) {
            Some(refusal) => Ok(Reply::Refused(refusal)),
            None => Err(Stop::OutOfMemory),
        },
    }
}

/// The reply to a text behind BEGIN, in the transaction that runs.
pub(crate) fn answer<B: BlockCalls>(
    alloc: Global,
    calls: &mut B,
    text: &PlacedText,
) -> Result<Reply, Stop>
    requires running { IsTrue (is_running (B.calls calls.old)) }
    ensures schema { B.defs calls.new ≡ B.defs calls.old }
    ensures text { AnswersText (B.defs calls.old) text.now (B.calls calls.old) result (B.calls calls.new) }
    ensures works { RowWork (B.calls calls.old) (B.calls calls.new) }
    ensures cause { IfOk result (HasCause (B.calls calls.old) (B.calls calls.new)) }
    ensures end { IfErr result (StopsSince (B.calls calls.old) (B.calls calls.new)) }
    ensures runs { OnOk result (IsTrue (is_running (B.calls calls.new))) }
{
    match read(alloc, true, text)? {
        Read::Allowed(statement) => run_statement(alloc, calls, statement),
        Read::Refused(refusal) => Ok(Reply::Refused(refusal)),
    }
}
