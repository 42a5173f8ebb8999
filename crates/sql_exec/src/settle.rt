// How a statement that changes rows ends.
ghost use Rattle.std.specs.Prelude.{◌≡◌, IsTrue};
ghost use Rattle.plain_model.specs.Calls.{is_running, ops_of, IsMark};
ghost use Rattle.sql_exec.specs.Bodies.{IsUndone, IsSettled, NeedsUndo};

use crate::act::Changes;
use plain_model::{Refusal, Reply, RowCalls, Stop};

/// The reply to a statement whose changes ended so. They are undone where it is refused.
pub(crate) fn settle<R: RowCalls>(
    rows: &mut R,
    mark: u64,
    changes: Result<Changes, Stop>,
) -> Result<Reply, Stop>
    requires running { NeedsUndo changes → IsTrue (is_running (R.calls rows.old)) }
    requires mark { IsMark (ops_of (R.calls rows.old)) mark }
    ensures schema { R.defs rows.new ≡ R.defs rows.old }
    ensures calls { IsSettled mark changes (R.calls rows.old) result (R.calls rows.new) }
{
    match changes {
        Ok(Changes::Made(count)) => Ok(Reply::Many(count)),
        Ok(Changes::Duplicate(key)) => undo(rows, mark, Refusal::Duplicate { key }),
        Ok(Changes::OutOfRange) => undo(rows, mark, Refusal::Range),
        Err(Stop::Refused(resource)) => undo(rows, mark, Refusal::Resource(resource)),
        Err(stop) => Err(stop),
    }
}

/// Goes back to a mark, and replies why.
fn undo<R: RowCalls>(rows: &mut R, mark: u64, why: Refusal) -> Result<Reply, Stop>
    requires running { IsTrue (is_running (R.calls rows.old)) }
    requires mark { IsMark (ops_of (R.calls rows.old)) mark }
    ensures schema { R.defs rows.new ≡ R.defs rows.old }
    ensures calls { IsUndone mark why (R.calls rows.old) result (R.calls rows.new) }
{
    rows.undo_to(mark)?;
    Ok(Reply::Refused(why))
}
