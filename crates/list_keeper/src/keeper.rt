// The keeper.
use crate::state::State;
use crate::{LoadFault, OutOfMemory};
use call_log::{CallLog, Note};
use disk_core::Disk;
use lane_format::{LaneFault, LaneWriter};
use op_log::RowChange;
use row_types::{Items, Schema};
use std::alloc::Global;
use std::marker::Model;

/// Rows of the tables of a schema in memory, as the calls from the log's beginning on have left them: seen as
/// the definitions of the tables and those calls. It calls no disk but in `force`.
#[derive(Drop)]
pub struct ListKeeper {
    pub(crate) state: State,
    pub(crate) log: CallLog,
}

impl Model for ListKeeper {
    ghost use Rattle.list_keeper.specs.Past.{Told};

    ghost Value = { Told };

    ghost use Rattle.list_keeper.specs.Kept.{IsKept, defs_in};

    ghost view = { λ k. record { defs = defs_in k.state; calls = k.log.calls } };

    ghost invariant = { λ k. IsKept k.state k.log.calls };
}

impl ListKeeper {
    ghost use Rattle.std.specs.Prelude.{◌≡◌, ◌≢◌, ◌⊎◌, ◌+◌, ◌≤◌, false, ℕ, List, [], length, Ok, Err};
    ghost use Rattle.std.specs.Prelude.{IfOk, IsTrue, OnOk};
    ghost use Rattle.std.specs.List.{AllByRecursion};
    ghost use Rattle.plain_model.specs.Calls.{is_running};
    ghost use Rattle.op_log.specs.Changes.{IsChange, body_text};
    ghost use Rattle.lane_format.specs.Writer.{Holds, IsFailed, IsNear};
    ghost use Rattle.call_log.specs.Played.{ArePlayed};
    ghost use Rattle.call_log.specs.History.{last_batch, log_bytes, log_limit, log_room, with_forced};
    ghost use Rattle.call_log.specs.History.{with_loaded};
    ghost use Rattle.txn_rows.specs.Forces.{Forces};
    ghost use Rattle.txn_rows.specs.Rows.{StopsAt};
    ghost use Rattle.list_keeper.specs.Past.{IsPast, tables_in};

    /// A keeper without rows, which was sent no calls. `OutOfMemory`: there is no memory for it.
    pub fn new(alloc: Global, schema: Schema) -> Result<ListKeeper, OutOfMemory>
        ensures defs { IfOk result (λ keeper. keeper.defs ≡ schema) }
        ensures calls { IfOk result (λ keeper. keeper.calls ≡ []) }
    {
        let state = State::new(alloc, schema)?;
        Ok(ListKeeper {
            state,
            log: CallLog::new(),
        })
    }

    /// The keeper after one batch of the log more, whose body has `len` bytes. Its calls are those before and
    /// those of a transaction that has made the batch.
    ///
    /// `NoRow` names the first change that can't be played on the tables. `OutOfMemory`: there is no memory
    /// for the rows.
    pub fn load(self, batch: Items<RowChange>, len: usize) -> Result<ListKeeper, LoadFault>
        requires idle { is_running self.calls ≡ false }
        requires some { batch ≢ [] }
        requires fit { AllByRecursion (IsChange self.defs) batch }
        requires len { len ≡ length (body_text self.defs batch) }
        requires room { log_bytes self.defs self.calls + 5 + len ≤ log_limit + 1 }
        ensures defs { IfOk result (λ keeper. keeper.defs ≡ self.defs) }
        ensures calls { IfOk result (λ keeper. keeper.calls ≡ with_loaded self.calls batch) }
        ensures played { OnOk result (ArePlayed (tables_in self) batch) }
        ensures no_row { (index : ℕ) → result ≡ Err (LoadFault.NoRow index)
            → StopsAt (tables_in self) batch index }
    {
        let ListKeeper { state, log } = self;
        let log = log.loaded(&batch);
        let state = state.load(batch, len)?;
        Ok(ListKeeper { state, log })
    }

    /// What its calls are, from the log's beginning on.
    pub fn history(&self)
        ensures { IsPast self.now }
    {
        let _state = &self.state;
    }

    /// Where a transaction runs, the log file has room for it: begin is refused where it hasn't.
    pub fn has_room(&self)
        ensures { IsTrue (is_running self.now.calls)
            → log_bytes self.now.defs self.now.calls + log_room ≤ log_limit }
    {
        let _state = &self.state;
    }

    /// Forces the changes of the transaction that the last call has committed, as one batch of the log file,
    /// and lets go of them, whatever comes of it. Where it has changed nothing, and where the last call is
    /// another, nothing is called. In each case the calls have one transaction more, which did nothing.
    ///
    /// `Disk` names the file whose disk failed in this call, `Closed` the one whose disk failed before.
    pub fn force<D: Disk>(&mut self, writer: &mut LaneWriter<D>) -> Result<(), LaneFault>
        requires idle { is_running self.old.calls ≡ false }
        requires open { ((generation : ℕ) × (bodies : List (List ℕ))
            × Holds D.Disk writer.old generation bodies) ⊎ IsFailed writer.old }
        requires near { IsNear writer.old }
        ensures defs { self.new.defs ≡ self.old.defs }
        ensures calls { self.new.calls ≡ with_forced self.old.calls }
        ensures none { last_batch self.old.calls ≡ [] → (result ≡ Ok tt) × (writer.new ≡ writer.old) }
        ensures forced { last_batch self.old.calls ≢ []
            → Forces D.Disk (body_text self.old.defs (last_batch self.old.calls)) writer.old writer.new
            result }
    {
        let forced = self.state.force(writer);
        self.log = self.log.then(&Note::Begin(None, &Ok(0)));
        self.log = self.log.then(&Note::Undo(&Ok(())));
        forced
    }
}
