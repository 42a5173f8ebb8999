// The calls on transactions by which blocks are run.
ghost use Rattle.std.specs.Prelude.{◌≡◌, false, IfErr, IsOk, IsTrue};
ghost use Rattle.plain_model.specs.Calls.{Began, Committed, Opened, AskBegin, AskCheckpoint, AskCommit};
ghost use Rattle.plain_model.specs.Calls.{AskUndo, MayGive, is_running, told};
ghost use Rattle.engine_txn.specs.Transactions.{told_undo};

use plain_model::{RowCalls, Stop};

/// Calls on rows, and on the transactions that they are in. Each adds itself to the list of calls.
pub trait BlockCalls: RowCalls {
    /// Begins a transaction, and returns its number. `age` is that of an earlier try of the same block;
    /// without one the number is the transaction's age.
    fn begin(&mut self, age: Option<u64>) -> Result<u64, Stop>
        requires idle { is_running (Self.calls self.old) ≡ false }
        ensures told { Self.calls self.new ≡ told (Began age) (AskBegin age) result (Self.calls self.old) }
        ensures cause { IfErr result (MayGive (AskBegin age)) }
        ensures schema { Self.defs self.new ≡ Self.defs self.old };

    /// Commits the transaction. What it did stays, whatever happens from then on.
    fn commit(&mut self) -> Result<(), Stop>
        requires running { IsTrue (is_running (Self.calls self.old)) }
        ensures told { Self.calls self.new ≡ told (λ _. Committed) AskCommit result (Self.calls self.old) }
        ensures cause { IfErr result (MayGive AskCommit) }
        ensures schema { Self.defs self.new ≡ Self.defs self.old };

    /// Undoes the transaction. Where none runs nothing is done, and nothing is told.
    fn undo(&mut self) -> Result<(), Stop>
        ensures told { Self.calls self.new ≡ told_undo result (Self.calls self.old) }
        ensures nothing { is_running (Self.calls self.old) ≡ false → IsOk result }
        ensures cause { IfErr result (MayGive AskUndo) }
        ensures schema { Self.defs self.new ≡ Self.defs self.old };

    /// Makes a checkpoint, and returns the generation that it opens.
    fn checkpoint(&mut self) -> Result<u64, Stop>
        requires idle { is_running (Self.calls self.old) ≡ false }
        ensures told { Self.calls self.new ≡ told Opened AskCheckpoint result (Self.calls self.old) }
        ensures cause { IfErr result (MayGive AskCheckpoint) }
        ensures schema { Self.defs self.new ≡ Self.defs self.old };
}
