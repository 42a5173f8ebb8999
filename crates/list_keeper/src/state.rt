// What a keeper has besides the list of its calls, and what the calls do to it.
ghost use Rattle.std.specs.Prelude.{◌≡◌, ◌≢◌, ◌⊎◌, ◌+◌, ◌<◌, ◌≤◌, true, false, ℕ, List, [], ◌∷◌, length};
ghost use Rattle.std.specs.Prelude.{Option, Ok, Err, IfOk, IfErr, OnOk};
ghost use Rattle.std.specs.List.{AllByRecursion};
ghost use Rattle.row_types.specs.Tables.{Tables};
ghost use Rattle.plain_model.specs.Calls.{Call, Began, Committed, Opened, Undone, AskBegin, AskCheckpoint};
ghost use Rattle.plain_model.specs.Calls.{AskCommit, MayGive, told};
ghost use Rattle.op_log.specs.Changes.{IsChange, body_text};
ghost use Rattle.op_log.specs.declared.change.RowChange.{RowChange};
ghost use Rattle.lane_format.specs.Writer.{Holds, IsFailed, IsNear};
ghost use Rattle.call_log.specs.Played.{ArePlayed, empty_tables};
ghost use Rattle.call_log.specs.History.{last_batch, log_limit, settled, txn_limit, with_forced, with_loaded};
ghost use Rattle.txn_rows.specs.Forces.{Forces};
ghost use Rattle.txn_rows.specs.Rows.{Idle, IsIdle, StopsAt};

use crate::{LoadFault, OutOfMemory};
use disk_core::Disk;
use lane_format::{LaneFault, LaneWriter};
use op_log::RowChange;
use plain_model::{Resource, Stop};
use row_types::{Items, Schema};
use std::alloc::Global;
use txn_rows::TxnRows;

/// The bytes in use of a log file without a batch: its head, and the first gate.
const EMPTY: u64 = 12;
/// The most bytes of a log file.
const LOG_LIMIT: u64 = 67_108_864;
/// The bytes that a transaction's begin wants to be free in the log file.
const LOG_ROOM: u64 = 262_272;
/// The bytes of a batch besides its body: its gate, and the body's length.
const BATCH_HEAD: u64 = 5;

/// The rows, and what is known of the log file and of the transaction that runs.
#[derive(Drop)]
pub struct State {
    pub rows: TxnRows,
    /// The number of the latest transaction.
    pub number: u64,
    /// The bytes of the log file that are in use.
    pub bytes: u64,
    pub running: bool,
}

impl State {
    ghost use Rattle.list_keeper.specs.Kept.{IsKept, IsState, batch_bytes, defs_in};

    /// No rows, and a log file without a batch.
    pub fn new(alloc: Global, schema: Schema) -> Result<State, OutOfMemory>
        ensures kept { IfOk result (λ state. IsKept state []) }
        ensures defs { IfOk result (λ state. defs_in state ≡ schema) }
    {
        let rows = TxnRows::new(alloc, schema)?;
        Ok(State {
            rows,
            number: 0,
            bytes: EMPTY,
            running: false,
        })
    }

    /// The state after one batch of the log more, whose body has `len` bytes.
    pub fn load(self, batch: Items<RowChange>, len: usize) -> Result<State, LoadFault>
        requires kept { IsState self }
        requires idle { self.running ≡ false }
        requires some { batch ≢ [] }
        requires fit { AllByRecursion (IsChange (defs_in self)) batch }
        requires len { len ≡ length (body_text (defs_in self) batch) }
        requires room { self.bytes + 5 + len ≤ log_limit + 1 }
        ensures defs { IfOk result (λ state. defs_in state ≡ defs_in self) }
        ensures kept { (calls : List Call) → IsKept self calls
            → IfOk result (λ state. IsKept state (with_loaded calls batch)) }
        ensures played { (calls : List Call) → IsKept self calls
            → OnOk result (ArePlayed (settled (empty_tables (defs_in self)) calls) batch) }
        ensures no_row { (calls : List Call) → IsKept self calls → (index : ℕ)
            → result ≡ Err (LoadFault.NoRow index)
            → StopsAt (settled (empty_tables (defs_in self)) calls) batch index }
    {
        let State {
            rows,
            number,
            bytes,
            running,
        } = self;
        let mut rows = rows;
        match rows.load(batch)? {
            Some(index) => Err(LoadFault::NoRow { index }),
            None => Ok(State {
                rows,
                number,
                bytes: bytes + BATCH_HEAD + len as u64,
                running,
            }),
        }
    }

    /// Forces the changes of the last transaction, where it has any, and forgets them.
    pub fn force<D: Disk>(&mut self, writer: &mut LaneWriter<D>) -> Result<(), LaneFault>
        requires kept { IsState self.old }
        requires idle { self.old.running ≡ false }
        requires open { ((generation : ℕ) × (bodies : List (List ℕ))
            × Holds D.Disk writer.old generation bodies) ⊎ IsFailed writer.old }
        requires near { IsNear writer.old }
        ensures defs { defs_in self.new ≡ defs_in self.old }
        ensures kept { (calls : List Call) → IsKept self.old calls → IsKept self.new (with_forced calls) }
        ensures none { (calls : List Call) → IsKept self.old calls → last_batch calls ≡ []
            → (result ≡ Ok tt) × (writer.new ≡ writer.old) }
        ensures forced { (calls : List Call) → IsKept self.old calls → last_batch calls ≢ []
            → Forces D.Disk (body_text (defs_in self.old) (last_batch calls)) writer.old writer.new result }
    {
        if self.rows.batch_len() == 0 {
            return Ok(());
        }
        self.rows.force(writer)
    }

    /// Begins a transaction, and returns its number. It is refused where no number is left, and where the log
    /// file has too little room for what a transaction may change.
    pub fn begin(&mut self) -> Result<u64, Stop>
        requires kept { IsState self.old }
        requires idle { self.old.running ≡ false }
        ensures defs { defs_in self.new ≡ defs_in self.old }
        ensures kept { (age : Option ℕ) (calls : List Call) → IsKept self.old calls
            → IsKept self.new (told (Began age) (AskBegin age) result calls) }
        ensures cause { (age : Option ℕ) → IfErr result (MayGive (AskBegin age)) }
    {
        self.rows.forget();
        let Some(number) = self.number.checked_add(1) else {
            return Err(Stop::Spent { limit: u64::MAX });
        };
        if self.bytes + LOG_ROOM > LOG_LIMIT {
            return Err(Stop::Refused(Resource::LogFull {
                bytes: self.bytes,
                limit: LOG_LIMIT,
            }));
        }
        self.rows.begin();
        self.number = number;
        self.running = true;
        Ok(number)
    }

    /// Ends the transaction with its changes, which can be forced from now on.
    pub fn commit(&mut self) -> Result<(), Stop>
        requires kept { IsState self.old }
        requires running { self.old.running ≡ true }
        ensures defs { defs_in self.new ≡ defs_in self.old }
        ensures kept { (calls : List Call) → IsKept self.old calls
            → IsKept self.new (told (λ _. Committed) AskCommit result calls) }
        ensures cause { IfErr result (MayGive AskCommit) }
    {
        self.rows.commit()?;
        self.bytes += self.batch_bytes();
        self.running = false;
        Ok(())
    }

    /// The bytes that the last transaction's changes take in the log file: none where it has changed nothing.
    fn batch_bytes(&self) -> u64
        requires { IsIdle self.now.rows }
        ensures few { result ≤ 5 + txn_limit }
        ensures value { (tables : Tables) (batch : List RowChange) → Idle self.now.rows tables batch
            → result ≡ batch_bytes (length (body_text (defs_in self.now) batch)) }
    {
        let len = self.rows.batch_len();
        if len == 0 {
            return 0;
        }
        BATCH_HEAD + len as u64
    }

    /// Undoes the transaction.
    pub fn undo(&mut self)
        requires kept { IsState self.old }
        requires running { self.old.running ≡ true }
        ensures defs { defs_in self.new ≡ defs_in self.old }
        ensures kept { (calls : List Call) → IsKept self.old calls → IsKept self.new (Undone ∷ calls) }
    {
        self.rows.undo();
        self.running = false;
    }

    /// Refuses a checkpoint: the changes that can be forced are forgotten, as the last call is another then.
    pub fn refuse_checkpoint(&mut self) -> Result<u64, Stop>
        requires kept { IsState self.old }
        requires idle { self.old.running ≡ false }
        ensures defs { defs_in self.new ≡ defs_in self.old }
        ensures kept { (calls : List Call) → IsKept self.old calls
            → IsKept self.new (told Opened AskCheckpoint result calls) }
        ensures cause { IfErr result (MayGive AskCheckpoint) }
    {
        self.rows.forget();
        Err(Stop::Spent { limit: 0 })
    }
}
