// The rows, and where transactions begin and end.
ghost use Rattle.std.specs.Prelude.{◌≡◌, ◌≢◌, ◌⊎◌, ◌+◌, ◌∷◌, [], ℕ, List, length, IfOk, OnOk, OnErr};
ghost use Rattle.row_types.specs.Tables.{Tables};
ghost use Rattle.key_space.specs.Plays.{RowOp, UndoTo};
ghost use Rattle.plain_model.specs.Calls.{IsMark};
ghost use Rattle.plain_model.specs.CallPlays.{latest, moments_of};
ghost use Rattle.op_log.specs.Changes.{body_text};
ghost use Rattle.op_log.specs.declared.change.RowChange.{RowChange};
ghost use Rattle.lane_format.specs.Writer.{Holds, IsFailed, IsNear};
ghost use Rattle.call_log.specs.Standing.{standing};
ghost use Rattle.call_log.specs.Played.{empty_tables};
ghost use Rattle.txn_rows.specs.Steps.{AreEmpty, closed};

use crate::OutOfMemory;
use crate::undo::Undo;
use disk_core::Disk;
use lane_format::{LaneFault, LaneWriter};
use row_lists::RowList;
use row_types::Schema;
use std::alloc::Global;

/// The bytes of a frame before its body: the body's length.
pub(crate) const FRAME_HEAD: usize = 4;

/// Rows of the tables of a schema, in lists in the order of their keys, and the changes of the transaction
/// that runs, or of the last one that was committed, as the bytes of a batch of a log file.
#[derive(Drop)]
pub struct TxnRows {
    pub(crate) alloc: Global,
    pub(crate) schema: Schema,
    pub(crate) lists: Vec<RowList>,
    /// How many row operations the transaction has answered.
    pub(crate) count: u64,
    pub(crate) undo: Undo,
    /// The changes as a frame of the log file: four bytes, the changes, and one byte behind those that are
    /// committed.
    pub(crate) frame: Vec<u8>,
}

impl TxnRows {
    ghost use Rattle.txn_rows.specs.Rows.{Idle, IsIdle, IsRunning, Running, defs_of};
    ghost use Rattle.txn_rows.specs.Forces.{Forces};

    /// Tables without rows.
    pub fn new(alloc: Global, schema: Schema) -> Result<TxnRows, OutOfMemory>
        ensures defs { IfOk result (λ rows. defs_of rows ≡ schema) }
        ensures idle { IfOk result (λ rows. Idle rows (empty_tables schema) []) }
    {
        let lists = empty_lists(alloc, schema.tables().len())?;
        let mut frame = Vec::new(alloc);
        frame.resize(FRAME_HEAD, 0)?;
        Ok(TxnRows {
            alloc,
            schema,
            lists,
            count: 0,
            undo: Undo::new(alloc),
            frame,
        })
    }

    /// The schema of the tables.
    pub fn schema(&self) -> &Schema
        ensures { result.now ≡ defs_of self.now }
    {
        &self.schema
    }

    /// How many row operations the transaction has answered.
    pub fn count(&self) -> u64
        ensures { (first : Tables) (ops : List RowOp) → Running self.now first ops → result ≡ length ops }
    {
        self.count
    }

    /// The bytes of the changes that can be forced, 0 where there are none.
    pub fn batch_len(&self) -> usize
        requires { IsIdle self.now }
        ensures { (tables : Tables) (batch : List RowChange) → Idle self.now tables batch
            → result ≡ length (body_text (defs_of self.now) batch) }
    {
        self.frame.len().saturating_sub(FRAME_HEAD + 1)
    }

    /// Forgets the changes that can be forced.
    pub fn forget(&mut self)
        requires { IsIdle self.old }
        ensures defs { defs_of self.new ≡ defs_of self.old }
        ensures idle { (tables : Tables) (batch : List RowChange) → Idle self.old tables batch
            → Idle self.new tables [] }
    {
        self.frame.truncate(FRAME_HEAD);
    }

    /// Begins a transaction. The changes of the last one are forgotten.
    pub fn begin(&mut self)
        requires { IsIdle self.old }
        ensures defs { defs_of self.new ≡ defs_of self.old }
        ensures running { (tables : Tables) (batch : List RowChange) → Idle self.old tables batch
            → Running self.new tables [] }
    {
        self.frame.truncate(FRAME_HEAD);
        self.count = 0;
    }

    /// Ends the transaction with its changes, which can be forced from now on. Out of memory, it continues.
    pub fn commit(&mut self) -> Result<(), OutOfMemory>
        requires { IsRunning self.old }
        ensures defs { defs_of self.new ≡ defs_of self.old }
        ensures idle { (first : Tables) (ops : List RowOp) → Running self.old first ops
            → OnOk result (Idle self.new (latest (moments_of first ops)) (standing ops)) }
        ensures running { (first : Tables) (ops : List RowOp) → Running self.old first ops
            → OnErr result (Running self.new first ops) }
    {
        close(&mut self.frame)?;
        self.undo.keep(&mut self.lists);
        Ok(())
    }

    /// Undoes the transaction, which takes no memory: the tables are those at which it began.
    pub fn undo(&mut self)
        requires { IsRunning self.old }
        ensures defs { defs_of self.new ≡ defs_of self.old }
        ensures idle { (first : Tables) (ops : List RowOp) → Running self.old first ops
            → Idle self.new first [] }
    {
        self.go_back(0);
    }

    /// Goes back to the rows after so many operations.
    pub(crate) fn go_back(&mut self, mark: u64)
        requires { (first : Tables) × (ops : List RowOp) × Running self.old first ops × IsMark ops mark }
        ensures defs { defs_of self.new ≡ defs_of self.old }
        ensures count { self.new.count ≡ self.old.count }
        ensures back { (first : Tables) (ops : List RowOp) → Running self.old first ops → IsMark ops mark
            → Running (record self.new { count = self.old.count + 1 }) first (UndoTo mark ∷ ops) }
    {
        if let Some(len) = self.undo.back_to(&mut self.lists, mark) {
            self.frame.truncate(len);
        }
    }

    /// Forces the changes as one batch of a log file, and forgets them, whatever the result.
    pub fn force<D: Disk>(&mut self, writer: &mut LaneWriter<D>) -> Result<(), LaneFault>
        requires batch { (tables : Tables) × (batch : List RowChange) × Idle self.old tables batch
            × (batch ≢ []) }
        requires open { ((generation : ℕ) × (bodies : List (List ℕ))
            × Holds D.Disk writer.old generation bodies) ⊎ IsFailed writer.old }
        requires near { IsNear writer.old }
        ensures defs { defs_of self.new ≡ defs_of self.old }
        ensures forced { (tables : Tables) (batch : List RowChange) → Idle self.old tables batch
            → Forces D.Disk (body_text (defs_of self.old) batch) writer.old writer.new result }
        ensures idle { (tables : Tables) (batch : List RowChange) → Idle self.old tables batch
            → Idle self.new tables [] }
    {
        let forced = writer.force(&mut self.frame);
        self.frame.truncate(FRAME_HEAD);
        forced
    }
}

/// Adds the last byte to a frame that has changes.
fn close(frame: &mut Vec<u8>) -> Result<(), OutOfMemory>
    ensures ok { OnOk result (frame.new.items ≡ closed frame.old.items) }
    ensures err { OnErr result (frame.new.items ≡ frame.old.items) }
{
    if frame.len() > FRAME_HEAD {
        frame.push(0)?;
    }
    Ok(())
}

/// Lists without rows, so many.
fn empty_lists(alloc: Global, count: usize) -> Result<Vec<RowList>, OutOfMemory>
    ensures { IfOk result (λ lists. AreEmpty lists.items × (length lists.items ≡ count)) }
{
    let mut lists = Vec::with_capacity(alloc, count)?;
    for _ in 0..count {
        lists.push(RowList::new(alloc))?;
    }
    Ok(lists)
}
