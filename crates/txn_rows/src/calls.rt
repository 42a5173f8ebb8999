// The calls on rows in a transaction.
ghost use Rattle.std.specs.Prelude.{◌≡◌, ◌≢◌, ◌<◌, ◌≤◌, ◌⊎◌, ◌+◌, ℕ, List, ◌∷◌, length, Option, None, Some};
ghost use Rattle.std.specs.Prelude.{Err, IfErr, IfOk, IfSome, OnOk};
ghost use Rattle.std.specs.List.{AllByRecursion};
ghost use Rattle.row_types.specs.Schema.{columns_at};
ghost use Rattle.row_types.specs.Slot.{IsRowOf};
ghost use Rattle.row_types.specs.Tables.{Tables};
ghost use Rattle.key_space.specs.Plays.{RowOp, Get, Part, Put, Del, UndoTo};
ghost use Rattle.key_space.specs.Ranges.{IsNotEmpty};
ghost use Rattle.plain_model.specs.Calls.{IsMark};
ghost use Rattle.plain_model.specs.CallRows.{IsRowAt};
ghost use Rattle.op_log.specs.Changes.{body_text, del_bytes, put_bytes};
ghost use Rattle.row_lists.specs.Held.{most_rows};
ghost use Rattle.call_log.specs.Standing.{standing};
ghost use Rattle.call_log.specs.History.{txn_limit};

use crate::TxnRows;
use crate::rows::FRAME_HEAD;
use key_space::{Key, Range, key_of};
use op_log::{append_del, append_put, del_len, put_len};
use plain_model::{Resource, RowPiece, Stop};
use row_types::{Row, TryCopy};

/// The most bytes of the changes of a transaction.
const TXN_LIMIT: usize = 65_536;

impl TxnRows {
    ghost use Rattle.txn_rows.specs.Rows.{IsRunning, LeftBy, Running, defs_of};

    /// The row of a key.
    ///
    /// Each of these calls is one operation of the transaction. The stop is out of memory, where the call did
    /// nothing, or `Spent` behind 2^64 - 1 operations, where the transaction is undone.
    pub fn get(&mut self, table: u16, key: Key) -> Result<Option<Row>, Stop>
        requires running { IsRunning self.old }
        requires table { table < length (defs_of self.old) }
        ensures defs { defs_of self.new ≡ defs_of self.old }
        ensures done { (first : Tables) (ops : List RowOp) → Running self.old first ops
            → IfOk result (λ found. Running self.new first (Get table key.number found ∷ ops)) }
        ensures stopped { (first : Tables) (ops : List RowOp) → Running self.old first ops
            → IfErr result (LeftBy self.new first ops None) }
        ensures row { IfOk result (λ found.
            IfSome found (IsRowAt (defs_of self.old) table key.number key.number)) }
    {
        let count = self.next_count()?;
        let row = self.lists[table as usize].get(key)?;
        self.count = count;
        Ok(row)
    }

    /// The first rows of a range of keys: 256, where it has so many, and else all, up to its end.
    pub fn chunk(&mut self, table: u16, range: Range) -> Result<RowPiece, Stop>
        requires running { IsRunning self.old }
        requires table { table < length (defs_of self.old) }
        requires range { IsNotEmpty range }
        ensures defs { defs_of self.new ≡ defs_of self.old }
        ensures done { (first : Tables) (ops : List RowOp) → Running self.old first ops
            → IfOk result (λ piece. Running self.new first
            (Part table range.lo.number piece.upto.number piece.rows ∷ ops)) }
        ensures stopped { (first : Tables) (ops : List RowOp) → Running self.old first ops
            → IfErr result (LeftBy self.new first ops None) }
        ensures low { IfOk result (λ piece. range.lo.number ≤ piece.upto.number) }
        ensures high { IfOk result (λ piece. piece.upto.number ≤ range.hi.number) }
        ensures rows { IfOk result (λ piece. AllByRecursion
            (IsRowAt (defs_of self.old) table range.lo.number piece.upto.number) piece.rows) }
        ensures few { IfOk result (λ piece. length piece.rows ≤ most_rows) }
        ensures full { IfOk result (λ piece. (piece.upto ≡ range.hi) ⊎ (length piece.rows ≡ most_rows)) }
    {
        let count = self.next_count()?;
        let piece = self.lists[table as usize].rows_between(self.alloc, range)?;
        self.count = count;
        Ok(RowPiece {
            upto: piece.upto,
            rows: piece.rows,
        })
    }

    /// Sets the row of its key. It is refused where its bytes and those of the changes that stand are more
    /// than 65,536.
    pub fn put(&mut self, table: u16, row: &Row) -> Result<(), Stop>
        requires running { IsRunning self.old }
        requires table { table < length (defs_of self.old) }
        requires row { IsRowOf (columns_at (defs_of self.old) table) row.now }
        ensures defs { defs_of self.new ≡ defs_of self.old }
        ensures done { (first : Tables) (ops : List RowOp) → Running self.old first ops
            → OnOk result (Running self.new first (Put table row.now ∷ ops)) }
        ensures stopped { (first : Tables) (ops : List RowOp) → Running self.old first ops
            → IfErr result (LeftBy self.new first ops (Some (put_bytes (defs_of self.old) table))) }
    {
        let count = self.next_count()?;
        self.check_room(put_len(&self.schema, table))?;
        let key = key_of(&self.schema, table, row);
        let kept = row.copy()?;
        let len = self.frame.len();
        append_put(&mut self.frame, &self.schema, table, row)?;
        let set = self
            .undo
            .set(&mut self.lists, self.count, len, table, key, kept);
        if let Err(fault) = set {
            self.frame.truncate(len);
            return Err(Stop::from(fault));
        }
        self.count = count;
        Ok(())
    }

    /// Takes the row of a key away. `false`: there was none. It is refused where the bytes of this change and
    /// those of the changes that stand are more than 65,536.
    pub fn del(&mut self, table: u16, key: Key) -> Result<bool, Stop>
        requires running { IsRunning self.old }
        requires table { table < length (defs_of self.old) }
        ensures defs { defs_of self.new ≡ defs_of self.old }
        ensures done { (first : Tables) (ops : List RowOp) → Running self.old first ops
            → IfOk result (λ was. Running self.new first (Del table key.number was ∷ ops)) }
        ensures stopped { (first : Tables) (ops : List RowOp) → Running self.old first ops
            → IfErr result (LeftBy self.new first ops (Some del_bytes)) }
    {
        let count = self.next_count()?;
        if !self.lists[table as usize].has(key) {
            self.count = count;
            return Ok(false);
        }
        let Some(number) = key.to_int() else {
            unreachable!()
        };
        self.check_room(del_len())?;
        let len = self.frame.len();
        append_del(&mut self.frame, &self.schema, table, number)?;
        let taken = self.undo.take(&mut self.lists, self.count, len, table, key);
        if let Err(fault) = taken {
            self.frame.truncate(len);
            return Err(Stop::from(fault));
        }
        self.count = count;
        Ok(true)
    }

    /// Goes back to the rows after the first `mark` operations, where none of the later ones went back to
    /// fewer. That is an operation too, and takes no memory.
    pub fn undo_to(&mut self, mark: u64) -> Result<(), Stop>
        requires mark { (first : Tables) × (ops : List RowOp) × Running self.old first ops
            × IsMark ops mark }
        ensures defs { defs_of self.new ≡ defs_of self.old }
        ensures done { (first : Tables) (ops : List RowOp) → Running self.old first ops → IsMark ops mark
            → OnOk result (Running self.new first (UndoTo mark ∷ ops)) }
        ensures stopped { (first : Tables) (ops : List RowOp) → Running self.old first ops
            → IfErr result (LeftBy self.new first ops None) }
        ensures has_memory { result ≢ Err Stop.OutOfMemory }
    {
        let count = self.next_count()?;
        self.go_back(mark);
        self.count = count;
        Ok(())
    }

    /// The number of operations after one more. Where no more can be counted, the transaction is undone.
    fn next_count(&mut self) -> Result<u64, Stop>
        requires { IsRunning self.old }
        ensures defs { defs_of self.new ≡ defs_of self.old }
        ensures ok { IfOk result (λ count. (count ≡ self.new.count + 1) × (self.new ≡ self.old)) }
        ensures stopped { (first : Tables) (ops : List RowOp) (more : Option ℕ) → Running self.old first ops
            → IfErr result (LeftBy self.new first ops more) }
        ensures has_memory { result ≢ Err Stop.OutOfMemory }
    {
        match self.count.checked_add(1) {
            Some(count) => Ok(count),
            None => {
                self.undo();
                Err(Stop::Spent { limit: u64::MAX })
            }
        }
    }

    /// Refuses a change whose bytes are more than the transaction has left.
    fn check_room(&self, more: usize) -> Result<(), Stop>
        requires running { IsRunning self.now }
        requires few { more < 4100 }
        ensures ok { (first : Tables) (ops : List RowOp) → Running self.now first ops
            → OnOk result (length (body_text (defs_of self.now) (standing ops)) + more ≤ txn_limit) }
        ensures stopped { (first : Tables) (ops : List RowOp) → Running self.now first ops
            → IfErr result (LeftBy self.now first ops (Some more)) }
    {
        let used = self.frame.len() - FRAME_HEAD;
        if used + more > TXN_LIMIT {
            return Err(Stop::Refused(Resource::Txn {
                used: used as u64,
                limit: TXN_LIMIT as u64,
            }));
        }
        Ok(())
    }
}
