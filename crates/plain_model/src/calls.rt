// The calls on rows by which statements are run.
ghost use Rattle.std.specs.Prelude.{◌≡◌, ◌<◌, ◌≤◌, List, length, IfOk, IfErr, IfSome, IsTrue};
ghost use Rattle.std.specs.List.{AllByRecursion};
ghost use Rattle.row_types.specs.declared.definition.TableDef.{TableDef};
ghost use Rattle.row_types.specs.Keys.{row_key};
ghost use Rattle.row_types.specs.Schema.{columns_at, keys_at};
ghost use Rattle.row_types.specs.Slot.{IsRowOf};
ghost use Rattle.key_space.specs.Plays.{Get, Part, Put, Del, UndoTo};
ghost use Rattle.key_space.specs.Ranges.{IsNotEmpty};
ghost use Rattle.plain_model.specs.Calls.{Call, Did, Locked, AskLock, AskGet, AskChunk, AskPut, AskDel};
ghost use Rattle.plain_model.specs.Calls.{AskMark, AskUndoTo, told, told_mark, ops_of, op_count, is_running};
ghost use Rattle.plain_model.specs.Calls.{MayRead, MayWrite, IsMark, MayGive};
ghost use Rattle.plain_model.specs.CallRows.{IsRowAt};

use crate::Stop;
use key_space::{Key, LockName, Mode, Range};
use row_types::{Items, Row, Schema};

/// All rows of a table from a key up to `upto`, in rising order of their keys.
#[derive(Debug, Drop)]
pub struct RowPiece {
    pub upto: Key,
    pub rows: Items<Row>,
}

/// Calls on the rows of tables in a transaction, any of which may give a stop.
///
/// Contracts see the list of the calls so far, each with its arguments and its answer; a call adds itself
/// alone. What a call answers is told and not promised: an executor is proved over every object, and what
/// it does is right where the answers are those of some tables.
pub trait RowCalls {
    /// The calls so far, the latest first.
    ghost calls: { Self → List Call };

    /// The definitions of the tables. They never change.
    ghost defs: { Self → List TableDef };

    /// The schema of the tables.
    fn schema(&self) -> &Schema
        ensures { result.now ≡ defs self.now };

    /// Asks for a lock on the keys of a range of a table, which is held up to the transaction's end.
    fn lock(&mut self, name: LockName, mode: Mode) -> Result<(), Stop>
        requires running { IsTrue (is_running (calls self.old)) }
        requires table { name.table < length (defs self.old) }
        requires range { IsNotEmpty name.range }
        ensures told { calls self.new
            ≡ told (λ _. Locked name mode) (AskLock name mode) result (calls self.old) }
        ensures cause { IfErr result (MayGive (AskLock name mode)) }
        ensures schema { defs self.new ≡ defs self.old };

    /// The row of a key, which a lock covers, in the table of the last lock.
    fn get(&mut self, table: u16, key: Key) -> Result<Option<Row>, Stop>
        requires running { IsTrue (is_running (calls self.old)) }
        requires locked { MayRead (calls self.old) table key.number key.number }
        ensures told { calls self.new
            ≡ told (λ row. Did (Get table key.number row)) (AskGet table key.number) result (calls self.old) }
        ensures row { IfOk result (λ found.
            IfSome found (IsRowAt (defs self.old) table key.number key.number)) }
        ensures cause { IfErr result (MayGive (AskGet table key.number)) }
        ensures schema { defs self.new ≡ defs self.old };

    /// All rows from `range.lo` up to some key of the range, all of whose keys locks cover, in the table of
    /// the last lock.
    fn chunk(&mut self, table: u16, range: Range) -> Result<RowPiece, Stop>
        requires running { IsTrue (is_running (calls self.old)) }
        requires range { IsNotEmpty range }
        requires locked { MayRead (calls self.old) table range.lo.number range.hi.number }
        ensures told { calls self.new
            ≡ told (λ piece. Did (Part table range.lo.number piece.upto.number piece.rows))
            (AskChunk table range) result (calls self.old) }
        ensures low { IfOk result (λ piece. range.lo.number ≤ piece.upto.number) }
        ensures high { IfOk result (λ piece. piece.upto.number ≤ range.hi.number) }
        ensures rows { IfOk result (λ piece.
            AllByRecursion (IsRowAt (defs self.old) table range.lo.number piece.upto.number) piece.rows) }
        ensures cause { IfErr result (MayGive (AskChunk table range)) }
        ensures schema { defs self.new ≡ defs self.old };

    /// Sets the row of its key, which an exclusive lock covers, in the table of the last lock.
    fn put(&mut self, table: u16, row: &Row) -> Result<(), Stop>
        requires running { IsTrue (is_running (calls self.old)) }
        requires row { IsRowOf (columns_at (defs self.old) table) row.now }
        requires locked { MayWrite (calls self.old) table (row_key (keys_at (defs self.old) table) row.now)
            (row_key (keys_at (defs self.old) table) row.now) }
        ensures told { calls self.new
            ≡ told (λ _. Did (Put table row.now)) (AskPut table row.now) result (calls self.old) }
        ensures cause { IfErr result (MayGive (AskPut table row.now)) }
        ensures schema { defs self.new ≡ defs self.old };

    /// Takes the row of a key away, which an exclusive lock covers, in the table of the last lock. `false`:
    /// there was none.
    fn del(&mut self, table: u16, key: Key) -> Result<bool, Stop>
        requires running { IsTrue (is_running (calls self.old)) }
        requires locked { MayWrite (calls self.old) table key.number key.number }
        ensures told { calls self.new
            ≡ told (λ was. Did (Del table key.number was)) (AskDel table key.number) result (calls self.old) }
        ensures cause { IfErr result (MayGive (AskDel table key.number)) }
        ensures schema { defs self.new ≡ defs self.old };

    /// The number of row operations so far, to which `undo_to` can go back.
    fn mark(&mut self) -> Result<u64, Stop>
        requires running { IsTrue (is_running (calls self.old)) }
        ensures told { calls self.new ≡ told_mark result (calls self.old) }
        ensures mark { IfOk result (λ mark. mark ≡ op_count (calls self.old)) }
        ensures cause { IfErr result (MayGive AskMark) }
        ensures schema { defs self.new ≡ defs self.old };

    /// Goes back to the rows after the first `mark` row operations.
    fn undo_to(&mut self, mark: u64) -> Result<(), Stop>
        requires running { IsTrue (is_running (calls self.old)) }
        requires mark { IsMark (ops_of (calls self.old)) mark }
        ensures told { calls self.new
            ≡ told (λ _. Did (UndoTo mark)) (AskUndoTo mark) result (calls self.old) }
        ensures cause { IfErr result (MayGive (AskUndoTo mark)) }
        ensures schema { defs self.new ≡ defs self.old };
}
