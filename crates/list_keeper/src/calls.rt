// What the calls on rows do to the state.
ghost use Rattle.std.specs.Prelude.{◌≡◌, ◌<◌, ◌≤◌, true, List, length, IfOk, IfErr, IfSome};
ghost use Rattle.std.specs.List.{AllByRecursion};
ghost use Rattle.row_types.specs.Schema.{columns_at};
ghost use Rattle.row_types.specs.Slot.{IsRowOf};
ghost use Rattle.key_space.specs.Plays.{Get, Part, Put, Del, UndoTo};
ghost use Rattle.key_space.specs.Ranges.{IsNotEmpty};
ghost use Rattle.plain_model.specs.Calls.{Call, Did, AskChunk, AskDel, AskGet, AskPut, AskUndoTo, IsMark};
ghost use Rattle.plain_model.specs.Calls.{MayGive, ops_of, told};
ghost use Rattle.plain_model.specs.CallRows.{IsRowAt};
ghost use Rattle.list_keeper.specs.Kept.{IsKept, IsState, defs_in, runs_on};

use crate::state::State;
use key_space::{Key, Range};
use plain_model::{RowPiece, Stop};
use row_types::Row;

/// Whether a transaction still runs behind an answer: it doesn't where it is spent.
fn runs_on<T>(answer: &Result<T, Stop>) -> bool
    ensures { result ≡ runs_on answer.now }
{
    !matches!(answer, Err(Stop::Spent { .. }))
}

impl State {
    /// The row of a key.
    pub fn get(&mut self, table: u16, key: Key) -> Result<Option<Row>, Stop>
        requires kept { IsState self.old }
        requires running { self.old.running ≡ true }
        requires table { table < length (defs_in self.old) }
        ensures defs { defs_in self.new ≡ defs_in self.old }
        ensures kept { (calls : List Call) → IsKept self.old calls → IsKept self.new
            (told (λ row. Did (Get table key.number row)) (AskGet table key.number) result calls) }
        ensures row { IfOk result (λ found.
            IfSome found (IsRowAt (defs_in self.old) table key.number key.number)) }
        ensures cause { IfErr result (MayGive (AskGet table key.number)) }
    {
        let answer = self.rows.get(table, key);
        self.running = runs_on(&answer);
        answer
    }

    /// The first rows of a range of keys.
    pub fn chunk(&mut self, table: u16, range: Range) -> Result<RowPiece, Stop>
        requires kept { IsState self.old }
        requires running { self.old.running ≡ true }
        requires table { table < length (defs_in self.old) }
        requires range { IsNotEmpty range }
        ensures defs { defs_in self.new ≡ defs_in self.old }
        ensures kept { (calls : List Call) → IsKept self.old calls → IsKept self.new
            (told (λ piece. Did (Part table range.lo.number piece.upto.number piece.rows))
            (AskChunk table range) result calls) }
        ensures low { IfOk result (λ piece. range.lo.number ≤ piece.upto.number) }
        ensures high { IfOk result (λ piece. piece.upto.number ≤ range.hi.number) }
        ensures rows { IfOk result (λ piece. AllByRecursion
            (IsRowAt (defs_in self.old) table range.lo.number piece.upto.number) piece.rows) }
        ensures cause { IfErr result (MayGive (AskChunk table range)) }
    {
        let answer = self.rows.chunk(table, range);
        self.running = runs_on(&answer);
        answer
    }

    /// Sets the row of its key.
    pub fn put(&mut self, table: u16, row: &Row) -> Result<(), Stop>
        requires kept { IsState self.old }
        requires running { self.old.running ≡ true }
        requires table { table < length (defs_in self.old) }
        requires row { IsRowOf (columns_at (defs_in self.old) table) row.now }
        ensures defs { defs_in self.new ≡ defs_in self.old }
        ensures kept { (calls : List Call) → IsKept self.old calls → IsKept self.new
            (told (λ _. Did (Put table row.now)) (AskPut table row.now) result calls) }
        ensures cause { IfErr result (MayGive (AskPut table row.now)) }
    {
        let answer = self.rows.put(table, row);
        self.running = runs_on(&answer);
        answer
    }

    /// Takes the row of a key away, and returns whether there was one.
    pub fn del(&mut self, table: u16, key: Key) -> Result<bool, Stop>
        requires kept { IsState self.old }
        requires running { self.old.running ≡ true }
        requires table { table < length (defs_in self.old) }
        ensures defs { defs_in self.new ≡ defs_in self.old }
        ensures kept { (calls : List Call) → IsKept self.old calls → IsKept self.new
            (told (λ was. Did (Del table key.number was)) (AskDel table key.number) result calls) }
        ensures cause { IfErr result (MayGive (AskDel table key.number)) }
    {
        let answer = self.rows.del(table, key);
        self.running = runs_on(&answer);
        answer
    }

    /// Goes back to the rows after the first `mark` operations.
    pub fn undo_to(&mut self, mark: u64) -> Result<(), Stop>
        requires running { self.old.running ≡ true }
        requires mark { (calls : List Call) × IsKept self.old calls × IsMark (ops_of calls) mark }
        ensures defs { defs_in self.new ≡ defs_in self.old }
        ensures kept { (calls : List Call) → IsKept self.old calls → IsMark (ops_of calls) mark
            → IsKept self.new (told (λ _. Did (UndoTo mark)) (AskUndoTo mark) result calls) }
        ensures cause { IfErr result (MayGive (AskUndoTo mark)) }
    {
        let answer = self.rows.undo_to(mark);
        self.running = runs_on(&answer);
        answer
    }
}
