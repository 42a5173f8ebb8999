// The calls on rows, each of which is told.
use crate::ListKeeper;
use call_log::Note;
use key_space::{Key, LockName, Mode, Range};
use plain_model::{RowCalls, RowPiece, Stop};
use row_types::{Row, Schema};

impl RowCalls for ListKeeper {
    ghost calls = { λ k. k.calls };

    ghost defs = { λ k. k.defs };

    fn schema(&self) -> &Schema {
        self.state.rows.schema()
    }

    /// Only one transaction runs at a time, so each lock is given.
    fn lock(&mut self, name: LockName, mode: Mode) -> Result<(), Stop> {
        let answer = Ok(());
        self.log = self.log.then(&Note::Lock(name, mode, &answer));
        answer
    }

    fn get(&mut self, table: u16, key: Key) -> Result<Option<Row>, Stop> {
        let answer = self.state.get(table, key);
        self.log = self.log.then(&Note::Get(table, key, &answer));
        answer
    }

    fn chunk(&mut self, table: u16, range: Range) -> Result<RowPiece, Stop> {
        let answer = self.state.chunk(table, range);
        self.log = self.log.then(&Note::Chunk(table, range, &answer));
        answer
    }

    fn put(&mut self, table: u16, row: &Row) -> Result<(), Stop> {
        let answer = self.state.put(table, row);
        self.log = self.log.then(&Note::Put(table, row, &answer));
        answer
    }

    fn del(&mut self, table: u16, key: Key) -> Result<bool, Stop> {
        let answer = self.state.del(table, key);
        self.log = self.log.then(&Note::Del(table, key, &answer));
        answer
    }

    fn mark(&mut self) -> Result<u64, Stop> {
        Ok(self.state.rows.count())
    }

    fn undo_to(&mut self, mark: u64) -> Result<(), Stop> {
        let answer = self.state.undo_to(mark);
        self.log = self.log.then(&Note::UndoTo(mark, &answer));
        answer
    }
}
