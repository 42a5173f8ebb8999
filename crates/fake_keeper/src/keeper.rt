// A keeper of rows in one sorted list, which gives the stops that a test wants.
ghost use Rattle.std.specs.Prelude.{◌≡◌};
ghost use Rattle.plain_model.specs.Calls.{is_running, op_count, runs_behind};

use crate::slots::Slot;
use crate::store::{
    Store, try_any, try_begin, try_chunk, try_commit, try_del, try_get, try_lock, try_put,
    try_undo, try_undo_to,
};
use crate::switch::{Kind, Switch, Switches};
use call_log::{CallLog, Note};
use engine_txn::BlockCalls;
use key_space::{Key, LockName, Mode, Range};
use plain_model::{RowCalls, RowPiece, Stop};
use row_types::{Row, Schema};
use std::alloc::Global;

/// The rows of tables, and the transaction that runs.
#[derive(Drop)]
pub struct Keeper {
    alloc: Global,
    schema: Schema,
    store: Store,
    count: u64,
    number: u64,
    runs: bool,
    piece: usize,
    log: CallLog,
    ghost counted: { count ≡ op_count log.calls },
    ghost running: { runs ≡ is_running log.calls },
}

impl Keeper {
    /// Tables without rows, which are read in pieces of so many rows.
    pub fn new(alloc: Global, schema: Schema, piece: usize) -> Keeper {
        Keeper {
            alloc,
            schema,
            store: Store {
                slots: Vec::new(alloc),
                changes: Vec::new(alloc),
                switches: Switches::new(alloc),
            },
            count: 0,
            number: 0,
            runs: false,
            piece,
            log: CallLog::new(),
        }
    }

    /// From now on the calls are counted anew, and this stop is to be given.
    pub fn switch(&mut self, switch: Option<Switch>) {
        self.store.switches.set(switch);
    }

    /// The calls so far.
    pub fn made(&self) -> &[Kind] {
        self.store.switches.made()
    }

    /// Whether a transaction runs.
    pub fn is_running(&self) -> bool
        ensures { result ≡ is_running self.now.log.calls }
    {
        self.runs
    }

    /// The rows of all tables, in order.
    pub fn slots(&self) -> &[Slot] {
        self.store.slots.as_slice()
    }
}

/// Whether a transaction still runs behind a stop.
fn runs_behind(stop: Stop, runs: bool) -> bool
    ensures { result ≡ runs_behind stop runs }
{
    match stop {
        Stop::Spent { .. } => false,
        Stop::Refused(_) => runs,
        Stop::Die { .. } => runs,
        Stop::Fault { .. } => runs,
        Stop::OutOfMemory => runs,
    }
}

impl RowCalls for Keeper {
    ghost calls = { λ k. k.log.calls };

    ghost defs = { λ k. k.schema };

    fn schema(&self) -> &Schema {
        &self.schema
    }

    fn lock(&mut self, name: LockName, mode: Mode) -> Result<(), Stop> {
        match try_lock(&mut self.store) {
            Ok(()) => {
                let answer = Ok(());
                self.log = self.log.then(&Note::Lock(name, mode, &answer));
                answer
            }
            Err(stop) => {
                let answer = Err(stop);
                self.log = self.log.then(&Note::Lock(name, mode, &answer));
                self.runs = runs_behind(stop, self.runs);
                answer
            }
        }
    }

    fn get(&mut self, table: u16, key: Key) -> Result<Option<Row>, Stop> {
        match try_get(&mut self.store, &self.schema, self.count, table, key) {
            Ok(done) => {
                let answer = Ok(done);
                self.log = self.log.then(&Note::Get(table, key, &answer));
                self.count += 1;
                answer
            }
            Err(stop) => {
                let answer = Err(stop);
                self.log = self.log.then(&Note::Get(table, key, &answer));
                self.runs = runs_behind(stop, self.runs);
                answer
            }
        }
    }

    fn chunk(&mut self, table: u16, range: Range) -> Result<RowPiece, Stop> {
        match try_chunk(
            self.alloc,
            &mut self.store,
            &self.schema,
            self.count,
            table,
            range,
            self.piece,
        ) {
            Ok(done) => {
                let answer = Ok(done);
                self.log = self.log.then(&Note::Chunk(table, range, &answer));
                self.count += 1;
                answer
            }
            Err(stop) => {
                let answer = Err(stop);
                self.log = self.log.then(&Note::Chunk(table, range, &answer));
                self.runs = runs_behind(stop, self.runs);
                answer
            }
        }
    }

    fn put(&mut self, table: u16, row: &Row) -> Result<(), Stop> {
        match try_put(&mut self.store, &self.schema, self.count, table, row) {
            Ok(()) => {
                let answer = Ok(());
                self.log = self.log.then(&Note::Put(table, row, &answer));
                self.count += 1;
                answer
            }
            Err(stop) => {
                let answer = Err(stop);
                self.log = self.log.then(&Note::Put(table, row, &answer));
                self.runs = runs_behind(stop, self.runs);
                answer
            }
        }
    }

    fn del(&mut self, table: u16, key: Key) -> Result<bool, Stop> {
        match try_del(&mut self.store, self.count, table, key) {
            Ok(done) => {
                let answer = Ok(done);
                self.log = self.log.then(&Note::Del(table, key, &answer));
                self.count += 1;
                answer
            }
            Err(stop) => {
                let answer = Err(stop);
                self.log = self.log.then(&Note::Del(table, key, &answer));
                self.runs = runs_behind(stop, self.runs);
                answer
            }
        }
    }

    fn mark(&mut self) -> Result<u64, Stop> {
        match try_any(&mut self.store, Kind::Mark) {
            Ok(()) => {
                let answer = Ok(self.count);
                self.log = self.log.then(&Note::Mark(&answer));
                answer
            }
            Err(stop) => {
                let answer = Err(stop);
                self.log = self.log.then(&Note::Mark(&answer));
                self.runs = runs_behind(stop, self.runs);
                answer
            }
        }
    }

    fn undo_to(&mut self, mark: u64) -> Result<(), Stop> {
        match try_undo_to(&mut self.store, self.count, mark) {
            Ok(()) => {
                let answer = Ok(());
                self.log = self.log.then(&Note::UndoTo(mark, &answer));
                self.count += 1;
                answer
            }
            Err(stop) => {
                let answer = Err(stop);
                self.log = self.log.then(&Note::UndoTo(mark, &answer));
                self.runs = runs_behind(stop, self.runs);
                answer
            }
        }
    }
}

impl BlockCalls for Keeper {
    fn begin(&mut self, age: Option<u64>) -> Result<u64, Stop> {
        match try_begin(&mut self.store, self.number) {
            Ok(number) => {
                let answer = Ok(number);
                self.log = self.log.then(&Note::Begin(age, &answer));
                self.number = number;
                self.count = 0;
                self.runs = true;
                answer
            }
            Err(stop) => {
                let answer = Err(stop);
                self.log = self.log.then(&Note::Begin(age, &answer));
                self.runs = runs_behind(stop, self.runs);
                answer
            }
        }
    }

    fn commit(&mut self) -> Result<(), Stop> {
        match try_commit(&mut self.store) {
            Ok(()) => {
                let answer = Ok(());
                self.log = self.log.then(&Note::Commit(&answer));
                self.runs = false;
                answer
            }
            Err(stop) => {
                let answer = Err(stop);
                self.log = self.log.then(&Note::Commit(&answer));
                self.runs = runs_behind(stop, self.runs);
                answer
            }
        }
    }

    fn undo(&mut self) -> Result<(), Stop> {
        if !self.runs {
            return Ok(());
        }
        match try_undo(&mut self.store) {
            Ok(()) => {
                let answer = Ok(());
                self.log = self.log.then(&Note::Undo(&answer));
                self.runs = false;
                answer
            }
            Err(stop) => {
                let answer = Err(stop);
                self.log = self.log.then(&Note::Undo(&answer));
                self.runs = runs_behind(stop, self.runs);
                answer
            }
        }
    }

    fn checkpoint(&mut self) -> Result<u64, Stop> {
        let answer = Err(Stop::OutOfMemory);
        self.log = self.log.then(&Note::Checkpoint(&answer));
        answer
    }
}
