// The calls that a keeper was sent. They exist only in proofs.
ghost use Rattle.std.specs.Prelude.{◌≡◌, List, []};
ghost use base.Fml.{ftrue};
ghost use Rattle.plain_model.specs.Calls.{Call};

use key_space::{Key, LockName, Mode, Range};
use op_log::RowChange;
use plain_model::{RowPiece, Stop};
use row_types::{Items, Row};
use std::marker::Model;

/// The calls so far, the latest first. It takes no memory.
#[derive(Drop)]
pub struct CallLog {
    pub ghost calls: { List Call },
}

impl Model for CallLog {
    ghost also_owns = { λ _. ftrue };
}

/// A call with its answer.
#[derive(Clone, Copy, Drop)]
pub enum Note<'a> {
    Lock(LockName, Mode, &'a Result<(), Stop>),
    /// It is noted only where it gave a stop.
    Mark(&'a Result<u64, Stop>),
    Get(u16, Key, &'a Result<Option<Row>, Stop>),
    Chunk(u16, Range, &'a Result<RowPiece, Stop>),
    Put(u16, &'a Row, &'a Result<(), Stop>),
    Del(u16, Key, &'a Result<bool, Stop>),
    UndoTo(u64, &'a Result<(), Stop>),
    Begin(Option<u64>, &'a Result<u64, Stop>),
    Commit(&'a Result<(), Stop>),
    Undo(&'a Result<(), Stop>),
    Checkpoint(&'a Result<u64, Stop>),
}

impl CallLog {
    ghost use Rattle.call_log.specs.Noted.{noted};
    ghost use Rattle.call_log.specs.History.{with_forced, with_loaded};

    /// No calls.
    pub fn new() -> CallLog
        ensures { result.calls ≡ [] }
    {
        CallLog {}
    }

    /// The calls after one more.
    #[inline(always)]
    pub fn then(&self, _note: &Note<'_>) -> CallLog
        ensures { result.calls ≡ noted self.now.calls _note.now }
    {
        CallLog {}
    }

    /// The calls after a transaction that did nothing and was undone: a log file holds all that was committed
    /// before.
    #[inline(always)]
    pub fn forced(&self) -> CallLog
        ensures { result.calls ≡ with_forced self.now.calls }
    {
        let begun = self.then(&Note::Begin(None, &Ok(0)));
        begun.then(&Note::Undo(&Ok(())))
    }

    /// The calls after a transaction that has made a batch of a log file.
    #[inline(always)]
    pub fn loaded(&self, _batch: &Items<RowChange>) -> CallLog
        ensures { result.calls ≡ with_loaded self.now.calls _batch.now }
    {
        CallLog {}
    }
}
