// Stops that a keeper gives where a test wants them, and the calls that it was sent.
ghost use Rattle.std.specs.Prelude.{ℕ, List, Option};
ghost use Rattle.row_types.specs.declared.row.Value.{Value};
ghost use Rattle.key_space.specs.declared.lock.LockName.{LockName};
ghost use Rattle.key_space.specs.declared.lock.Mode.{Mode};
ghost use Rattle.plain_model.specs.Calls.{Asked, AskBegin, AskDel, AskLock, AskPut, MayGive};

use plain_model::{Resource, Stop};
use std::alloc::Global;

/// A kind of call.
#[derive(Clone, Copy, Debug, PartialEq, Eq, Drop)]
pub enum Kind {
    Begin,
    Lock,
    Mark,
    Get,
    Chunk,
    Put,
    Del,
    UndoTo,
    Commit,
    Undo,
}

/// The stop that the call of a kind gives which comes after `left` others of this kind.
#[derive(Clone, Copy, Debug, Drop)]
pub struct Switch {
    pub kind: Kind,
    pub left: u64,
    pub stop: Stop,
}

/// The calls so far, and the stop that is still to be given.
#[derive(Drop)]
pub struct Switches {
    made: Vec<Kind>,
    switch: Option<Switch>,
}

/// A stop that any call may give: out of memory in place of one that not every call gives.
pub fn stop_of_any(stop: Stop) -> Stop
    ensures { (asked : Asked) → MayGive asked result }
{
    match stop {
        Stop::Fault { file } => Stop::Fault { file },
        Stop::Spent { limit } => Stop::Spent { limit },
        Stop::Refused(_) => Stop::OutOfMemory,
        Stop::Die { .. } => Stop::OutOfMemory,
        Stop::OutOfMemory => Stop::OutOfMemory,
    }
}

/// A stop that a lock may give.
pub fn stop_of_lock(stop: Stop) -> Stop
    ensures { (name : LockName) (mode : Mode) → MayGive (AskLock name mode) result }
{
    match stop {
        Stop::Refused(Resource::Locks { held, limit }) => {
            Stop::Refused(Resource::Locks { held, limit })
        }
        Stop::Die { holder } => Stop::Die { holder },
        _ => stop_of_any(stop),
    }
}

/// A stop that a put may give.
pub fn stop_of_put(stop: Stop) -> Stop
    ensures { (table : ℕ) (row : List Value) → MayGive (AskPut table row) result }
{
    match stop {
        Stop::Refused(Resource::Pages { used, limit }) => {
            Stop::Refused(Resource::Pages { used, limit })
        }
        Stop::Refused(Resource::Nodes { used, limit }) => {
            Stop::Refused(Resource::Nodes { used, limit })
        }
        Stop::Refused(Resource::Txn { used, limit }) => {
            Stop::Refused(Resource::Txn { used, limit })
        }
        _ => stop_of_any(stop),
    }
}

/// A stop that a del may give.
pub fn stop_of_del(stop: Stop) -> Stop
    ensures { (table key : ℕ) → MayGive (AskDel table key) result }
{
    match stop {
        Stop::Refused(Resource::Txn { used, limit }) => {
            Stop::Refused(Resource::Txn { used, limit })
        }
        _ => stop_of_any(stop),
    }
}

/// A stop that a begin may give.
pub fn stop_of_begin(stop: Stop) -> Stop
    ensures { (age : Option ℕ) → MayGive (AskBegin age) result }
{
    match stop {
        Stop::Refused(Resource::LogFull { bytes, limit }) => {
            Stop::Refused(Resource::LogFull { bytes, limit })
        }
        _ => stop_of_any(stop),
    }
}

impl Switches {
    /// No calls, and no stop.
    pub fn new(alloc: Global) -> Switches {
        Switches {
            made: Vec::new(alloc),
            switch: None,
        }
    }

    /// From now on the calls are counted anew, and this stop is to be given.
    pub fn set(&mut self, switch: Option<Switch>) {
        self.made.clear();
        self.switch = switch;
    }

    /// The calls so far, the first first.
    pub fn made(&self) -> &[Kind] {
        self.made.as_slice()
    }

    /// Adds a call of a kind, and returns the stop that it is to give.
    pub fn stop_at(&mut self, kind: Kind) -> Option<Stop> {
        if self.made.push(kind).is_err() {
            return Some(Stop::OutOfMemory);
        }
        let switch = self.switch?;
        if switch.kind != kind {
            return None;
        }
        if switch.left > 0 {
            self.switch = Some(Switch {
                left: switch.left - 1,
                ..switch
            });
            return None;
        }
        self.switch = None;
        Some(switch.stop)
    }
}
