// Why a call on rows isn't done.
ghost use Rattle.std.specs.Prelude.{◌≡◌};

use crate::OutOfMemory;
use disk_core::FileName;
use std::alloc::AllocFailed;

/// What the engine has only so much of, with how much is used and how much there is.
#[derive(Clone, Copy, Debug, PartialEq, Eq, Drop)]
pub enum Resource {
    /// Pages of all tables.
    Pages { used: u64, limit: u64 },
    /// Nodes of a table's index.
    Nodes { used: u64, limit: u64 },
    /// Bytes that a transaction may log.
    Txn { used: u64, limit: u64 },
    /// Locks that a transaction may hold.
    Locks { held: u64, limit: u64 },
    /// Bytes of a log file.
    LogFull { bytes: u64, limit: u64 },
    /// A checkpoint waits for the transaction with this number.
    Busy { oldest: u64 },
}

/// Why a call on rows isn't done.
#[derive(Clone, Copy, Debug, PartialEq, Eq, Drop)]
pub enum Stop {
    /// The call changed nothing, since something is used up.
    Refused(Resource),
    /// An older transaction holds a lock in the way; `holder` is the number of the session that it is of. The
    /// asking transaction is to be undone, and begun again with the same age.
    Die { holder: u16 },
    /// A device failed, at this file. Nothing is done from then on.
    Fault { file: FileName },
    /// As many transactions, checkpoints or turns as there may be were made. The transaction is undone.
    Spent { limit: u64 },
    /// There is no memory for it.
    OutOfMemory,
}

impl From<OutOfMemory> for Stop {
    ghost use Rattle.plain_model.specs.declared.stop.Stop.TheVariants.{OutOfMemory as NoMemory};

    ghost from_gives = { λ _ stop. stop ≡ NoMemory };

    fn from(_: OutOfMemory) -> Stop {
        Stop::OutOfMemory
    }
}

impl<T: Drop> From<AllocFailed<T>> for Stop {
    ghost use Rattle.plain_model.specs.declared.stop.Stop.TheVariants.{OutOfMemory as NoMemory};

    ghost from_gives = { λ _ stop. stop ≡ NoMemory };

    fn from(_: AllocFailed<T>) -> Stop {
        Stop::OutOfMemory
    }
}
