ghost use Rattle.std.specs.Prelude.{◌≡◌};

use crate::OutOfMemory;
use std::alloc::{AllocError, AllocFailed};
use thiserror::Error;

/// Why a statement doesn't fit the tables: the first name, kind or count that is wrong.
#[derive(Clone, Copy, Debug, PartialEq, Eq, Error)]
pub enum CheckFault {
    /// No table has the name.
    #[error("no such table")]
    NoTable,
    /// No column of the table has the name.
    #[error("no such column")]
    NoColumn,
    /// A whole number where a text is wanted, or the other way round.
    #[error("the wrong kind of value")]
    Kind,
    /// ORDER BY a column that isn't the key.
    #[error("rows are ordered by their key alone")]
    Order,
    /// UPDATE of the key.
    #[error("a key isn't changed")]
    KeyFixed,
    /// UPDATE of one column by two assignments.
    #[error("a column is changed twice")]
    Twice,
    /// A row of `given` values for a table of `wanted` columns.
    #[error("{given} values for {wanted} columns")]
    Count { given: u64, wanted: u64 },
    /// A text of up to `given` bytes for a column of at most `limit`.
    #[error("{given} bytes for a text of at most {limit}")]
    Length { given: u64, limit: u64 },
    #[error("out of memory")]
    OutOfMemory,
}

impl From<OutOfMemory> for CheckFault {
    ghost use Rattle.sql_check.specs.declared.fault.CheckFault.TheVariants.{OutOfMemory as NoMemory};

    ghost from_gives = { λ _ fault. fault ≡ NoMemory };

    fn from(_: OutOfMemory) -> CheckFault {
        CheckFault::OutOfMemory
    }
}

impl From<AllocError> for CheckFault {
    ghost use Rattle.sql_check.specs.declared.fault.CheckFault.TheVariants.{OutOfMemory as NoMemory};

    ghost from_gives = { λ _ fault. fault ≡ NoMemory };

    fn from(_: AllocError) -> CheckFault {
        CheckFault::OutOfMemory
    }
}

impl<T: Drop> From<AllocFailed<T>> for CheckFault {
    ghost use Rattle.sql_check.specs.declared.fault.CheckFault.TheVariants.{OutOfMemory as NoMemory};

    ghost from_gives = { λ _ fault. fault ≡ NoMemory };

    fn from(_: AllocFailed<T>) -> CheckFault {
        CheckFault::OutOfMemory
    }
}
