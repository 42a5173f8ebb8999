// A change of a table's rows.
ghost use Rattle.std.specs.Prelude.{◌≡◌};
ghost use Rattle.op_log.specs.declared.change.ChangeFault.TheVariants.{OutOfMemory as NoMemory};

use row_types::Row;
use thiserror::Error;

/// What a log keeps of one change of a table's rows.
#[derive(Debug, Drop)]
pub enum RowChange {
    /// The row of its key was set to this one.
    Put { table: u16, row: Row },
    /// The row whose key column has this number was taken away.
    Del { table: u16, number: i64 },
}

/// Why no change is read at the front of bytes.
#[derive(Clone, Copy, Debug, PartialEq, Eq, Error)]
pub enum ChangeFault {
    /// They begin with no change of a row of these tables.
    #[error("no change of a row")]
    BadChange,
    #[error("out of memory")]
    OutOfMemory,
}

impl From<crate::OutOfMemory> for ChangeFault {
    ghost from_gives = { λ _ e. e ≡ NoMemory };

    fn from(_: crate::OutOfMemory) -> ChangeFault {
        ChangeFault::OutOfMemory
    }
}
