ghost use Rattle.std.specs.Prelude.{◌≡◌};

use crate::OutOfMemory;
use std::alloc::{AllocError, AllocFailed};
use thiserror::Error;

/// Why a text isn't read as a statement.
#[derive(Clone, Copy, Debug, PartialEq, Eq, Error)]
pub enum ParseFault {
    /// The first place of the script from which on no statement continues.
    #[error("no statement at {at}")]
    Syntax { at: u64 },
    #[error("out of memory")]
    OutOfMemory,
}

impl From<OutOfMemory> for ParseFault {
    ghost use Rattle.sql_parse.specs.declared.fault.ParseFault.TheVariants.{OutOfMemory as NoMemory};

    ghost from_gives = { λ _ fault. fault ≡ NoMemory };

    fn from(_: OutOfMemory) -> ParseFault {
        ParseFault::OutOfMemory
    }
}

impl From<AllocError> for ParseFault {
    ghost use Rattle.sql_parse.specs.declared.fault.ParseFault.TheVariants.{OutOfMemory as NoMemory};

    ghost from_gives = { λ _ fault. fault ≡ NoMemory };

    fn from(_: AllocError) -> ParseFault {
        ParseFault::OutOfMemory
    }
}

impl<T: Drop> From<AllocFailed<T>> for ParseFault {
    ghost use Rattle.sql_parse.specs.declared.fault.ParseFault.TheVariants.{OutOfMemory as NoMemory};

    ghost from_gives = { λ _ fault. fault ≡ NoMemory };

    fn from(_: AllocFailed<T>) -> ParseFault {
        ParseFault::OutOfMemory
    }
}
