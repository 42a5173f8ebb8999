ghost use Rattle.std.specs.Prelude.{◌≡◌};

use crate::OutOfMemory;
use std::alloc::{AllocError, AllocFailed};
use thiserror::Error;

/// Why a text isn't read as a script.
#[derive(Clone, Copy, Debug, PartialEq, Eq, Error)]
pub enum ScriptFault {
    /// The text is no script, and this is the first place at which it isn't.
    #[error("no script at {at}")]
    BadScript { at: u64 },
    #[error("out of memory")]
    OutOfMemory,
}

impl From<OutOfMemory> for ScriptFault {
    ghost use Rattle.script.specs.declared.fault.ScriptFault.TheVariants.{OutOfMemory as NoMemory};

    ghost from_gives = { λ _ fault. fault ≡ NoMemory };

    fn from(_: OutOfMemory) -> ScriptFault {
        ScriptFault::OutOfMemory
    }
}
