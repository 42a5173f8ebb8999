// Why a batch of the log isn't loaded.
use crate::OutOfMemory;
use thiserror::Error;

/// Why a batch of the log isn't loaded.
#[derive(Clone, Copy, Debug, PartialEq, Eq, Error)]
pub enum LoadFault {
    /// The change of this number, counted from 0, takes a row away that isn't there.
    #[error("change {index} takes a row away that isn't there")]
    NoRow { index: usize },
    #[error("out of memory")]
    OutOfMemory,
}

impl From<OutOfMemory> for LoadFault {
    ghost use Rattle.std.specs.Prelude.{◌≡◌};
    ghost use Rattle.list_keeper.specs.declared.fault.LoadFault.TheVariants.{OutOfMemory as NoMemory};

    ghost from_gives = { λ _ e. e ≡ NoMemory };

    fn from(_: OutOfMemory) -> LoadFault {
        LoadFault::OutOfMemory
    }
}
