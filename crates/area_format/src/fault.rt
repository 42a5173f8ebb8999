ghost use Rattle.std.specs.Prelude.{◌≡◌};
ghost use Rattle.area_format.specs.declared.fault.AreaReadFault.TheVariants as fault;

use base_types::OutOfMemory;
use disk_core::Failed;
use std::alloc::AllocError;
use thiserror::Error;

/// Why an area isn't read.
#[derive(Clone, Copy, Debug, PartialEq, Eq, Error)]
pub enum AreaReadFault {
    /// The disk failed in this call.
    #[error("the disk failed")]
    Disk,
    /// The file is open, and at this place it breaks the first rule of an area that it breaks.
    #[error("damaged at {at}")]
    Damaged { at: u64 },
    #[error("out of memory")]
    OutOfMemory,
}

impl From<Failed> for AreaReadFault {
    ghost from_gives = { λ _ e. e ≡ fault.Disk };

    fn from(_: Failed) -> AreaReadFault {
        AreaReadFault::Disk
    }
}

impl From<AllocError> for AreaReadFault {
    ghost from_gives = { λ _ e. e ≡ fault.OutOfMemory };

    fn from(_: AllocError) -> AreaReadFault {
        AreaReadFault::OutOfMemory
    }
}

impl From<OutOfMemory> for AreaReadFault {
    ghost from_gives = { λ _ e. e ≡ fault.OutOfMemory };

    fn from(_: OutOfMemory) -> AreaReadFault {
        AreaReadFault::OutOfMemory
    }
}
