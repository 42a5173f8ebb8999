// Why a log file isn't opened.
ghost use Rattle.std.specs.Prelude.{◌≡◌};
ghost use Rattle.lane_format.specs.Writer.{even_file};
ghost use Rattle.list_store.specs.Faults.{opening_fault, writing_fault};
ghost use Rattle.list_store.specs.declared.fault.OpenFault.TheVariants as faults;

use crate::OutOfMemory;
use disk_core::{Failed, FileName};
use lane_format::{LaneFault, LaneReadFault};
use thiserror::Error;

/// The log file.
pub(crate) const LOG_FILE: FileName = FileName::Lane {
    lane: 0,
    odd: false,
};

/// Why a log file isn't opened.
#[derive(Clone, Copy, Debug, PartialEq, Eq, Error)]
pub enum OpenFault {
    /// The disk of this file failed.
    #[error("{file} failed")]
    Disk { file: FileName },
    /// The file is open, and from this place on it isn't the log of changes of these tables.
    #[error("{file} is damaged at {at}")]
    Damaged { file: FileName, at: u64 },
    #[error("out of memory")]
    OutOfMemory,
}

impl From<Failed> for OpenFault {
    ghost from_gives = { λ _ e. e ≡ faults.Disk (even_file 0) };

    fn from(_: Failed) -> OpenFault {
        OpenFault::Disk { file: LOG_FILE }
    }
}

impl From<OutOfMemory> for OpenFault {
    ghost from_gives = { λ _ e. e ≡ faults.OutOfMemory };

    fn from(_: OutOfMemory) -> OpenFault {
        OpenFault::OutOfMemory
    }
}

impl From<LaneReadFault> for OpenFault {
    ghost from_gives = { λ fault e. e ≡ opening_fault fault };

    fn from(fault: LaneReadFault) -> OpenFault {
        match fault {
            LaneReadFault::Disk { file } => OpenFault::Disk { file },
            LaneReadFault::Damaged { file, at } => OpenFault::Damaged { file, at },
            LaneReadFault::OutOfMemory => OpenFault::OutOfMemory,
        }
    }
}

impl From<LaneFault> for OpenFault {
    ghost from_gives = { λ fault e. e ≡ writing_fault fault };

    fn from(fault: LaneFault) -> OpenFault {
        match fault {
            LaneFault::Disk { file } | LaneFault::Closed { file } => OpenFault::Disk { file },
        }
    }
}

/// The log file is damaged from this place on.
pub(crate) fn damaged(at: u64) -> OpenFault
    ensures { result ≡ faults.Damaged (even_file 0) at }
{
    OpenFault::Damaged { file: LOG_FILE, at }
}
