use disk_core::FileName;
use thiserror::Error;

/// Why a call of the writer isn't done.
#[derive(Clone, Copy, Debug, PartialEq, Eq, Error)]
pub enum AreaFault {
    /// The disk of this file failed in this call. The file isn't an area then, but perhaps after `open_gate`.
    #[error("{file} failed")]
    Disk { file: FileName },
    /// The disk of this file failed in an earlier call, and no disk was called.
    #[error("{file} failed before")]
    Closed { file: FileName },
}
