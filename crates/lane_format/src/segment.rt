use crate::FileName;
use base_types::Items;
use thiserror::Error;

/// A batch of a lane file: the place at which its body begins, and the body.
#[derive(Debug, Drop)]
pub struct Batch {
    pub at: u64,
    pub body: Items<u8>,
}

/// What an open lane file holds: its generation, and its batches in their order.
#[derive(Debug, Drop)]
pub struct Segment {
    pub generation: u64,
    pub batches: Items<Batch>,
}

/// Why a lane file isn't read.
#[derive(Clone, Copy, Debug, PartialEq, Eq, Error)]
pub enum LaneReadFault {
    /// The disk of this file failed in this call.
    #[error("{file} failed")]
    Disk { file: FileName },
    /// The file is open, and from this place on it isn't what a lane file holds.
    #[error("{file} is damaged at {at}")]
    Damaged { file: FileName, at: u64 },
    #[error("out of memory")]
    OutOfMemory,
}
