use thiserror::Error;

/// What a checkpoint writes: so many images, as the base of this generation.
#[derive(Clone, Copy, Debug, PartialEq, Eq)]
pub struct CkptPlan {
    pub generation: u64,
    pub count: u32,
}

/// Why a checkpoint doesn't start.
#[derive(Clone, Copy, Debug, PartialEq, Eq, Error)]
pub enum CkptFault {
    /// A transaction from before the last checkpoint still runs: the oldest is this one.
    #[error("transaction {oldest} runs since before the last checkpoint")]
    Busy { oldest: u64 },
    /// So many checkpoints have started since the database was opened.
    #[error("{limit} checkpoints have started")]
    Spent { limit: u64 },
}

/// A lane isn't forced as far as a checkpoint's copies go: the least such lane, how many of its batches are
/// forced, and how many have to be.
#[derive(Clone, Copy, Debug, PartialEq, Eq, Error)]
#[error("lane {lane} is forced up to batch {forced}, and {wanted} is wanted")]
pub struct Unforced {
    pub lane: u16,
    pub forced: u64,
    pub wanted: u64,
}
