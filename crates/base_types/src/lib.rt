//! What every layer shares: the two errors of an object outside and of memory, lists that contracts see as their
//! elements alone, and copies that may fail.
#![tactic(auto)]

mod items;

pub use items::{Items, TryCopy};
use std::alloc::{AllocError, AllocFailed};
use thiserror::Error;

/// A source, a sink or a disk failed. Its count of faults rose in the call that returns this.
#[derive(Clone, Copy, Debug, PartialEq, Eq, Error)]
#[error("the device failed")]
pub struct Failed;

/// No memory was found. The one error that no contract ties to a cause.
#[derive(Clone, Copy, Debug, PartialEq, Eq, Error)]
#[error("out of memory")]
pub struct OutOfMemory;

impl From<AllocError> for OutOfMemory {
    fn from(_: AllocError) -> OutOfMemory {
        OutOfMemory
    }
}

impl<T: Drop> From<AllocFailed<T>> for OutOfMemory {
    fn from(_: AllocFailed<T>) -> OutOfMemory {
        OutOfMemory
    }
}
