// Whether a transaction has begun.
use plain_model::Refusal;

/// Whether a transaction has begun.
#[derive(Drop)]
pub(crate) enum Begun {
    /// It has, and this is its age.
    Running { age: u64 },
    /// Something is spent, or the log is full.
    Refused(Refusal),
}
