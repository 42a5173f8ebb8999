// What the history of a value means.

/// A value whose changes are entries of a history.
///
/// The trait has no call: its two ghost members are for contracts alone.
pub trait Told: Drop {
    ghost use Rattle.std.specs.Prelude.{ℕ, List, Option};

    /// One change of the value.
    type Entry;

    // The entries, in order, lead from the first value to the second.
    ghost leads: { Self → List Self.Entry → Self → Type 0 };

    // The number of the one pass that may make the entry, or none where each may.
    ghost owner: { Self.Entry → Option ℕ };
}
