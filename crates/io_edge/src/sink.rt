ghost use Rattle.std.specs.Prelude.{ℕ, List, Option};
ghost use Rattle.base_types.specs.Causes.{HasCause};
ghost use Rattle.io_edge.specs.Pushing.{Pushes};

use crate::Failed;

/// Where a program writes to.
pub trait Sink {
    /// The bytes that it took, where they are known. Those of standard output aren't.
    ghost taken: { Self → Option (List ℕ) };

    /// How many calls have failed. The count stands still at `u64::MAX`.
    ghost faults: { Self → ℕ };

    /// Takes all of `bytes`. `Failed` has taken a front of them.
    fn push(&mut self, bytes: &[u8]) -> Result<(), Failed>
        ensures takes { Pushes (taken self.old) bytes.now result (taken self.new) }
        ensures cause { HasCause (faults self.old) (faults self.new) result };
}
