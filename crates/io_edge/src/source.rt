ghost use Rattle.std.specs.Prelude.{◌≡◌, ℕ, ◌≤◌, Bool, is_err, length, Option, IfOk};
ghost use Rattle.base_types.specs.Causes.{HasCause};
ghost use Rattle.io_edge.specs.Content.{Content, Pulls};

use crate::Failed;

/// Where a program reads from.
pub trait Source {
    /// What it has given and has left, where its content is known. That of standard input isn't.
    ghost content: { Self → Option Content };

    /// How many calls have failed. The count stands still at `u64::MAX`.
    ghost faults: { Self → ℕ };

    /// Whether the latest call failed.
    ghost failed: { Self → Bool };

    /// Puts the next bytes at the front of `into` and returns how many. For an `into` that isn't empty 0
    /// means the end. `Failed` gives nothing, and the next call continues where this one stood.
    fn pull(&mut self, into: &mut [u8]) -> Result<usize, Failed>
        ensures bound { IfOk result (λ n. n ≤ length into.new) }
        ensures gives { Pulls (content self.old) result into.new (content self.new) }
        ensures cause { HasCause (faults self.old) (faults self.new) result }
        ensures failed { failed self.new ≡ is_err result };
}
