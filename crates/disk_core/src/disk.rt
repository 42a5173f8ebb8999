ghost use Rattle.std.specs.Prelude.{◌≡◌, ℕ, ◌+◌, ◌≤◌, List, [], ◌∷◌, length, Option, OnOk};
ghost use Rattle.std.specs.Option.{ForSome};
ghost use Rattle.base_types.specs.Causes.{HasCause};
ghost use Rattle.disk_core.specs.ChangeCalls.{CallMade, Made, SyncCall, WriteCall};
ghost use Rattle.disk_core.specs.Crash.{Elapses, Follows, NoneNew, NothingPending, Tears};
ghost use Rattle.disk_core.specs.Device.{Measures, Reads, Writes};

use crate::Failed;

/// A file that is read and written at places. A crash leaves one of the images that it may leave at that
/// moment.
pub trait Disk {
    /// The bytes that a read gives, where they are known. Those of a file of the system aren't.
    ghost content: { Self → Option (List ℕ) };

    /// Each image that a crash at this moment may leave.
    ghost may_leave: { Self → List ℕ → Type 0 };

    /// The moment, as a number that doesn't fall.
    ghost moment: { Self → ℕ };

    /// Each image that a crash at some moment from that one on may have left, during a call or between two.
    ghost left_since: { Self → ℕ → List ℕ → Type 0 };

    /// How many calls have failed. The count stands still at `u64::MAX`.
    ghost faults: { Self → ℕ };

    /// The calls of `write_at` and `sync` so far, the latest first, where they are known.
    ghost calls: { Self → Option (List CallMade) };

    /// How many bytes there are.
    fn size(&mut self) -> Result<u64, Failed>
        ensures size { Measures (content self.old) result }
        ensures same { content self.new ≡ content self.old }
        ensures calls { calls self.new ≡ calls self.old }
        ensures crash { NoneNew (may_leave self.old) (may_leave self.new) }
        ensures time { Elapses (moment self.old) (moment self.new)
            (left_since self.old) (left_since self.new) (may_leave self.new) }
        ensures cause { HasCause (faults self.old) (faults self.new) result };

    /// Fills `into` with the bytes from `at` on, all of which have to be there.
    fn read_at(&mut self, at: u64, into: &mut [u8]) -> Result<(), Failed>
        requires { ForSome (content self.old) (λ bytes. at + length into.old ≤ length bytes) }
        ensures bytes { Reads (content self.old) at result into.new }
        ensures same { content self.new ≡ content self.old }
        ensures calls { calls self.new ≡ calls self.old }
        ensures crash { NoneNew (may_leave self.old) (may_leave self.new) }
        ensures time { Elapses (moment self.old) (moment self.new)
            (left_since self.old) (left_since self.new) (may_leave self.new) }
        ensures cause { HasCause (faults self.old) (faults self.new) result };

    /// Writes over what is there, and past the end. It begins at most at the end. Where it fails, any
    /// bytes may stand in the range. Until a sync a crash may leave any bytes there too, but of a single byte
    /// that one or what stood there.
    fn write_at(&mut self, at: u64, bytes: &[u8]) -> Result<(), Failed>
        requires { ForSome (content self.old) (λ old. at ≤ length old) }
        ensures written { Writes (content self.old) at bytes.now result (content self.new) }
        ensures calls { Made (WriteCall at bytes.now ∷ []) result (calls self.old) (calls self.new) }
        ensures crash { Follows (Tears at bytes.now) (may_leave self.old) (may_leave self.new) }
        ensures time { Elapses (moment self.old) (moment self.new)
            (left_since self.old) (left_since self.new) (may_leave self.new) }
        ensures cause { HasCause (faults self.old) (faults self.new) result };

    /// After it a crash leaves what a read gives.
    fn sync(&mut self) -> Result<(), Failed>
        ensures same { content self.new ≡ content self.old }
        ensures calls { Made (SyncCall ∷ []) result (calls self.old) (calls self.new) }
        ensures crash { NoneNew (may_leave self.old) (may_leave self.new) }
        ensures durable { OnOk result (NothingPending (content self.new) (may_leave self.new)) }
        ensures time { Elapses (moment self.old) (moment self.new)
            (left_since self.old) (left_since self.new) (may_leave self.new) }
        ensures cause { HasCause (faults self.old) (faults self.new) result };

    /// A crash now is one of those since an earlier moment.
    ghost counts_now: { (disk : Self) (t : ℕ) (image : List ℕ) →
        t ≤ moment disk → may_leave disk image → left_since disk t image };

    /// Since this moment there is no other.
    ghost only_now: { (disk : Self) (image : List ℕ) →
        left_since disk (moment disk) image → may_leave disk image };

    /// A crash may leave the disk as it reads.
    ghost leaves_as_read: { (disk : Self) → ForSome (content disk) (may_leave disk) };
}
