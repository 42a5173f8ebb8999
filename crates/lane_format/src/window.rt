// A piece of a file that is read from its front to its end, so that many small reads make few calls of its
// disk.
use disk_core::{Disk, Failed};

/// How many bytes are read at a time.
const PIECE: usize = 8192;

/// The bytes of a file from `at` on, as many as were read.
#[derive(Drop)]
pub(crate) struct Window {
    at: u64,
    len: usize,
    bytes: [u8; PIECE],
}

impl Window {
    ghost use Rattle.std.specs.Prelude.{◌≡◌, ◌+◌, ◌≤◌, ℕ, length, OnOk};
    ghost use Rattle.std.specs.Option.{ForSome};
    ghost use Rattle.base_types.specs.Causes.{HasCause};
    ghost use Rattle.disk_core.specs.Device.{Reads};
    ghost use Rattle.disk_core.specs.Moments.{OnlyReads};
    ghost use Rattle.lane_format.specs.Windows.{Covers, IsWindow};

    /// Of no bytes.
    pub(crate) fn new() -> Window
        ensures { result.len ≡ 0 }
    {
        Window {
            at: 0,
            len: 0,
            bytes: [0; PIECE],
        }
    }

    /// Fills `into` with the bytes of the file from `at` on. A read that isn't longer than a window goes
    /// through it.
    pub(crate) fn fetch<D: Disk>(
        &mut self,
        disk: &mut D,
        size: u64,
        at: u64,
        into: &mut [u8],
    ) -> Result<(), Failed>
        requires size { ForSome (D.content disk.old) (λ bytes. size ≡ length bytes) }
        requires inside { at + length into.old ≤ size }
        requires window { IsWindow (D.content disk.old) self.old }
        ensures bytes { Reads (D.content disk.old) at result into.new }
        ensures window { OnOk result (IsWindow (D.content disk.old) self.new) }
        ensures only_reads { OnlyReads D.Disk disk.old disk.new }
        ensures cause { HasCause (D.faults disk.old) (D.faults disk.new) result }
    {
        let n = into.len();
        if n > PIECE {
            return disk.read_at(at, into);
        }
        self.reach(disk, size, at, n)?;
        let from = (at - self.at) as usize;
        into.copy_from_slice(&self.bytes[from..from + n]);
        Ok(())
    }

    /// Has the next n bytes from `at` on in the window.
    fn reach<D: Disk>(&mut self, disk: &mut D, size: u64, at: u64, n: usize) -> Result<(), Failed>
        requires size { ForSome (D.content disk.old) (λ bytes. size ≡ length bytes) }
        requires inside { at + n ≤ size }
        requires few { n ≤ PIECE }
        requires window { IsWindow (D.content disk.old) self.old }
        ensures covers { OnOk result (Covers at n self.new) }
        ensures window { OnOk result (IsWindow (D.content disk.old) self.new) }
        ensures only_reads { OnlyReads D.Disk disk.old disk.new }
        ensures cause { HasCause (D.faults disk.old) (D.faults disk.new) result }
    {
        if self.at <= at && at - self.at + n as u64 <= self.len as u64 {
            return Ok(());
        }
        self.fill(disk, size, at)
    }

    /// Reads the file from `at` on, as far as the window and the file go.
    fn fill<D: Disk>(&mut self, disk: &mut D, size: u64, at: u64) -> Result<(), Failed>
        requires size { ForSome (D.content disk.old) (λ bytes. size ≡ length bytes) }
        requires inside { at ≤ size }
        ensures covers { OnOk result ((n : ℕ) → at + n ≤ size → n ≤ PIECE → Covers at n self.new) }
        ensures window { OnOk result (IsWindow (D.content disk.old) self.new) }
        ensures only_reads { OnlyReads D.Disk disk.old disk.new }
        ensures cause { HasCause (D.faults disk.old) (D.faults disk.new) result }
    {
        let len = (size - at).min(PIECE as u64) as usize;
        self.at = at;
        self.len = len;
        disk.read_at(at, &mut self.bytes[..len])
    }
}
