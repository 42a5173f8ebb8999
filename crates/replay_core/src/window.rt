// A piece of a file that is read from its front to its end, in memory that is taken once.
use crate::OutOfMemory;
use lane_format::{Disk, Failed};
use std::alloc::Global;

/// How many bytes of the file are there at a time.
const PIECE: usize = 65_536;

/// The bytes of a file from `at` on, as many as were read.
#[derive(Drop)]
pub(crate) struct Window {
    at: u64,
    len: usize,
    bytes: Vec<u8>,
}

impl Window {
    ghost use Rattle.std.specs.Prelude.{◌≡◌, ◌+◌, ◌-◌, ◌≤◌, ℕ, List, Option, length, IsTrue, OnOk, IfOk, take, drop};
    ghost use Rattle.std.specs.Option.{ForSome};
    ghost use Rattle.base_types.specs.Causes.{HasCause};
    ghost use Rattle.disk_core.specs.Moments.{OnlyReads};
    ghost use Rattle.replay_core.specs.Windows.{Covers, IsWindow};

    /// Of no bytes.
    pub(crate) fn new(alloc: Global) -> Result<Window, OutOfMemory>
        ensures { IfOk result (λ window. (content : Option (List ℕ)) (size : ℕ) → IsWindow content size window) }
    {
        let bytes = vec![in alloc; 0u8; PIECE]?;
        Ok(Window {
            at: 0,
            len: 0,
            bytes,
        })
    }

    /// Has the next n bytes from `at` on.
    pub(crate) fn reach<D: Disk>(
        &mut self,
        disk: &mut D,
        size: u64,
        at: u64,
        n: usize,
    ) -> Result<(), Failed>
        requires size { ForSome (D.content disk.old) (λ bytes. size ≡ length bytes) }
        requires inside { at + n ≤ size }
        requires few { n ≤ 65536 }
        requires window { IsWindow (D.content disk.old) size self.old }
        ensures covers { OnOk result (Covers at n self.new) }
        ensures window { IsWindow (D.content disk.old) size self.new }
        ensures only_reads { OnlyReads D.Disk disk.old disk.new }
        ensures cause { HasCause (D.faults disk.old) (D.faults disk.new) result }
    {
        if self.covers(at, n) {
            return Ok(());
        }
        self.slide(at);
        self.fill(disk, size)
    }

    /// The n bytes from `at` on.
    pub(crate) fn bytes(&self, at: u64, n: usize) -> &[u8]
        requires covers { Covers at n self.now }
        requires room { self.now.len ≤ length self.now.bytes.items }
        ensures piece { result.now ≡ take n (drop (at - self.now.at) self.now.bytes.items) }
        ensures len { length result.now ≡ n }
    {
        let from = (at - self.at) as usize;
        &self.bytes[from..from + n]
    }

    /// Whether the n bytes from `at` on are there.
    fn covers(&self, at: u64, n: usize) -> bool
        requires { n ≤ 65536 }
        ensures { IsTrue result → Covers at n self.now }
    {
        self.at <= at
            && at - self.at <= self.len as u64
            && n as u64 <= self.len as u64 - (at - self.at)
    }

    /// Begins at `at`, with the bytes from there on that it had.
    fn slide(&mut self, at: u64)
        requires { self.old.len ≤ length self.old.bytes.items }
        ensures at { self.new.at ≡ at }
        ensures window { (content : Option (List ℕ)) (size : ℕ) → at ≤ size
            → IsWindow content size self.old → IsWindow content size self.new }
    {
        let len = self.len;
        if at < self.at || at - self.at > len as u64 {
            self.at = at;
            self.len = 0;
            return;
        }
        let from = (at - self.at) as usize;
        self.bytes.copy_within(from..len, 0);
        self.at = at;
        self.len = len - from;
    }

    /// Reads on, as far as the window and the file go.
    fn fill<D: Disk>(&mut self, disk: &mut D, size: u64) -> Result<(), Failed>
        requires size { ForSome (D.content disk.old) (λ bytes. size ≡ length bytes) }
        requires window { IsWindow (D.content disk.old) size self.old }
        ensures covers { OnOk result ((n : ℕ) → self.old.at + n ≤ size → n ≤ 65536
            → Covers self.old.at n self.new) }
        ensures window { IsWindow (D.content disk.old) size self.new }
        ensures only_reads { OnlyReads D.Disk disk.old disk.new }
        ensures cause { HasCause (D.faults disk.old) (D.faults disk.new) result }
    {
        let from = self.len;
        let len = (size - self.at).min(PIECE as u64) as usize;
        disk.read_at(self.at + from as u64, &mut self.bytes[from..len])?;
        self.len = len;
        Ok(())
    }
}
