// A disk in memory, whose content and calls are known. It fails at the calls that are named.
ghost use Rattle.std.specs.Prelude.{◌≡◌, ◌⊎◌, ◌↔◌, ◌+◌, ◌<◌, ◌≤◌, List, ℕ, [], ◌∷◌, Some, length};
ghost use Rattle.std.specs.Prelude.{slice_index, vec_len, vec_capacity};
ghost use Rattle.std.specs.Prelude.{EachIndex, Contains, IsTrue, IsErr, IfOk, OnOk, OnErr};
ghost use Rattle.base_types.specs.Causes.{HasCause, one_more};
ghost use Rattle.disk_core.specs.ChangeCalls.{Made, SyncCall, WriteCall};
ghost use Rattle.disk_core.specs.Crash.{Elapses, Follows, NoneNew, Only, Tears};
ghost use Rattle.disk_core.specs.Device.{Measures, Reads, Writes, written};
ghost use Rattle.disk_core.specs.Places.{IsImage, choice_for, crashed_byte};
ghost use Rattle.disk_core.specs.Memory.{room_of, content_of, known_calls, synced_of, new_disk};
ghost use Rattle.disk_core.specs.Memory.{CrashLeaves, CrashLeftSince, after_read, after_write, after_sync};

use crate::history::{Entry, History};
use crate::tear::tear;
use crate::{Disk, Failed, OutOfMemory};
use std::alloc::Global;
use std::marker::Model;

/// A file in memory. All its memory is taken when it is made: a write of n bytes uses 2 * n + 64 of the room
/// that it was made with, and a sync 64. Its calls are known until one finds too little room.
#[derive(Drop)]
pub struct MemDisk {
    initial: Vec<u8>,
    synced: Vec<u8>,
    content: Vec<u8>,
    history: History,
    whole: bool,
    changes: Calls,
    reads: Calls,
    faults: u64,
}

impl Model for MemDisk {
    ghost use Rattle.std.specs.Prelude.{◌≡◌, ◌+◌, ◌*◌, ◌≤◌, vec_len, vec_capacity};
    ghost use Rattle.disk_core.specs.Memory.{MemoryView};
    ghost use Rattle.disk_core.specs.History.{content_after};
    ghost use Rattle.disk_core.specs.Places.{at_sync, BeginInside};

    ghost Value = { MemoryView };

    ghost view = { λ d. record {
      initial = d.initial.items;
      calls = d.history.calls;
      whole = d.whole;
      room = d.history.room;
      changes = d.changes.made;
      reads = d.reads.made;
      failing_changes = d.changes.failing.items;
      failing_reads = d.reads.failing.items;
      faults = d.faults;
    } };

    ghost invariant = { λ d. record {
      content : d.content.items ≡ content_after d.initial.items d.history.calls;
      synced : d.synced.items ≡ at_sync d.initial.items d.history.calls;
      inside : BeginInside d.initial.items d.history.calls;
      content_room : 2 * vec_len d.content + d.history.room ≤ 2 * vec_capacity d.content;
      synced_room : 2 * vec_len d.content + d.history.room ≤ 2 * vec_capacity d.synced;
      initial_room : 2 * vec_len d.content + d.history.room ≤ 2 * vec_capacity d.initial;
    } };
}

impl MemDisk {
    /// A disk with these bytes and `room` bytes for what its change calls keep. No call is named.
    pub fn new(alloc: Global, bytes: Vec<u8>, room: u64) -> Result<MemDisk, OutOfMemory>
        ensures { IfOk result (λ disk. disk ≡ new_disk bytes.items room) }
    {
        let mut content = bytes;
        content.reserve_exact(room.div_ceil(2) as usize)?;
        let mut initial = Vec::with_capacity(alloc, content.capacity())?;
        let mut synced = Vec::with_capacity(alloc, content.capacity())?;
        refill(&mut initial, &content);
        refill(&mut synced, &content);
        Ok(MemDisk {
            initial,
            synced,
            content,
            history: History::new(alloc, room)?,
            whole: true,
            changes: Calls::naming(Vec::new(alloc)),
            reads: Calls::naming(Vec::new(alloc)),
            faults: 0,
        })
    }

    /// Names the calls that return `Failed`, in place of those that were named before. The first call after
    /// this one is 1; `changes` counts the calls of `write_at` and `sync` together, `reads` those of `size`
    /// and `read_at`.
    pub fn failing(self, changes: Vec<u64>, reads: Vec<u64>) -> MemDisk
        ensures { result ≡ record self {
          changes = 0;
          reads = 0;
          failing_changes = changes.items;
          failing_reads = reads.items;
        } }
    {
        MemDisk {
            changes: Calls::naming(changes),
            reads: Calls::naming(reads),
            ..self
        }
    }

    /// What a read gives.
    pub fn bytes(&self) -> &[u8]
        ensures { result.now ≡ content_of self.now }
    {
        self.content.as_slice()
    }

    /// How many bytes a crash now leaves at least: as many as there were at the last sync. At most it leaves
    /// as many as there are.
    pub fn least_size(&self) -> u64
        ensures least { result ≡ length (synced_of self.now) }
        ensures most { result ≤ length (content_of self.now) }
        ensures each_image { (image : List ℕ) → CrashLeaves self.now image →
            (result ≤ length image) × (length image ≤ length (content_of self.now)) }
    {
        self.synced.as_slice().len() as u64
    }

    /// The disk that a crash leaves, of that size. In the order of their places, each byte that a write
    /// since the last sync has written takes the next byte of `choice`, which repeats, where a crash may
    /// leave that there, and else is what it was at the last sync, 0 past the end then. With an empty
    /// `choice` each byte is as a read gives it. The new disk has the room that was left.
    pub fn crash(mut self, choice: &[u8], size: u64) -> MemDisk
        requires least { length (synced_of self) ≤ size }
        requires most { size ≤ length (content_of self) }

        // It gives an image that a crash may leave, and each image of that size for some choice.
        ensures image { CrashLeaves self (content_of result) }
        ensures every_image { (image : List ℕ) → CrashLeaves self image → length image ≡ size →
            choice.now ≡ choice_for self.calls 0 image → content_of result ≡ image }

        // The images, told call by call, are those told place by place.
        ensures places { (image : List ℕ) →
            CrashLeaves self image ↔ IsImage self.initial self.calls image }

        ensures size { length (content_of result) ≡ size }
        ensures bytes { EachIndex (content_of result) (λ place. slice_index (content_of result) place
            ≡ crashed_byte (synced_of self) (content_of self) self.calls choice.now place) }
        ensures fresh { result ≡ new_disk (content_of result) self.room }
    {
        self.content.truncate(size as usize);
        tear(&mut self.content, &self.synced, &self.history, choice);
        refill(&mut self.initial, &self.content);
        refill(&mut self.synced, &self.content);
        self.history.forget();
        self.whole = true;
        self.changes.forget();
        self.reads.forget();
        self.faults = 0;
        self
    }
}

// Puts other bytes in place of those that are there.
fn refill(bytes: &mut Vec<u8>, with: &[u8])
    requires { length with.now ≤ vec_capacity bytes.old }
    ensures items { bytes.new.items ≡ with.now }
    ensures capacity { vec_capacity bytes.old ≤ vec_capacity bytes.new }
{
    bytes.clear();
    bytes.extend_from_slice(with).unwrap();
}

// Calls of one kind: how many there were, and which of them are to fail.
#[derive(Drop)]
struct Calls {
    made: u64,
    failing: Vec<u64>,
}

impl Calls {
    fn naming(failing: Vec<u64>) -> Calls
        ensures { result ≡ record { made = 0; failing = failing } }
    {
        Calls { made: 0, failing }
    }

    fn forget(&mut self)
        ensures made { self.new.made ≡ 0 }
        ensures failing { self.new.failing.items ≡ [] }
    {
        self.made = 0;
        self.failing.clear();
    }

    // Counts one more, and says whether it is to fail.
    fn count(&mut self) -> bool
        ensures named { IsTrue result ↔ Contains self.old.failing.items (one_more self.old.made) }
        ensures counted { self.new ≡ record self.old { made = one_more self.old.made } }
    {
        self.made = self.made.saturating_add(1);
        self.failing.contains(&self.made)
    }
}

fn fail(faults: &mut u64) -> Failed
    ensures { faults.new ≡ one_more faults.old }
{
    *faults = faults.saturating_add(1);
    Failed
}

// Writes over what is there, and past the end.
fn put(content: &mut Vec<u8>, at: usize, bytes: &[u8])
    requires inside { at ≤ vec_len content.old }
    requires fits { at + length bytes.now ≤ vec_capacity content.old }
    ensures written { content.new.items ≡ written at bytes.now content.old.items }
    ensures len { vec_len content.new ≤ vec_len content.old + length bytes.now }
    ensures capacity { vec_capacity content.old ≤ vec_capacity content.new }
{
    let over = bytes.len().min(content.len() - at);
    content[at..at + over].copy_from_slice(&bytes[..over]);
    content.extend_from_slice(&bytes[over..]).unwrap();
}

impl Disk for MemDisk {
    ghost use Rattle.std.specs.Prelude.{Some, length};
    ghost use Rattle.disk_core.specs.Memory.{content_of, known_calls, CrashLeaves, CrashLeftSince};
    ghost use Rattle.disk_core.specs.HistoryLaws.{as_read, now_since, since_now};

    ghost content = { λ d. Some (content_of d) };

    ghost may_leave = { CrashLeaves };

    ghost moment = { λ d. length d.calls };

    ghost left_since = { CrashLeftSince };

    ghost faults = { λ d. d.faults };

    ghost calls = { known_calls };

    ghost counts_now = { λ d t image le. now_since d.initial t d.calls image };

    ghost only_now = { λ d. since_now d.initial d.calls };

    ghost leaves_as_read = { λ d. as_read d.initial d.calls };

    fn size(&mut self) -> Result<u64, Failed>
        ensures size { Measures (Some (content_of self.old)) result }
        ensures same { content_of self.new ≡ content_of self.old }
        ensures calls { known_calls self.new ≡ known_calls self.old }
        ensures crash { NoneNew (CrashLeaves self.old) (CrashLeaves self.new) }
        ensures time { Elapses (length self.old.calls) (length self.new.calls)
            (CrashLeftSince self.old) (CrashLeftSince self.new) (CrashLeaves self.new) }
        ensures cause { HasCause self.old.faults self.new.faults result }

        // It fails exactly where it is named, and changes nothing but what is counted.
        ensures named { IsErr result ↔ Contains self.old.failing_reads (one_more self.old.reads) }
        ensures counted { self.new ≡ after_read result self.old }
    {
        if self.reads.count() {
            return Err(fail(&mut self.faults));
        }
        Ok(self.content.len() as u64)
    }

    fn read_at(&mut self, at: u64, into: &mut [u8]) -> Result<(), Failed>
        requires { at + length into.old ≤ length (content_of self.old) }
        ensures bytes { Reads (Some (content_of self.old)) at result into.new }
        ensures same { content_of self.new ≡ content_of self.old }
        ensures calls { known_calls self.new ≡ known_calls self.old }
        ensures crash { NoneNew (CrashLeaves self.old) (CrashLeaves self.new) }
        ensures time { Elapses (length self.old.calls) (length self.new.calls)
            (CrashLeftSince self.old) (CrashLeftSince self.new) (CrashLeaves self.new) }
        ensures cause { HasCause self.old.faults self.new.faults result }

        // It fails exactly where it is named, and then gives nothing; it changes nothing but what is counted.
        ensures named { IsErr result ↔ Contains self.old.failing_reads (one_more self.old.reads) }
        ensures nothing { OnErr result (into.new ≡ into.old) }
        ensures counted { self.new ≡ after_read result self.old }
    {
        if self.reads.count() {
            return Err(fail(&mut self.faults));
        }
        let at = at as usize;
        into.copy_from_slice(&self.content[at..at + into.len()]);
        Ok(())
    }

    fn write_at(&mut self, at: u64, bytes: &[u8]) -> Result<(), Failed>
        requires { at ≤ length (content_of self.old) }
        ensures written { Writes (Some (content_of self.old)) at bytes.now result
            (Some (content_of self.new)) }
        ensures calls { Made (WriteCall at bytes.now ∷ []) result
            (known_calls self.old) (known_calls self.new) }
        ensures crash { Follows (Tears at bytes.now) (CrashLeaves self.old) (CrashLeaves self.new) }
        ensures time { Elapses (length self.old.calls) (length self.new.calls)
            (CrashLeftSince self.old) (CrashLeftSince self.new) (CrashLeaves self.new) }
        ensures cause { HasCause self.old.faults self.new.faults result }

        // It fails exactly where it is named or finds too little room, and then a read gives what it gave
        // before.
        ensures named { IsErr result ↔ Contains self.old.failing_changes (one_more self.old.changes)
            ⊎ (self.old.room < room_of (length bytes.now)) }
        ensures nothing { OnErr result (content_of self.new ≡ content_of self.old) }
        ensures counted { self.new ≡ after_write at bytes.now result self.old }
    {
        let named = self.changes.count();
        if !self.history.fits(bytes.len()) {
            self.whole = false;
            return Err(fail(&mut self.faults));
        }
        let at = at as usize;
        let len = bytes.len();
        if named {
            let size = self.content.len();
            self.history.keep(Entry::Attempt { at, len, size }, bytes);
            return Err(fail(&mut self.faults));
        }
        put(&mut self.content, at, bytes);
        self.history.keep(Entry::Write { at, len }, bytes);
        Ok(())
    }

    fn sync(&mut self) -> Result<(), Failed>
        ensures same { content_of self.new ≡ content_of self.old }
        ensures calls { Made (SyncCall ∷ []) result (known_calls self.old) (known_calls self.new) }
        ensures crash { NoneNew (CrashLeaves self.old) (CrashLeaves self.new) }
        ensures durable { OnOk result (Only (content_of self.new) (CrashLeaves self.new)) }
        ensures time { Elapses (length self.old.calls) (length self.new.calls)
            (CrashLeftSince self.old) (CrashLeftSince self.new) (CrashLeaves self.new) }
        ensures cause { HasCause self.old.faults self.new.faults result }

        // It fails exactly where it is named or finds too little room, and then a crash may leave what it
        // might before.
        ensures named { IsErr result ↔ Contains self.old.failing_changes (one_more self.old.changes)
            ⊎ (self.old.room < room_of 0) }
        ensures counted { self.new ≡ after_sync result self.old }
    {
        let named = self.changes.count();
        if !self.history.fits(0) {
            self.whole = false;
            return Err(fail(&mut self.faults));
        }
        if named {
            self.history.keep(Entry::SyncAttempt, &[]);
            return Err(fail(&mut self.faults));
        }
        refill(&mut self.synced, &self.content);
        self.history.keep(Entry::Sync, &[]);
        Ok(())
    }
}
