// The record of the change calls of a disk in memory, in memory that is taken when it is made.
ghost use Rattle.std.specs.Prelude.{◌≡◌, ◌↔◌, ◌+◌, ◌-◌, ◌<◌, ◌≤◌, List, [], ◌∷◌, length};
ghost use Rattle.std.specs.Prelude.{IsTrue, IfOk, MatchOption};
ghost use Rattle.disk_core.specs.Memory.{room_of};
ghost use Rattle.disk_core.specs.Entries.{change_of, len_of};
ghost use Rattle.disk_core.specs.History.{Change};
ghost use Rattle.disk_core.specs.Places;
ghost use Rattle.disk_core.specs.Places.{is_written, is_left};

use crate::OutOfMemory;
use std::alloc::Global;
use std::marker::Model;

/// A change call: a write that succeeded, one that failed after it had begun on a disk of that size, a sync
/// that succeeded, or one that failed.
#[derive(Clone, Copy)]
pub(crate) enum Entry {
    Write { at: usize, len: usize },
    Attempt { at: usize, len: usize, size: usize },
    Sync,
    SyncAttempt,
}

impl Entry {
    ghost use Rattle.disk_core.specs.Entries.{change_of, len_of};

    fn len(&self) -> usize
        ensures { result ≡ len_of self.now }
    {
        match *self {
            Entry::Write { len, .. } | Entry::Attempt { len, .. } => len,
            Entry::Sync | Entry::SyncAttempt => 0,
        }
    }

    // Whether the call of this entry or one before it has written a place since the last sync.
    fn has_written(&self, bytes: &[u8], place: usize, earlier: bool) -> bool
        ensures { (calls : List Change) → earlier ≡ is_written calls place →
            result ≡ is_written (change_of self.now bytes.now ∷ calls) place }
    {
        match *self {
            Entry::Write { at, .. } => is_in_range(at, bytes.len(), place) || earlier,
            Entry::Attempt { at, size, .. } => {
                is_in_range(at, bytes.len(), place) && place < size || earlier
            }
            Entry::Sync => false,
            Entry::SyncAttempt => earlier,
        }
    }

    // Whether that may have left this byte there.
    fn has_left(&self, bytes: &[u8], place: usize, byte: u8, earlier: bool) -> bool
        ensures { (calls : List Change) → earlier ≡ is_left calls place byte →
            result ≡ is_left (change_of self.now bytes.now ∷ calls) place byte }
    {
        match *self {
            Entry::Write { at, .. } => {
                is_in_range(at, bytes.len(), place) && is_left_of(bytes, byte) || earlier
            }
            Entry::Attempt { at, size, .. } => {
                let reached = is_in_range(at, bytes.len(), place) && place < size;
                reached && is_left_of(bytes, byte) || earlier
            }
            Entry::Sync => false,
            Entry::SyncAttempt => earlier,
        }
    }
}

fn is_in_range(at: usize, n: usize, place: usize) -> bool
    ensures { result ≡ Places.is_in_range at n place }
{
    at <= place && place - at < n
}

fn is_left_of(bytes: &[u8], left: u8) -> bool
    ensures { result ≡ Places.is_left_of bytes.now left }
{
    match bytes {
        [byte] => *byte == left,
        _ => true,
    }
}

/// The change calls so far, with what they wrote, and the room for more.
#[derive(Drop)]
pub(crate) struct History {
    entries: Vec<Entry>,
    bytes: Vec<u8>,
    room: u64,
}

impl Model for History {
    ghost use Rattle.std.specs.Prelude.{◌≡◌, ◌+◌, ◌*◌, ◌≤◌, [], vec_len, vec_capacity};
    ghost use Rattle.disk_core.specs.HistoryView.{HistoryView};

    ghost Value = { HistoryView };

    ghost use Rattle.disk_core.specs.Entries.{calls_of, total_len};

    ghost view = { λ h. record { calls = calls_of h.entries.items h.bytes.items []; room = h.room } };

    ghost invariant = { λ h. record {
      whole : total_len h.entries.items ≡ vec_len h.bytes;
      entries_room : 64 * vec_len h.entries + h.room ≤ 64 * vec_capacity h.entries;
      bytes_room : 2 * vec_len h.bytes + h.room ≤ 2 * vec_capacity h.bytes;
    } };
}

impl History {
    pub(crate) fn new(alloc: Global, room: u64) -> Result<History, OutOfMemory>
        ensures { IfOk result (λ history. history ≡ record { calls = []; room = room }) }
    {
        Ok(History {
            entries: Vec::with_capacity(alloc, room.div_ceil(64) as usize)?,
            bytes: Vec::with_capacity(alloc, room.div_ceil(2) as usize)?,
            room,
        })
    }

    /// Whether there is room for a call of n bytes.
    pub(crate) fn fits(&self, n: usize) -> bool
        ensures { IsTrue result ↔ (room_of n ≤ self.now.room) }
    {
        room_without(self.room, n).is_some()
    }

    /// Keeps a call with its bytes.
    pub(crate) fn keep(&mut self, entry: Entry, bytes: &[u8])
        requires room { room_of (length bytes.now) ≤ self.old.room }
        requires len { len_of entry ≡ length bytes.now }
        ensures { self.new ≡ record {
          calls = change_of entry bytes.now ∷ self.old.calls;
          room = self.old.room - room_of (length bytes.now);
        } }
    {
        self.entries.push(entry).unwrap();
        self.bytes.extend_from_slice(bytes).unwrap();
        self.room = room_without(self.room, bytes.len()).unwrap_or(0);
    }

    /// Forgets the calls, and keeps the room for more.
    pub(crate) fn forget(&mut self)
        ensures { self.new ≡ record self.old { calls = [] } }
    {
        self.entries.clear();
        self.bytes.clear();
    }

    /// Whether a write since the last sync wrote this place.
    pub(crate) fn is_written(&self, place: usize) -> bool
        ensures { result ≡ is_written self.now.calls place }
    {
        let mut written = false;
        let mut rest = self.bytes.as_slice();
        for entry in &self.entries {
            let (bytes, after) = rest.split_at(entry.len());
            written = entry.has_written(bytes, place, written);
            rest = after;
        }
        written
    }

    /// Whether such a write may have left this byte there.
    pub(crate) fn is_left(&self, place: usize, byte: u8) -> bool
        ensures { result ≡ is_left self.now.calls place byte }
    {
        let mut left = false;
        let mut rest = self.bytes.as_slice();
        for entry in &self.entries {
            let (bytes, after) = rest.split_at(entry.len());
            left = entry.has_left(bytes, place, byte, left);
            rest = after;
        }
        left
    }
}

fn room_without(room: u64, n: usize) -> Option<u64>
    ensures { MatchOption result (room < room_of n) (λ rest. rest + room_of n ≡ room) }
{
    let n = n as u64;
    room.checked_sub(64)?.checked_sub(n)?.checked_sub(n)
}
