// Sources and sinks in memory, whose content is known. They fail at the calls that are named.
ghost use Rattle.std.specs.Prelude.{◌≡◌, ◌⊎◌, ◌↔◌, ◌+◌, ◌<◌, ◌≤◌, [], false, length, drop, is_err, min};
ghost use Rattle.std.specs.Prelude.{Contains, IsErr, IfOk, OnErr, vec_capacity};
ghost use Rattle.base_types.specs.Causes.{HasCause, one_more};
ghost use Rattle.io_edge.specs.Content.{Pulls};
ghost use Rattle.io_edge.specs.Pushing.{Pushes};

use crate::{Failed, Sink, Source};
use std::marker::Model;

/// A source that gives these bytes, as many at each call as fit.
#[derive(Drop)]
pub struct MemSource {
    bytes: Vec<u8>,
    at: usize,
    pulls: u64,
    fail: Vec<u64>,
    faults: u64,
    failed: bool,
}

impl Model for MemSource {
    ghost use Rattle.std.specs.Prelude.{◌≤◌, take, drop, vec_len};
    ghost use Rattle.io_edge.specs.Named.{SourceView};

    ghost Value = { SourceView };

    ghost view = { λ s. record {
      content = record { given = take s.at s.bytes.items; left = drop s.at s.bytes.items };
      pulls = s.pulls;
      fail = s.fail.items;
      faults = s.faults;
      failed = s.failed;
    } };

    ghost invariant = { λ s. s.at ≤ vec_len s.bytes };
}

impl MemSource {
    /// Gives `bytes`. The calls that `fail` names, the first one being 1, return `Failed`.
    pub fn new(bytes: Vec<u8>, fail: Vec<u64>) -> MemSource
        ensures { result ≡ record {
          content = record { given = []; left = bytes.items };
          pulls = 0;
          fail = fail.items;
          faults = 0;
          failed = false;
        } }
    {
        MemSource {
            bytes,
            at: 0,
            pulls: 0,
            fail,
            faults: 0,
            failed: false,
        }
    }
}

impl Source for MemSource {
    ghost use Rattle.std.specs.Prelude.{Some};

    ghost content = { λ s. Some s.content };

    ghost faults = { λ s. s.faults };

    ghost failed = { λ s. s.failed };

    fn pull(&mut self, into: &mut [u8]) -> Result<usize, Failed>
        // As of every source.
        ensures bound { IfOk result (λ n. n ≤ length into.new) }
        ensures gives { Pulls (Some self.old.content) result into.new (Some self.new.content) }
        ensures cause { HasCause self.old.faults self.new.faults result }
        ensures failed { self.new.failed ≡ is_err result }

        // It fails exactly at the calls that are named, and gives as much as fits.
        ensures named { IsErr result ↔ Contains self.old.fail (one_more self.old.pulls) }
        ensures most { IfOk result (λ n. n ≡ min (length into.old) (length self.old.content.left)) }

        // What it doesn't give stays as it was.
        ensures behind { IfOk result (λ n. drop n into.new ≡ drop n into.old) }
        ensures nothing { OnErr result (into.new ≡ into.old) }

        ensures counted { (self.new.pulls ≡ one_more self.old.pulls) × (self.new.fail ≡ self.old.fail) }
    {
        self.pulls = self.pulls.saturating_add(1);
        self.failed = self.fail.contains(&self.pulls);
        if self.failed {
            self.faults = self.faults.saturating_add(1);
            return Err(Failed);
        }
        let n = into.len().min(self.bytes.len() - self.at);
        into[..n].copy_from_slice(&self.bytes[self.at..self.at + n]);
        self.at += n;
        Ok(n)
    }
}

/// A sink that keeps what it took in room that it is given.
#[derive(Drop)]
pub struct MemSink {
    taken: Vec<u8>,
    room: usize,
    pushes: u64,
    fail: Vec<u64>,
    faults: u64,
}

impl Model for MemSink {
    ghost use Rattle.std.specs.Prelude.{◌≤◌, vec_len, vec_capacity};
    ghost use Rattle.io_edge.specs.Named.{SinkView};

    ghost Value = { SinkView };

    ghost view = { λ s. record {
      taken = s.taken.items;
      room = s.room;
      pushes = s.pushes;
      fail = s.fail.items;
      faults = s.faults;
    } };

    ghost invariant = { λ s. (vec_len s.taken ≤ s.room) × (s.room ≤ vec_capacity s.taken) };
}

impl MemSink {
    /// Has no room: a push of one byte is a fault. The calls that `fail` names, the first one being 1, return
    /// `Failed`.
    pub fn new(fail: Vec<u64>) -> MemSink
        ensures { result ≡ record { taken = []; room = 0; pushes = 0; fail = fail.items; faults = 0 } }
    {
        let room = Vec::new(*fail.allocator());
        MemSink::with_room(room, fail)
    }

    /// Keeps at most as many bytes as `room` has capacity for, in place of those that it holds.
    pub fn with_room(room: Vec<u8>, fail: Vec<u64>) -> MemSink
        ensures { result ≡ record {
          taken = [];
          room = vec_capacity room;
          pushes = 0;
          fail = fail.items;
          faults = 0;
        } }
    {
        let mut taken = room;
        taken.clear();
        MemSink {
            room: taken.capacity(),
            taken,
            pushes: 0,
            fail,
            faults: 0,
        }
    }

    /// What it took.
    pub fn bytes(&self) -> &[u8]
        ensures { result.now ≡ self.now.taken }
    {
        self.taken.as_slice()
    }
}

impl Sink for MemSink {
    ghost use Rattle.std.specs.Prelude.{Some};

    ghost taken = { λ s. Some s.taken };

    ghost faults = { λ s. s.faults };

    fn push(&mut self, bytes: &[u8]) -> Result<(), Failed>
        // As of every sink.
        ensures takes { Pushes (Some self.old.taken) bytes.now result (Some self.new.taken) }
        ensures cause { HasCause self.old.faults self.new.faults result }

        // It fails exactly at the calls that are named and where the bytes don't fit, and then takes nothing.
        ensures named { IsErr result ↔ Contains self.old.fail (one_more self.old.pushes)
            ⊎ (self.old.room < length self.old.taken + length bytes.now) }
        ensures nothing { OnErr result (self.new.taken ≡ self.old.taken) }
        ensures counted { (self.new.pushes ≡ one_more self.old.pushes) × (self.new.fail ≡ self.old.fail) }
        ensures room { self.new.room ≡ self.old.room }
    {
        self.pushes = self.pushes.saturating_add(1);
        let left = self.room - self.taken.len();
        if self.fail.contains(&self.pushes) || left < bytes.len() {
            self.faults = self.faults.saturating_add(1);
            return Err(Failed);
        }
        self.taken.extend_from_slice(bytes).unwrap();
        Ok(())
    }
}
