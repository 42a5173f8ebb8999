// Locks in one list, which each request looks at whole.
use crate::locks::Locks;
use key_space::Held;
use lock_table::{LockName, Mode, Verdict};
use std::alloc::Global;

/// The locks of all sessions.
#[derive(Debug, Drop)]
pub(crate) struct ScannedLocks {
    held: Vec<Held>,
}

impl ScannedLocks {
    pub(crate) fn new(alloc: Global) -> ScannedLocks {
        ScannedLocks {
            held: Vec::new(alloc),
        }
    }

    fn least(&self, ask: &Held, older: bool) -> Option<u16> {
        let mut least = None;
        for h in &self.held {
            if is_in_the_way(h, ask) && (!older || h.age < ask.age) {
                least = match least {
                    Some(who) if who < h.who => Some(who),
                    _ => Some(h.who),
                };
            }
        }
        least
    }
}

impl Locks for ScannedLocks {
    fn ask(&mut self, ask: Held) -> Option<Verdict> {
        if self.held.iter().any(|h| covers(h, &ask)) {
            return Some(Verdict::Granted);
        }
        if let Some(holder) = self.least(&ask, true) {
            return Some(Verdict::Die { holder });
        }
        if let Some(holder) = self.least(&ask, false) {
            return Some(Verdict::Wait { holder });
        }
        let own = self.held.iter().filter(|h| h.who == ask.who).count();
        if own >= 1024 || self.held.push(ask).is_err() {
            return None;
        }
        Some(Verdict::Granted)
    }

    fn release_all(&mut self, who: u16) {
        self.held.retain(|h| h.who != who);
    }
}

fn covers(h: &Held, ask: &Held) -> bool {
    h.who == ask.who
        && h.name.table == ask.name.table
        && h.name.range.lo.number <= ask.name.range.lo.number
        && ask.name.range.hi.number <= h.name.range.hi.number
        && (h.mode == Mode::Exclusive || ask.mode == Mode::Shared)
}

fn is_in_the_way(h: &Held, ask: &Held) -> bool {
    h.who != ask.who
        && share_a_key(&h.name, &ask.name)
        && (h.mode == Mode::Exclusive || ask.mode == Mode::Exclusive)
}

fn share_a_key(a: &LockName, b: &LockName) -> bool {
    a.table == b.table
        && a.range.lo.number <= b.range.hi.number
        && b.range.lo.number <= a.range.hi.number
}
