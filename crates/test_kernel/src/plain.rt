// Locks in one list, without any order.
use key_space::Held;
use lock_table::{LockName, Mode, Verdict};
use std::alloc::{AllocError, Global};

/// The locks of all sessions.
#[derive(Debug, Drop)]
pub(crate) struct PlainLocks {
    held: Vec<Held>,
}

impl PlainLocks {
    pub(crate) fn new(alloc: Global) -> PlainLocks {
        PlainLocks {
            held: Vec::new(alloc),
        }
    }

    /// The answer to a request by a look at each lock; one that is granted is added, unless it is covered.
    pub(crate) fn ask(&mut self, ask: Held) -> Result<Verdict, AllocError> {
        if self.held.iter().any(|h| covers(h, &ask)) {
            return Ok(Verdict::Granted);
        }
        if let Some(holder) = self.least(&ask, true) {
            return Ok(Verdict::Die { holder });
        }
        if let Some(holder) = self.least(&ask, false) {
            return Ok(Verdict::Wait { holder });
        }
        if self.held.iter().filter(|h| h.who == ask.who).count() >= 1024 {
            return Ok(Verdict::Full {
                held: 1024,
                limit: 1024,
            });
        }
        self.held.push(ask)?;
        Ok(Verdict::Granted)
    }

    pub(crate) fn release_all(&mut self, who: u16) {
        self.held.retain(|h| h.who != who);
    }

    fn least(&self, ask: &Held, older: bool) -> Option<u16> {
        let mut least = None;
        for h in &self.held {
            if is_in_the_way(h, ask) && (!older || h.age < ask.age) {
                least = match least {
                    Some(who) if who < h.who => Some(who),
                    _ => Some(h.who),
                };
            }
        }
        least
    }
}

fn covers(h: &Held, ask: &Held) -> bool {
    h.who == ask.who
        && h.name.table == ask.name.table
        && h.name.range.lo.number <= ask.name.range.lo.number
        && ask.name.range.hi.number <= h.name.range.hi.number
        && (h.mode == Mode::Exclusive || ask.mode == Mode::Shared)
}

fn is_in_the_way(h: &Held, ask: &Held) -> bool {
    h.who != ask.who
        && share_a_key(&h.name, &ask.name)
        && (h.mode == Mode::Exclusive || ask.mode == Mode::Exclusive)
}

fn share_a_key(a: &LockName, b: &LockName) -> bool {
    a.table == b.table
        && a.range.lo.number <= b.range.hi.number
        && b.range.lo.number <= a.range.hi.number
}
