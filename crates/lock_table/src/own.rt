// The locks of one session.
ghost use Rattle.std.specs.Prelude.{◌≡◌};

use crate::OutOfMemory;
use key_space::{Held, MAX_LOCKS};
use std::alloc::Global;
use std::marker::Model;

/// The locks of a session, in the order in which they were granted. There is room for as many as it may hold.
#[derive(Debug, Drop)]
pub(crate) struct OwnLocks {
    locks: Vec<Held>,
}

impl Model for OwnLocks {
    ghost use Rattle.std.specs.Prelude.{◌≤◌, List, vec_capacity};
    ghost use Rattle.key_space.specs.declared.lock.Held.{Held as Lock};

    ghost Value = { List Lock };

    ghost view = { λ own. own.locks.items };

    ghost invariant = { λ own. 1024 ≤ vec_capacity own.locks };
}

impl OwnLocks {
    ghost use Rattle.std.specs.Prelude.{◌≡◌, ◌<◌, ◌++◌, [], ◌∷◌, IfOk, MatchOption, None, Some, length};
    ghost use Rattle.std.specs.Prelude.{slice_get};

    /// None, with room for all.
    pub(crate) fn new(alloc: Global) -> Result<OwnLocks, OutOfMemory>
        ensures { IfOk result (λ own. own ≡ []) }
    {
        let locks = Vec::with_capacity(alloc, MAX_LOCKS)?;
        Ok(OwnLocks { locks })
    }

    pub(crate) fn len(&self) -> usize
        ensures { result ≡ length self.now }
    {
        self.locks.len()
    }

    /// The lock that was granted after so many others.
    pub(crate) fn get(&self, nth: u16) -> Option<&Held>
        ensures { MatchOption result (slice_get self.now nth ≡ None)
            (λ h. slice_get self.now nth ≡ Some h.now) }
    {
        self.locks.get(nth as usize)
    }

    pub(crate) fn push(&mut self, lock: Held)
        requires { length self.old < 1024 }
        ensures { self.new ≡ self.old ++ lock ∷ [] }
    {
        self.locks.push_reserved(lock);
    }

    pub(crate) fn clear(&mut self)
        ensures { self.new ≡ [] }
    {
        self.locks.clear();
    }
}
