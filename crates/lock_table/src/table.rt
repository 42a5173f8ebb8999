// The table of locks.
ghost use Rattle.std.specs.Prelude.{◌≡◌, [], replicate, IfOk};

use crate::order::Order;
use crate::orders::{ORDERS, no_places, release};
use crate::own::OwnLocks;
use crate::{LockName, Mode, OutOfMemory, Verdict};
use key_space::Held;
use std::alloc::Global;
use std::marker::Model;

/// The sessions that may hold locks.
const SESSIONS: usize = 17;

/// The locks that sessions hold, seen as a list with an entry for each of 17 sessions: its locks, in the
/// order in which they were granted. All its memory is taken by `new`.
#[derive(Debug, Drop)]
pub struct LockTable {
    owned: Vec<OwnLocks>,
    orders: Vec<Order>,
}

impl Model for LockTable {
    ghost use Rattle.lock_table.specs.Locks.{Locks};
    ghost use Rattle.lock_table.specs.Tables.{IsTable};

    ghost Value = { Locks };

    ghost view = { λ table. table.owned.items };

    ghost invariant = { λ table. IsTable table.owned.items table.orders.items };
}

impl LockTable {
    ghost use Rattle.std.specs.Prelude.{◌≡◌, ◌≤◌, [], length, replicate, slice_set, IfOk};
    ghost use Rattle.key_space.specs.Locks.{verdict_of};
    ghost use Rattle.key_space.specs.Ranges.{IsNotEmpty};
    ghost use Rattle.lock_table.specs.Locks.{all_locks, asked, locks_of, locks_with};

    /// No locks, with room for 1,024 of each session.
    pub fn new(alloc: Global) -> Result<LockTable, OutOfMemory>
        ensures { IfOk result (λ table. table ≡ replicate 17 []) }
    {
        let owned = no_locks(alloc)?;
        let orders = no_places(alloc)?;
        Ok(LockTable { owned, orders })
    }

    /// Answers the request of a session, whose transaction has this age, for a lock. At `Granted` it is held,
    /// unless one of its locks covers it; at any other answer nothing changes.
    pub fn ask(&mut self, who: u16, age: u64, name: LockName, mode: Mode) -> Verdict
        requires who { who ≤ 16 }
        requires range { IsNotEmpty name.range }
        ensures verdict { result ≡ verdict_of (all_locks self.old) (asked who age name mode) }
        ensures locks { self.new ≡ locks_with self.old (asked who age name mode) }
    {
        let ask = Held {
            who,
            age,
            name,
            mode,
        };
        let number = name.table as usize % ORDERS;
        if let Some(verdict) = self.orders[number].decide(&self.owned, &ask) {
            return verdict;
        }
        self.orders[number].add(&self.owned, &ask);
        self.owned[who as usize].push(ask);
        Verdict::Granted
    }

    /// Removes all locks of a session, and no others.
    pub fn release_all(&mut self, who: u16)
        requires { who ≤ 16 }
        ensures { self.new ≡ slice_set self.old who [] }
    {
        release(&mut self.orders, who);
        self.owned[who as usize].clear();
    }

    /// How many locks a session holds.
    pub fn held(&self, who: u16) -> u32
        requires { who ≤ 16 }
        ensures { result ≡ length (locks_of self.now who) }
    {
        self.owned[who as usize].len() as u32
    }
}

fn no_locks(alloc: Global) -> Result<Vec<OwnLocks>, OutOfMemory>
    ensures { IfOk result (λ owned. owned.items ≡ replicate 17 []) }
{
    let mut owned = Vec::with_capacity(alloc, SESSIONS)?;
    for _ in 0..SESSIONS {
        owned.push_reserved(OwnLocks::new(alloc)?);
    }
    Ok(owned)
}
