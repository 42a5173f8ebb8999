// The locks of some tables in order.
use crate::OutOfMemory;
use crate::own::OwnLocks;
use crate::place::{Place, Spot};
use crate::places::{count_before, count_up_to, is_covered, least_owner};
use key_space::{Held, LockName, MAX_LOCKS, Verdict};
use std::alloc::Global;

/// The most locks that all sessions hold: 17 sessions with 1,024 each.
const ALL_LOCKS: usize = 17 * MAX_LOCKS;

/// The places of the locks of some tables, by table, lower key and session. There is room for all.
#[derive(Debug, Drop)]
pub(crate) struct Order {
    places: Vec<Place>,
    /// No range of its locks holds more keys beside its lowest.
    widest: u128,
}

impl Order {
    ghost use Rattle.std.specs.Prelude.{◌≡◌, ◌≤◌, ◌<◌, ◌%◌, ◌^◌, ℕ, Bool, true, false, List, [], length};
    ghost use Rattle.std.specs.Prelude.{vec_capacity, IfOk, None, MatchOption};
    ghost use Rattle.std.specs.List.{count_by};
    ghost use Rattle.key_space.specs.declared.lock.Held.{Held as Lock};
    ghost use Rattle.key_space.specs.Locks.{IsOfKeys};
    ghost use Rattle.lock_table.specs.Locks.{Locks, all_locks, is_added, locks_of};
    ghost use Rattle.lock_table.specs.Orders.{AreOwn, Decides, IsOfReach, IsOrdered, IsSorted};
    ghost use Rattle.lock_table.specs.Orders.{cleared, held_at, is_of_order, pushed};

    /// No places, with room for all.
    pub(crate) fn new(alloc: Global) -> Result<Order, OutOfMemory>
        ensures none { IfOk result (λ order. order.places.items ≡ []) }
        ensures room { IfOk result (λ order. 17408 ≤ vec_capacity order.places) }
    {
        let places = Vec::with_capacity(alloc, ALL_LOCKS)?;
        Ok(Order { places, widest: 0 })
    }

    /// What a request gets, if not that its lock is added.
    pub(crate) fn decide(&self, owned: &[OwnLocks], ask: &Held) -> Option<Verdict>
        requires ordered { IsOrdered owned.now (ask.now.name.table % 16)
            self.now.widest self.now.places.items }
        requires own { AreOwn owned.now }
        requires who { ask.now.who < length owned.now }
        requires few { length owned.now ≤ 2 ^ 16 }
        requires range { IsOfKeys ask.now }
        ensures decides { MatchOption result (is_added (all_locks owned.now) ask.now ≡ true)
            (λ verdict. Decides (all_locks owned.now) ask.now verdict false) }
        ensures room { result ≡ None → length (locks_of owned.now ask.now.who) < 1024 }
    {
        let near = self.near(owned, &ask.name);
        if is_covered(owned, near, ask) {
            return Some(Verdict::Granted);
        }
        if let Some(holder) = least_owner(owned, near, ask, true) {
            return Some(Verdict::Die { holder });
        }
        if let Some(holder) = least_owner(owned, near, ask, false) {
            return Some(Verdict::Wait { holder });
        }
        let held = owned[ask.who as usize].len();
        if held < MAX_LOCKS {
            return None;
        }
        Some(Verdict::Full {
            held: held as u32,
            limit: MAX_LOCKS as u32,
        })
    }

    /// The places of all locks of the table that may share a key with the range.
    fn near(&self, owned: &[OwnLocks], name: &LockName) -> &[Place]
        requires sorted { IsSorted owned.now self.now.widest self.now.places.items }
        requires own { AreOwn owned.now }
        requires few { length owned.now ≤ 2 ^ 16 }
        ensures { (test : Lock → Bool) → IsOfReach name.now test
            → count_by test (held_at owned.now result.now)
            ≡ count_by test (held_at owned.now self.now.places.items) }
    {
        let key = name.range.lo.number.saturating_sub(self.widest);
        let spot = Spot {
            table: name.table,
            key,
            who: 0,
        };
        let from = count_before(owned, &self.places, spot);
        let rest = &self.places[from..];
        let len = count_up_to(owned, rest, name.table, name.range.hi.number);
        &rest[..len]
    }

    /// Adds the place of a lock that becomes the last one of its session.
    pub(crate) fn add(&mut self, owned: &[OwnLocks], lock: &Held)
        requires sorted { IsSorted owned.now self.old.widest self.old.places.items }
        requires who { lock.now.who < length owned.now }
        requires few { length (locks_of owned.now lock.now.who) < 1024 }
        requires range { IsOfKeys lock.now }
        requires room { length self.old.places.items < vec_capacity self.old.places }
        ensures ordered { (number : ℕ) → IsOrdered owned.now number self.old.widest self.old.places.items
            → is_of_order number lock.now ≡ true
            → IsOrdered (pushed owned.now lock.now) number self.new.widest self.new.places.items }
        ensures capacity { vec_capacity self.old.places ≤ vec_capacity self.new.places }
    {
        let range = lock.name.range;
        let width = range.hi.number - range.lo.number;
        let spot = Spot {
            table: lock.name.table,
            key: range.lo.number,
            who: lock.who,
        };
        let nth = owned[lock.who as usize].len() as u16;
        let place = Place { who: lock.who, nth };
        let at = count_before(owned, &self.places, spot);
        let _ = self.places.insert(at, place);
        self.widest = self.widest.max(width);
    }

    /// Removes the places of a session.
    pub(crate) fn release(&mut self, who: u16)
        ensures ordered { (locks : Locks) (number : ℕ) → AreOwn locks → who < length locks
            → IsOrdered locks number self.old.widest self.old.places.items
            → IsOrdered (cleared locks who) number self.new.widest self.new.places.items }
        ensures capacity { vec_capacity self.new.places ≡ vec_capacity self.old.places }
    {
        self.places.retain(|p| p.who != who);
        if self.places.as_slice().is_empty() {
            self.widest = 0;
        }
    }
}
