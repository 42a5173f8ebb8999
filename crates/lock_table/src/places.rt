// What is asked of the locks at given places.
ghost use Rattle.std.specs.Prelude.{◌≡◌, ◌^◌, ◌≤◌, true, false, length, List, [], ◌∷◌, ◌++◌, nat_lt};
ghost use Rattle.std.specs.Prelude.{MatchOption, None, Some};
ghost use Rattle.std.specs.List.{list_any};
ghost use Rattle.std.specs.List.Sorted.{IsNonDecreasingBy, IsPartitionPoint};
ghost use Rattle.key_space.specs.Locks.{IsOfKeys, covers_ask, in_the_way, least_owner};
ghost use Rattle.key_space.specs.declared.lock.Held.{Held as Lock};
ghost use Rattle.lock_table.specs.Orders.{AreOfKeys, held_at, is_before, is_up_to, lock_at};
ghost use Rattle.lock_table.specs.Orders.{rank, rank_of, spot_rank};

use crate::own::OwnLocks;
use crate::place::{Place, Spot};
use key_space::Held;

/// The lock at a place.
pub(crate) fn lock_at<'a>(owned: &'a [OwnLocks], place: Place) -> Option<&'a Held>
    ensures { MatchOption result (lock_at owned.now place ≡ None)
        (λ h. lock_at owned.now place ≡ Some h.now) }
{
    owned.get(place.who as usize)?.get(place.nth)
}

/// Whether the lock at a place stands in front of a spot.
pub(crate) fn is_before(owned: &[OwnLocks], place: Place, spot: Spot) -> bool
    ensures { result ≡ is_before owned.now spot place }
{
    match lock_at(owned, place) {
        Some(h) => stands_before(h, spot),
        None => true,
    }
}

fn stands_before(h: &Held, spot: Spot) -> bool
    ensures { result ≡ nat_lt (rank_of (Some h.now)) (spot_rank spot) }
{
    let table = h.name.table;
    let key = h.name.range.lo.number;
    let who = h.who;
    if table != spot.table {
        return table < spot.table;
    }
    if key != spot.key {
        return key < spot.key;
    }
    who < spot.who
}

/// Whether the lock at a place is of a lower table, or of this one with a lower key of at most this.
pub(crate) fn is_up_to(owned: &[OwnLocks], place: Place, table: u16, key: u128) -> bool
    ensures { result ≡ is_up_to owned.now table key place }
{
    match lock_at(owned, place) {
        Some(h) => stands_up_to(h, table, key),
        None => true,
    }
}

fn stands_up_to(h: &Held, table: u16, key: u128) -> bool
    ensures { result ≡ nat_lt (rank_of (Some h.now)) (rank table key (2 ^ 16)) }
{
    let from = h.name.range.lo.number;
    let _who = h.who;
    if h.name.table != table {
        return h.name.table < table;
    }
    from <= key
}

/// How many of these places stand in front of a spot.
pub(crate) fn count_before(owned: &[OwnLocks], places: &[Place], spot: Spot) -> usize
    requires { IsNonDecreasingBy (λ p. rank_of (lock_at owned.now p)) places.now }
    ensures within { result ≤ length places.now }
    ensures point { IsPartitionPoint (λ p. is_before owned.now spot p ≡ true)
        (λ p. is_before owned.now spot p ≡ false) places.now result }
{
    places.partition_point(|p| is_before(owned, *p, spot))
}

/// How many of these places have locks of lower tables, or of this one with a lower key of at most this.
pub(crate) fn count_up_to(owned: &[OwnLocks], places: &[Place], table: u16, key: u128) -> usize
    requires { IsNonDecreasingBy (λ p. rank_of (lock_at owned.now p)) places.now }
    ensures within { result ≤ length places.now }
    ensures point { IsPartitionPoint (λ p. is_up_to owned.now table key p ≡ true)
        (λ p. is_up_to owned.now table key p ≡ false) places.now result }
{
    places.partition_point(|p| is_up_to(owned, *p, table, key))
}

/// Whether a lock at one of these places covers the request.
pub(crate) fn is_covered(owned: &[OwnLocks], places: &[Place], ask: &Held) -> bool
    requires ranges { AreOfKeys owned.now }
    requires range { IsOfKeys ask.now }
    ensures { result ≡ list_any (covers_ask ask.now) (held_at owned.now places.now) }
{
    for place in places {
        if let Some(h) = lock_at(owned, *place) {
            if h.covers(ask) {
                return true;
            }
        }
    }
    false
}

/// The least session number of the locks in the way, of those of older transactions alone or of all.
pub(crate) fn least_owner(
    owned: &[OwnLocks],
    places: &[Place],
    ask: &Held,
    older: bool,
) -> Option<u16>
    requires ranges { AreOfKeys owned.now }
    requires range { IsOfKeys ask.now }
    ensures { result ≡ least_owner (in_the_way older ask.now) (held_at owned.now places.now) }
{
    let mut least = None;
    for place in places {
        if let Some(h) = lock_at(owned, *place) {
            least = least_with(least, h, ask, older);
        }
    }
    least
}

/// The least session number so far, where this lock comes behind those that were looked at.
fn least_with(least: Option<u16>, h: &Held, ask: &Held, older: bool) -> Option<u16>
    requires mine { IsOfKeys h.now }
    requires other { IsOfKeys ask.now }
    ensures { (held : List Lock) → least ≡ least_owner (in_the_way older ask.now) held
        → result ≡ least_owner (in_the_way older ask.now) (held ++ h.now ∷ []) }
{
    if !h.conflicts(ask) || older && h.age >= ask.age {
        return least;
    }
    Some(least.map_or(h.who, |other| other.min(h.who)))
}
