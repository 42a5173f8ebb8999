// A pass, with which one thread at a time makes turns.
ghost use Rattle.std.specs.Prelude.{◌≡◌, Some};

use crate::steps::VALUE;
use crate::told::Told;
use crate::view::View;
use atomic_table::{Seat, Shared, TableRule};

/// A pass of a turnstile over M, with which turns are made. It may be sent to another thread.
pub type Pass<M> = PassWith<M, <M as Told>::Entry>;

/// A pass of a turnstile whose value is an M and whose entries are Es. Write `Pass<M>`.
#[derive(Drop)]
pub struct PassWith<M, E> {
    pub(crate) seat: Seat<Option<M>, View<M, E>>,
    pub(crate) number: u64,
    pub(crate) left: u64,
    pub(crate) made: u64,
}

impl<M, E> PassWith<M, E> {
    ghost use Rattle.turnstile.specs.Passes.{number, left};

    /// The pass's number. The first pass of a turnstile has 0, and each new one the next.
    pub fn number(&self) -> u64
        ensures { result ≡ number self.now }
    {
        self.number
    }

    /// How many turns the pass has left. It begins with 2^56.
    pub fn left(&self) -> u64
        ensures { result ≡ left self.now }
    {
        self.left
    }

    pub(crate) fn into_seat(self) -> Seat<Option<M>, View<M, E>>
        ensures { result ≡ self.seat }
    {
        let PassWith {
            seat,
            number: _,
            left: _,
            made: _,
        } = self;
        seat
    }
}

impl<M, E> PassWith<M, E> {
    ghost use Rattle.std.specs.Borrow.{sem};
    ghost use Rattle.turnstile.specs.Lending.{LendsSlot};
    ghost use Rattle.turnstile.specs.Passes.{value_in};

    // The value, which the pass has in a turn.
    #[inline]
    pub(crate) fn value_mut<'a, P: TableRule<Option<M>, View<M, E>, M>>(
        &'a mut self,
        door: &'a Shared<Option<M>, View<M, E>, M, P>,
    ) -> &'a mut M
        requires table { self.old.seat.table_id ≡ door.now.table_id }
        requires some { (m : M) × (value_in self.old ≡ Some m) }
        ensures* writes_back { sem 𝓛 (LendsSlot M.row E.row self.entry result) }
        ensures value { value_in self.old ≡ Some result.now }
    {
        let slot = self.seat.slot_mut(door, VALUE);
        slot.as_mut().unwrap()
    }
}
