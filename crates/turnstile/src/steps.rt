// The steps of a turn, each of which changes one word of the table.
ghost use Rattle.std.specs.Prelude.{◌≡◌, ◌<◌, ◌++◌, [], ◌∷◌, Some, None, true, false};
ghost use Rattle.turnstile.specs.History.{entries, MayAdd};
ghost use Rattle.turnstile.specs.declared.view.Stage.TheVariants.{Idle, Waiting, Inside, Filling};
ghost use Rattle.turnstile.specs.Steps.{IsOf, IsOne, IsCalled, WaitsWith, Becomes};
ghost use Rattle.turnstile.specs.Steps.{number_of, with_entries, with_ticket};

use crate::told::Told;
use crate::view::{Adds, Draws, Law, Looks, Opens, Rests, Serves, View};
use atomic_table::{Seat, Shared};
use std::marker::Brand;
use std::sync::Wait;
use std::{hint, thread};

pub type Door<M> = Shared<Option<M>, View<M, <M as Told>::Entry>, M, Law>;

pub type Place<M> = Seat<Option<M>, View<M, <M as Told>::Entry>>;

/// The table's words, the first ticket drawn. Those on either side of the three that are used keep 64 bytes
/// between these, which waiting threads look at, and the value, which the turn in progress changes.
pub const WORDS: [u64; 19] = [0, 0, 0, 0, 0, 0, 0, 0, 1, 0, 0, 0, 0, 0, 0, 0, 0, 0, 0];

/// How many tickets were drawn.
const DRAWN: usize = 8;

/// How many turns have ended, which is also the ticket whose turn it is.
pub const SERVED: usize = 9;

/// How many threads sleep until a turn ends, or are about to.
const SLEEPERS: usize = 10;

/// The slot of the value.
pub const VALUE: usize = 0;

/// How many times a thread looks again after a pause, each twice as long as the one before, until it gives
/// way to others from then on.
const PAUSES: u32 = 7;

/// How often a thread tries before it draws a ticket while others have some.
const APPROACHES: u32 = 64;

/// How often a thread with a ticket looks before it sleeps.
const LOOKS: u32 = 16;

/// The first value goes into the slot, by a turn that adds no entry.
pub fn open<M: Told>(door: &Door<M>, seat: &mut Place<M>, value: M)
    requires seat { IsOf door.now.table_id seat.old Filling }
    requires empty { seat.old.me.1 ≡ [] }
    requires one { IsOne seat.old.me.0.parts }
    requires value { (seat.old.me.0.seen ≡ []) × M.leads door.now.key [] value }
    ensures { Becomes seat.old seat.new (with_entries seat.old.me.0 [], []) }
{
    door.load::<Opens>(seat, SERVED);
    match door.exchange(seat, VALUE, Some(value)) {
        None => {}
        Some(_) => unreachable!(),
    }
    serve::<M, Brand>(door, seat);
}

/// Leaves the words alone for a while, so that the thread whose turn it is has them to itself; the longer, the
/// more looks there were.
#[cold]
fn give_way(looks: u32) {
    if looks < PAUSES {
        for _ in 0..1u32 << looks {
            hint::spin_loop();
        }
    } else {
        thread::yield_now();
    }
}

/// Whether nobody has a ticket.
#[inline]
fn is_free<M: Told>(door: &Door<M>) -> bool
    requires { door.now.table_id.words ≡ 19 }
{
    door.peek(SERVED) == door.peek(DRAWN)
}

/// Waits a while for a moment at which nobody has a ticket.
#[cold]
fn hold_back<M: Told>(door: &Door<M>)
    requires { door.now.table_id.words ≡ 19 }
{
    for tries in 0..APPROACHES {
        give_way(tries);
        if is_free(door) {
            return;
        }
    }
}

/// Lets those go first who have a ticket, but only for a while. Tickets are served in order, so a thread that
/// drew one and was then put off by the system would hold up all others; so few have one at a time.
#[inline]
pub fn approach<M: Told>(door: &Door<M>)
    requires { door.now.table_id.words ≡ 19 }
{
    if !is_free(door) {
        hold_back(door);
    }
}

#[inline]
pub fn draw<M: Told>(door: &Door<M>, seat: &mut Place<M>) -> u64
    requires seat { IsOf door.now.table_id seat.old Idle }
    requires pass { (0 < seat.old.me.0.left) × IsOne seat.old.me.0.parts }
    ensures { Becomes seat.old seat.new (with_ticket seat.old.me.0 result, seat.old.me.1) }
{
    door.fetch_add::<Draws>(seat, DRAWN, 1)
}

/// Whether the ticket is called. If it is, the seat has the value.
#[inline]
fn look<M: Told>(door: &Door<M>, seat: &mut Place<M>, ticket: u64) -> bool
    requires { WaitsWith door.now.table_id door.now.key seat.old ticket }
    ensures table { seat.new.table_id ≡ seat.old.table_id }
    ensures called { result ≡ true → IsCalled M.leads M.owner seat.old.me seat.new.me }
    ensures same { result ≡ false → seat.new.me ≡ seat.old.me }
{
    door.load::<Looks>(seat, SERVED) == ticket
}

/// Sleeps until a turn ends, unless the ticket is called by now.
#[cold]
fn sleep<M: Told, R: Wait>(rt: &R, door: &Door<M>, seat: &mut Place<M>, ticket: u64)
    requires { (seat.old.table_id ≡ door.now.table_id) × (door.now.table_id.words ≡ 19) }
    ensures { Becomes seat.old seat.new seat.old.me }
{
    door.fetch_add::<Rests>(seat, SLEEPERS, 1);
    // A turn that ends from here on finds this thread counted, and wakes it.
    let served = door.peek(SERVED);
    if served != ticket {
        door.park(rt, SERVED, (served % (1 << 32)) as u32);
    }
    door.fetch_sub::<Rests>(seat, SLEEPERS, 1);
}

/// Waits for the ticket to be called, after a while asleep.
#[inline]
pub fn wait<M: Told, R: Wait>(rt: &R, door: &Door<M>, seat: &mut Place<M>, ticket: u64)
    requires { WaitsWith door.now.table_id door.now.key seat.old ticket }
    ensures { (seat.new.table_id ≡ seat.old.table_id) × IsCalled M.leads M.owner seat.old.me seat.new.me }
{
    let mut looks = 0u32;
    for _ in rt.forever() {
        if look(door, seat, ticket) {
            return;
        }
        if looks < LOOKS {
            give_way(looks);
        } else {
            sleep(rt, door, seat, ticket);
        }
        looks = looks.saturating_add(1);
    }
    unreachable!()
}

/// Ends the turn in one step: the value is back in the slot, the history has the entries, and the next ticket
/// is called.
#[inline]
pub fn serve<M: Told, W: Adds<M::Entry>>(door: &Door<M>, seat: &mut Place<M>)
    requires seat { IsOf door.now.table_id seat.old Inside }
    requires pass { IsOne seat.old.me.0.parts × MayAdd M.owner (number_of seat.old.me.0.parts) W.added }
    requires value { (m : M) × (seat.old.me.1 ≡ (0, Some m) ∷ [])
        × M.leads door.now.key (entries seat.old.me.0.seen ++ W.added) m }
    ensures { Becomes seat.old seat.new (with_entries seat.old.me.0 W.added, []) }
{
    door.fetch_add::<Serves<W>>(seat, SERVED, 1);
    if door.peek(SLEEPERS) > 0 {
        door.wake_all(SERVED);
    }
}
