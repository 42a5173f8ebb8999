// What a seat of the turnstile knows, the rule of its table, and what each step tells. These types are for
// proofs: no value of `Stage` or `View` is ever made.
use crate::told::Told;
use atomic_table::{Join, Play, Split, TableRule};
use std::collections::LinkedList;
use std::marker::{Brand, PhantomData};

/// How far a seat is in its turn.
pub enum Stage {
    /// It makes no turn.
    Idle,
    /// It has drawn a ticket.
    Waiting,
    /// Its ticket was called, and it has the value.
    Inside,
    /// It is the seat of `new`, which hasn't put the first value into the slot yet.
    Filling,
}

/// What one seat knows.
pub struct View<M, E> {
    /// The value that was given to `new`.
    pub start: Option<M>,
    /// At the first pass, how many passes were made, itself among them; elsewhere 0.
    pub made: u64,
    /// How many turns are left.
    pub left: u64,
    /// At the first pass, how many more passes may be made; elsewhere 0.
    pub spare: u64,
    pub stage: Stage,
    /// The ticket, from drawing it on.
    pub ticket: u64,
    /// A beginning of the history.
    pub seen: LinkedList<(u64, E)>,
    /// Further beginnings, which other seats have seen.
    pub heard: LinkedList<LinkedList<(u64, E)>>,
    /// The passes of this seat, each with its entries.
    pub parts: LinkedList<(u64, LinkedList<E>)>,
}

pub struct Law;

impl<M: Told> TableRule<Option<M>, View<M, M::Entry>, M> for Law {
    ghost use Rattle.turnstile.specs.Turns.{Kept};
    ghost use Rattle.turnstile.specs.Steps.{first_view};

    ghost holds = { Kept M.leads M.owner };

    ghost first = { first_view };
}

pub struct Opens;

impl<M, E> Play<Option<M>, View<M, E>> for Opens {
    ghost use Rattle.turnstile.specs.Steps.{opens};

    ghost then = { λ s m n w. opens m w };
}

pub struct Draws;

impl<M, E> Play<Option<M>, View<M, E>> for Draws {
    ghost use Rattle.turnstile.specs.Steps.{draws};

    ghost then = { λ s m n w. draws m n w };
}

pub struct Looks;

impl<M: Told> Play<Option<M>, View<M, M::Entry>> for Looks {
    ghost use Rattle.turnstile.specs.Steps.{looks};

    ghost then = { λ s m n w. looks M.leads M.owner m n w };
}

pub struct Learns;

impl<M: Told> Play<Option<M>, View<M, M::Entry>> for Learns {
    ghost use Rattle.turnstile.specs.Steps.{learns};

    ghost then = { λ s m n w. learns M.owner m w };
}

/// The count of those who sleep changes, and nothing else.
pub struct Rests;

impl<M, E> Play<Option<M>, View<M, E>> for Rests {
    ghost use Rattle.std.specs.Prelude.{◌≡◌};

    ghost then = { λ s m n w. w ≡ m };
}

/// The entries that a turn adds to the history.
///
/// The program passes `Brand` for it at `Turn::leave`, and the caller's proof names the entries there. Where
/// it names none, there are none.
pub trait Adds<E> {
    ghost use Rattle.std.specs.Prelude.{List};

    ghost added: { List E };
}

impl<E> Adds<E> for Brand {
    ghost use Rattle.std.specs.Prelude.{[]};

    ghost added = { [] };
}

pub struct Serves<W> {
    marker: PhantomData<W>,
}

impl<M, E, W: Adds<E>> Play<Option<M>, View<M, E>> for Serves<W> {
    ghost use Rattle.turnstile.specs.Steps.{serves};

    ghost then = { λ s m n w. serves W.added m w };
}

/// A new pass is cut off the first.
pub struct NewPass;

impl<M, E> Split<View<M, E>> for NewPass {
    ghost use Rattle.turnstile.specs.Steps.{after_pass, new_pass};

    ghost left = { after_pass };

    ghost right = { new_pass };
}

/// A note says what the seat has seen.
pub struct Notes;

impl<M, E> Split<View<M, E>> for Notes {
    ghost use Rattle.turnstile.specs.Steps.{note};

    ghost left = { λ v. v };

    ghost right = { note };
}

pub struct Joins;

impl<M, E> Join<View<M, E>> for Joins {
    ghost use Rattle.turnstile.specs.Steps.{joined, spent_view};

    ghost both = { joined };

    ghost spent = { spent_view };
}
