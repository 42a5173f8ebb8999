// The turnstile and its turns.
ghost use Rattle.std.specs.Prelude.{◌≡◌, ℕ, ◌+◌, ◌<◌, ◌++◌, List, [], ◌∷◌, Some, None, IfOk, length};
ghost use Rattle.turnstile.specs.History.{Begins, entries, tagged, Owned, MayAdd};
ghost use Rattle.turnstile.specs.Whole.{Hears, Whole};
ghost use Rattle.turnstile.specs.declared.view.Stage.TheVariants.{Idle};
ghost use Rattle.turnstile.specs.Passes.{IsPass, IsInside, IsNew, Has, ArePasses, AllTold, IsWhole};
ghost use Rattle.turnstile.specs.Passes.{SameButSeen, SameButEntries, OneTurnLess, OnePassMore};
ghost use Rattle.turnstile.specs.Passes.{mine, seen, number, left, made, value_in, parts_of, made_by};

use crate::pass::{Pass, PassWith};
use crate::steps::{Place, SERVED, VALUE, WORDS, approach, draw, open, serve, wait};
use crate::told::Told;
use crate::view::{Adds, Joins, Law, Learns, NewPass, Notes, View};
use atomic_table::Table;
use base_types::OutOfMemory;
use std::alloc::Global;
use std::sync::Wait;

/// A value that threads share by turns, each of which adds entries to one history.
#[derive(Drop)]
pub struct Turnstile<M: Told> {
    table: Table<Option<M>, View<M, M::Entry>, M, Law, Global>,
    ghost sized: { (table.shared.table_id.words ≡ 19) × (table.shared.table_id.slots ≡ 1) },
}

/// One turn: the value is this pass's alone until `leave`, which a turn has to end with.
pub struct Turn<'p, 't, M: Told> {
    pass: &'p mut Pass<M>,
    turnstile: &'t Turnstile<M>,
}

impl<M: Told> Turnstile<M> {
    ghost use Rattle.turnstile.specs.Words.{name_of, first_of, pass_of, at, history, Borrows};

    /// A turnstile around the value, and its first pass, which has the number 0 and 2^56 turns.
    ///
    /// `OutOfMemory` where none was found; the value is then dropped.
    pub fn new(alloc: Global, value: M) -> Result<(Turnstile<M>, Pass<M>), OutOfMemory>
        requires { M.leads value [] value }
        ensures first { IfOk result (λ r. first_of r.0 ≡ value) }
        ensures pass { IfOk result (λ r. IsPass (name_of r.0) r.1 × IsNew r.1 0 1 × (seen r.1 ≡ [])) }
    {
        let (table, mut seat) = Table::vacant(alloc, &WORDS, 1, &value)?;
        open(&table.shared, &mut seat, value);
        let pass = PassWith {
            seat,
            number: 0,
            left: 1 << 56,
            made: 1,
        };
        Ok((Turnstile { table }, pass))
    }

    /// A new pass with the next number and 2^56 turns, which
    /// has seen all that the first pass, `from`, has seen.
    ///
    /// A turnstile has at most 64 passes. A new one takes no memory.
    pub fn pass(&self, from: &mut Pass<M>) -> Pass<M>
        requires pass { IsPass (name_of self.now) from.old }
        requires first { (0 < made from.old) × (made from.old < 64) }
        ensures from { IsPass (name_of self.now) from.new × OnePassMore from.old from.new }
        ensures new { IsPass (name_of self.now) result × IsNew result (made from.old) 0 }
        ensures seen { Begins (seen result) (seen from.old) }
        ensures owned { Owned M.owner (seen result) }
    {
        let mut seat = self.table.shared.split_seat::<NewPass>(&mut from.seat);
        self.table.shared.load::<Learns>(&mut seat, SERVED);
        let number = from.made;
        from.made += 1;
        PassWith {
            seat,
            number,
            left: 1 << 56,
            made: 0,
        }
    }

    // b has seen what a had.
    fn tell(&self, a: &mut Pass<M>, b: &mut Pass<M>)
        requires a { IsPass (name_of self.now) a.old }
        requires b { IsPass (name_of self.now) b.old }
        ensures a { IsPass (name_of self.now) a.new × SameButSeen a.old a.new × (seen a.new ≡ seen a.old) }
        ensures b { IsPass (name_of self.now) b.new × SameButSeen b.old b.new }
        ensures seen { Begins (seen b.new) (seen b.old) × Begins (seen b.new) (seen a.old) }
        ensures owned { Owned M.owner (seen b.new) }
    {
        let note = self.table.shared.split_seat::<Notes>(&mut a.seat);
        self.table.shared.join_seat::<Joins>(&mut b.seat, note);
        self.table.shared.load::<Learns>(&mut b.seat, SERVED);
    }

    /// Afterwards each of the two passes has seen what either had. It is no turn, and takes no memory.
    pub fn meet(&self, a: &mut Pass<M>, b: &mut Pass<M>)
        requires a { IsPass (name_of self.now) a.old }
        requires b { IsPass (name_of self.now) b.old }
        ensures a { IsPass (name_of self.now) a.new × SameButSeen a.old a.new }
        ensures b { IsPass (name_of self.now) b.new × SameButSeen b.old b.new }
        ensures a_seen { Begins (seen a.new) (seen a.old) × Begins (seen a.new) (seen b.old) }
        ensures b_seen { Begins (seen b.new) (seen a.old) × Begins (seen b.new) (seen b.old) }
        ensures owned { Owned M.owner (seen a.new) × Owned M.owner (seen b.new) }
    {
        self.tell(a, b);
        self.tell(b, a);
    }

    // The pass draws a ticket, waits for it, and has the value.
    #[inline]
    fn start<R: Wait>(&self, rt: &R, pass: &mut Pass<M>)
        requires pass { IsPass (name_of self.now) pass.old }
        requires left { 0 < left pass.old }
        ensures pass { IsInside (name_of self.now) pass.new × OneTurnLess pass.old pass.new }
        ensures seen { Begins (seen pass.new) (seen pass.old) × Owned M.owner (seen pass.new) }
        ensures value { Has pass.new (M.leads (first_of self.now) (entries (seen pass.new))) }
    {
        approach(&self.table.shared);
        let ticket = draw(&self.table.shared, &mut pass.seat);
        pass.left -= 1;
        wait(rt, &self.table.shared, &mut pass.seat, ticket);
    }

    // The turn ends.
    #[inline]
    fn stop<W: Adds<M::Entry>>(&self, pass: &mut Pass<M>)
        requires pass { IsInside (name_of self.now) pass.old }
        requires may { MayAdd M.owner (number pass.old) W.added }
        requires value { Has pass.old (M.leads (first_of self.now) (entries (seen pass.old) ++ W.added)) }
        ensures pass { IsPass (name_of self.now) pass.new × SameButEntries pass.old pass.new }
        ensures mine { mine pass.new ≡ mine pass.old ++ W.added }
        ensures seen { seen pass.new ≡ seen pass.old ++ tagged (number pass.old) W.added }
    {
        serve::<M, W>(&self.table.shared, &mut pass.seat);
    }

    /// A turn of the pass, which uses up one of those that it
    /// has left. It waits until all that came before have left.
    ///
    /// The history that the value stands for begins with what the pass has seen.
    #[inline]
    pub fn enter<'p, 't, R: Wait>(&'t self, rt: &R, pass: &'p mut Pass<M>) -> Turn<'p, 't, M>
        requires pass { IsPass (name_of self.now) pass.old }
        requires left { 0 < left pass.old }
        ensures borrows { Borrows result pass.entry }
        ensures turnstile { at result ≡ name_of self.now }
        ensures pass { IsInside (name_of self.now) (pass_of result) × OneTurnLess pass.old (pass_of result) }
        ensures seen { Begins (history result) (seen pass.old) }
        ensures owned { Owned M.owner (history result) }
        ensures value { Has (pass_of result) (M.leads (first_of self.now) (entries (history result))) }
    {
        self.start(rt, pass);
        Turn {
            pass,
            turnstile: self,
        }
    }

    // The seat with all that these passes knew.
    fn join_all(&self, mut seat: Place<M>, mut passes: Vec<Pass<M>>) -> Place<M>
        requires table { seat.table_id ≡ (name_of self.now).table }
        requires idle { (seat.me.0.stage ≡ Idle) × (seat.me.1 ≡ []) }
        requires passes { ArePasses (name_of self.now) passes.items }
        ensures seat { (result.table_id ≡ (name_of self.now).table) × (result.me.0.stage ≡ Idle) }
        ensures parts { result.me.0.parts ≡ parts_of passes.items ++ seat.me.0.parts }
        ensures made { result.me.0.made ≡ made_by passes.items + seat.me.0.made }
        ensures heard { AllTold passes.items result.me.0 }
        ensures kept { (h : List (ℕ × M.Entry)) → Hears seat.me.0 h → Hears result.me.0 h }
    {
        while let Some(pass) = passes.pop() {
            self.table
                .shared
                .join_seat::<Joins>(&mut seat, pass.into_seat());
        }
        seat
    }

    // The value at the end, which the seat of all passes knows.
    fn end(self, seat: Place<M>) -> M
        requires seat { (seat.table_id ≡ (name_of self).table) × (seat.me.0.stage ≡ Idle) }
        requires all { (0 < seat.me.0.made) × (seat.me.0.made ≡ length seat.me.0.parts) }
        ensures { (h : List (ℕ × M.Entry)) × Whole M.leads M.owner (first_of self) seat.me.0 h result }
    {
        let Turnstile { table } = self;
        let mut closed = table.close_with(seat);
        let value = closed.take(VALUE);
        closed.free();
        value.unwrap()
    }

    /// The value at the end, which stands for the whole history.
    ///
    /// All passes that were made have to be given back, in
    /// any order. It takes no memory, so it is never refused.
    pub fn finish(self, mut passes: Vec<Pass<M>>) -> M
        requires passes { ArePasses (name_of self) passes.items }
        requires all { (0 < length passes.items) × (made_by passes.items ≡ length passes.items) }
        ensures { (h : List (ℕ × M.Entry)) × IsWhole M.leads M.owner (first_of self) passes.items h result }
    {
        let Some(last) = passes.pop() else {
            unreachable!()
        };
        let seat = self.join_all(last.into_seat(), passes);
        self.end(seat)
    }
}

impl<'p, 't, M: Told> Turn<'p, 't, M> {
    ghost use Rattle.std.specs.Borrow.{sem};
    ghost use Rattle.turnstile.specs.Lending.{LendsValue};
    ghost use Rattle.turnstile.specs.Words.{pass_of, at, history};

    /// The value, which is the pass's alone until the turn ends.
    #[inline]
    pub fn value(&mut self) -> &mut M
        requires turn { IsInside (at self.old) (pass_of self.old) }
        requires some { (m : M) × (value_in (pass_of self.old) ≡ Some m) }
        ensures* writes_back { sem 𝓛 (LendsValue M.row M.Entry.row M.Told self.entry result) }
        ensures value { value_in (pass_of self.old) ≡ Some result.now }
    {
        let turnstile = self.turnstile;
        let pass = &mut *self.pass;
        pass.value_mut(&turnstile.table.shared)
    }

    /// Ends the turn: the value goes back, and the history has the entries W, as this pass's own.
    ///
    /// The value has to stand for the history with them, and
    /// each of them that has an owner has to be this pass's.
    #[inline]
    pub fn leave<W: Adds<M::Entry>>(self)
        requires turn { IsInside (at self) (pass_of self) }
        requires may { MayAdd M.owner (number (pass_of self)) W.added }
        requires value { Has (pass_of self) (M.leads (at self).first (entries (history self) ++ W.added)) }
        ensures pass { IsPass (at self.entry) self.exit.0.now
            × SameButEntries (pass_of self.entry) self.exit.0.now }
        ensures mine { mine self.exit.0.now ≡ mine (pass_of self.entry) ++ W.added }
        ensures seen { seen self.exit.0.now
            ≡ history self.entry ++ tagged (number (pass_of self.entry)) W.added }
    {
        let Turn { pass, turnstile } = self;
        turnstile.stop::<W>(pass);
    }
}
