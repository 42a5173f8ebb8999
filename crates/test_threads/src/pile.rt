// A value with a model.
ghost use Rattle.std.specs.Prelude.{◌≡◌, ◌+◌, ◌<◌, ◌++◌, [], ◌∷◌, true, false, if◌then◌else◌};
ghost use Rattle.turnstile.specs.History.{entries};
ghost use Rattle.turnstile.specs.Words.{name_of, pass_of, at, history};
ghost use Rattle.turnstile.specs.Passes.{IsPass, IsInside, Has, SameButEntries, mine, left, made};

use std::marker::{Brand, Model};
use std::sync::Wait;
use turnstile::{Adds, Pass, Told, Turn, Turnstile};

/// Contracts see a pile as the list of its items.
#[derive(Drop)]
pub struct Pile {
    items: Vec<u64>,
}

impl Model for Pile {
    ghost use Rattle.std.specs.Prelude.{ℕ, List};

    ghost Value = { List ℕ };

    ghost view = { λ p. p.items.items };
}

impl Pile {
    pub fn new(items: Vec<u64>) -> Pile
        ensures { result ≡ items.items }
    {
        Pile { items }
    }

    pub fn put(&mut self, x: u64) -> bool
        ensures put { result ≡ true → self.new ≡ self.old ++ x ∷ [] }
        ensures full { result ≡ false → self.new ≡ self.old }
    {
        self.items.push(x).is_ok()
    }

    pub fn as_slice(&self) -> &[u64]
        ensures { result.now ≡ self.now }
    {
        self.items.as_slice()
    }
}

impl Told for Pile {
    ghost use Rattle.std.specs.Prelude.{◌≡◌, ◌++◌, None};

    type Entry = u64;

    ghost leads = { λ m h n. n ≡ m ++ h };

    ghost owner = { λ e. None };
}

// The turn put x, or nothing.
fn leave_put<W: Adds<u64>>(turn: Turn<'_, '_, Pile>, x: u64, done: bool)
    requires turn { IsInside (at turn) (pass_of turn) }
    requires value { Has (pass_of turn) (λ n. n
        ≡ (at turn).first ++ (entries (history turn) ++ (if done then (x ∷ []) else []))) }
    requires added { W.added ≡ (if done then (x ∷ []) else []) }
    ensures pass { IsPass (at turn.entry) turn.exit.0.now
        × SameButEntries (pass_of turn.entry) turn.exit.0.now }
    ensures mine { mine turn.exit.0.now ≡ mine (pass_of turn.entry) ++ (if done then (x ∷ []) else []) }
{
    turn.leave::<W>();
}

/// One turn, which puts x if there is memory.
pub fn put<R: Wait>(rt: &R, room: &Turnstile<Pile>, pass: &mut Pass<Pile>, x: u64) -> bool
    requires pass { IsPass (name_of room.now) pass.old }
    requires left { 0 < left pass.old }
    ensures pass { IsPass (name_of room.now) pass.new }
    ensures same { (left pass.new + 1 ≡ left pass.old) × (made pass.new ≡ made pass.old) }
    ensures put { mine pass.new ≡ mine pass.old ++ (if result then (x ∷ []) else []) }
{
    let mut turn = room.enter(rt, pass);
    let done = turn.value().put(x);
    leave_put::<Brand>(turn, x, done);
    done
}
