// A value whose entries have owners: a list of marks, each with the number of the pass that made it.
ghost use Rattle.std.specs.Prelude.{◌≡◌, ◌==◌, ℕ, ◌+◌, ◌<◌, ◌≤◌, ◌++◌, [], ◌∷◌, length, true, count_by};
ghost use Rattle.std.specs.Thread.{IsSync};
ghost use Rattle.turnstile.specs.History.{entries};
ghost use Rattle.turnstile.specs.Words.{name_of, first_of, pass_of, at, history};
ghost use Rattle.turnstile.specs.Passes.{IsPass, IsInside, Has, SameButEntries, mine, number, left, made};

use std::alloc::Global;
use std::marker::Brand;
use std::sync::Wait;
use std::thread::{Threads, join};
use turnstile::{Adds, Pass, Told, Turn, Turnstile};

#[derive(Drop)]
pub struct Marks {
    pub items: Vec<(u64, u64)>,
}

impl Told for Marks {
    ghost use Rattle.std.specs.Prelude.{◌≡◌, ◌++◌, Some};

    type Entry = (u64, u64);

    ghost leads = { λ m h n. n.items.items ≡ m.items.items ++ h };

    ghost owner = { λ e. Some e.0 };
}

// The turn added this mark.
fn leave_mark<W: Adds<(u64, u64)>>(turn: Turn<'_, '_, Marks>, mark: (u64, u64))
    requires turn { IsInside (at turn) (pass_of turn) }
    requires own { number (pass_of turn) ≡ mark.0 }
    requires value { Has (pass_of turn) (λ n. n.items.items
        ≡ (at turn).first.items.items ++ (entries (history turn) ++ mark ∷ [])) }
    requires added { W.added ≡ mark ∷ [] }
    ensures pass { IsPass (at turn.entry) turn.exit.0.now
        × SameButEntries (pass_of turn.entry) turn.exit.0.now }
    ensures mine { mine turn.exit.0.now ≡ mine (pass_of turn.entry) ++ mark ∷ [] }
{
    turn.leave::<W>();
}

// The turn changed nothing.
fn leave_same(turn: Turn<'_, '_, Marks>)
    requires turn { IsInside (at turn) (pass_of turn) }
    requires value { Has (pass_of turn) (λ n. n.items.items
        ≡ (at turn).first.items.items ++ entries (history turn)) }
    ensures pass { IsPass (at turn.entry) turn.exit.0.now
        × SameButEntries (pass_of turn.entry) turn.exit.0.now }
    ensures mine { mine turn.exit.0.now ≡ mine (pass_of turn.entry) }
{
    turn.leave::<Brand>();
}

/// One turn, which adds a mark of the pass's own if there is memory.
pub fn mark<R: Wait>(rt: &R, room: &Turnstile<Marks>, pass: &mut Pass<Marks>, what: u64) -> bool
    requires pass { IsPass (name_of room.now) pass.old }
    requires left { 0 < left pass.old }
    ensures pass { IsPass (name_of room.now) pass.new }
    ensures same { (number pass.new ≡ number pass.old) × (left pass.new + 1 ≡ left pass.old)
        × (made pass.new ≡ made pass.old) }
    ensures mine { result ≡ true → mine pass.new ≡ mine pass.old ++ (number pass.old, what) ∷ [] }
{
    let number = pass.number();
    let mut turn = room.enter(rt, pass);
    if turn.value().items.push((number, what)).is_err() {
        leave_same(turn);
        return false;
    }
    leave_mark::<Brand>(turn, (number, what));
    true
}

/// One turn, which adds two marks of the pass's own if there is memory.
pub fn mark_two<R: Wait>(
    rt: &R,
    room: &Turnstile<Marks>,
    pass: &mut Pass<Marks>,
    one: u64,
    two: u64,
) -> bool
    requires pass { IsPass (name_of room.now) pass.old }
    requires left { 0 < left pass.old }
    ensures pass { IsPass (name_of room.now) pass.new }
    ensures same { (number pass.new ≡ number pass.old) × (left pass.new + 1 ≡ left pass.old)
        × (made pass.new ≡ made pass.old) }
    ensures mine { result ≡ true → mine pass.new
        ≡ mine pass.old ++ (number pass.old, one) ∷ (number pass.old, two) ∷ [] }
{
    let number = pass.number();
    let mut turn = room.enter(rt, pass);
    let list = turn.value();
    if list.items.reserve(2).is_err() {
        leave_same(turn);
        return false;
    }
    list.items.push_reserved((number, one));
    list.items.push_reserved((number, two));
    leave_marks::<Brand>(turn, (number, one), (number, two));
    true
}

// The turn added these marks.
fn leave_marks<W: Adds<(u64, u64)>>(turn: Turn<'_, '_, Marks>, one: (u64, u64), two: (u64, u64))
    requires turn { IsInside (at turn) (pass_of turn) }
    requires own { (number (pass_of turn) ≡ one.0) × (number (pass_of turn) ≡ two.0) }
    requires value { Has (pass_of turn) (λ n. n.items.items
        ≡ (at turn).first.items.items ++ (entries (history turn) ++ one ∷ two ∷ [])) }
    requires added { W.added ≡ one ∷ two ∷ [] }
    ensures pass { IsPass (at turn.entry) turn.exit.0.now
        × SameButEntries (pass_of turn.entry) turn.exit.0.now }
    ensures mine { mine turn.exit.0.now ≡ mine (pass_of turn.entry) ++ one ∷ two ∷ [] }
{
    turn.leave::<W>();
}

/// One turn, which adds nothing.
pub fn look<R: Wait>(rt: &R, room: &Turnstile<Marks>, pass: &mut Pass<Marks>)
    requires pass { IsPass (name_of room.now) pass.old }
    requires left { 0 < left pass.old }
    ensures pass { IsPass (name_of room.now) pass.new }
    ensures same { (number pass.new ≡ number pass.old) × (left pass.new + 1 ≡ left pass.old)
        × (made pass.new ≡ made pass.old) }
    ensures mine { mine pass.new ≡ mine pass.old }
{
    let turn = room.enter(rt, pass);
    leave_same(turn);
}

fn count_of(items: &[(u64, u64)], number: u64) -> usize
    ensures { result ≡ count_by (λ e. e.0 == number) items.now }
{
    items.iter().filter(|e| e.0 == number).count()
}

/// One turn, which counts the marks of the pass in the list. They are those that the pass has made.
pub fn count_own<R: Wait>(rt: &R, room: &Turnstile<Marks>, pass: &mut Pass<Marks>) -> usize
    requires pass { IsPass (name_of room.now) pass.old }
    requires left { 0 < left pass.old }
    requires empty { (first_of room.now).items.items ≡ [] }
    ensures pass { IsPass (name_of room.now) pass.new }
    ensures same { (number pass.new ≡ number pass.old) × (left pass.new + 1 ≡ left pass.old)
        × (made pass.new ≡ made pass.old) }
    ensures own { (mine pass.new ≡ mine pass.old) × (result ≡ length (mine pass.old)) }
{
    let number = pass.number();
    let mut turn = room.enter(rt, pass);
    let found = count_of(turn.value().items.as_slice(), number);
    leave_same(turn);
    found
}

/// So many turns, each of which adds a mark, up to the first that finds no memory.
pub fn mark_many<R: Wait>(
    rt: &R,
    room: &Turnstile<Marks>,
    mut pass: Pass<Marks>,
    count: u64,
) -> (Pass<Marks>, bool)
    requires pass { IsPass (name_of room.now) pass }
    requires left { count ≤ left pass }
    ensures pass { IsPass (name_of room.now) result.0 × (number result.0 ≡ number pass)
        × (made result.0 ≡ made pass) }
    ensures added { result.1 ≡ true → length (mine result.0) ≡ length (mine pass) + count }
{
    for i in 0..count {
        if !mark(rt, room, &mut pass, i) {
            return (pass, false);
        }
    }
    (pass, true)
}

/// Two threads make so many turns each. The list at the end, or none where memory ran out.
pub fn mark_by_two<R: Threads + Wait + Sync>(
    rt: &R,
    alloc: Global,
    room: Turnstile<Marks>,
    a: Pass<Marks>,
    b: Pass<Marks>,
    count: u64,
) -> Option<Marks>
    requires a { IsPass (name_of room) a × (number a ≡ 0) × (made a ≡ 2) × (count ≤ left a) }
    requires b { IsPass (name_of room) b × (number b ≡ 1) × (made b ≡ 0) × (count ≤ left b) }
{
    let (first, second) = join(
        rt,
        || -> (Pass<Marks>, bool)
            requires { IsSync R.row × IsPass (name_of room) a × (made a ≡ 2) × (count ≤ left a) }
            ensures { IsPass (name_of room) result.0 × (made result.0 ≡ 2) }
        { mark_many(rt, &room, a, count) },
        || -> (Pass<Marks>, bool)
            requires { IsSync R.row × IsPass (name_of room) b × (made b ≡ 0) × (count ≤ left b) }
            ensures { IsPass (name_of room) result.0 × (made result.0 ≡ 0) }
        { mark_many(rt, &room, b, count) },
    );
    let (first, one) = first;
    let (second, two) = second;
    if !one || !two {
        return None;
    }
    let mut passes = Vec::with_capacity(alloc, 2).ok()?;
    passes.push_reserved(first);
    passes.push_reserved(second);
    Some(room.finish(passes))
}
