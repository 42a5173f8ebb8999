// A value that counts the entries of its history.
ghost use Rattle.std.specs.Prelude.{◌≡◌, ◌+◌, ◌<◌, [], ◌∷◌, ◌++◌, length, if◌then◌else◌};
ghost use Rattle.std.specs.Thread.{IsSync};
ghost use Rattle.turnstile.specs.History.{entries};
ghost use Rattle.turnstile.specs.Words.{name_of, pass_of, at, history};
ghost use Rattle.turnstile.specs.Passes.{IsPass, IsInside, Has, SameButEntries, mine, number, left, made};

use std::marker::Brand;
use std::sync::Wait;
use std::thread::{Threads, join};
use std::time::{Clock, Duration};
use std::{hint, thread};
use turnstile::{Adds, Pass, Told, Turn, Turnstile};

/// How many entries there are. Which ones isn't kept.
#[derive(Drop)]
pub struct Count {
    pub turns: u64,
}

impl Told for Count {
    ghost use Rattle.std.specs.Prelude.{◌≡◌, ◌+◌, length, None};

    type Entry = bool;

    ghost leads = { λ m h n. n.turns ≡ m.turns + length h };

    ghost owner = { λ e. None };
}

// The turn counted itself, or nothing.
fn leave_counted<W: Adds<bool>>(turn: Turn<'_, '_, Count>, done: bool)
    requires turn { IsInside (at turn) (pass_of turn) }
    requires value { Has (pass_of turn) (λ n. n.turns ≡ (at turn).first.turns
        + length (entries (history turn) ++ (if done then (done ∷ []) else []))) }
    requires added { W.added ≡ (if done then (done ∷ []) else []) }
    ensures pass { IsPass (at turn.entry) turn.exit.0.now
        × SameButEntries (pass_of turn.entry) turn.exit.0.now }
    ensures mine { mine turn.exit.0.now ≡ mine (pass_of turn.entry) ++ (if done then (done ∷ []) else []) }
{
    turn.leave::<W>();
}

/// Counts one more, where a number of 64 bits has room for it.
pub fn count_one(n: &mut u64) -> bool
    ensures { n.new ≡ n.old + (if result then 1 else 0) }
{
    match n.checked_add(1) {
        Some(more) => {
            *n = more;
            true
        }
        None => false,
    }
}

// Lets the processor pause so many times.
#[inline]
fn pause(pauses: u32) {
    for _ in 0..pauses {
        hint::spin_loop();
    }
}

/// One turn, which counts itself and takes as long as so many pauses of the processor.
pub fn count_turn<R: Wait>(
    rt: &R,
    room: &Turnstile<Count>,
    pass: &mut Pass<Count>,
    pauses: u32,
) -> bool
    requires pass { IsPass (name_of room.now) pass.old }
    requires left { 0 < left pass.old }
    ensures pass { IsPass (name_of room.now) pass.new }
    ensures same { (number pass.new ≡ number pass.old) × (made pass.new ≡ made pass.old) }
    ensures left { left pass.new + 1 ≡ left pass.old }
    ensures mine { mine pass.new ≡ mine pass.old ++ (if result then (result ∷ []) else []) }
{
    let mut turn = room.enter(rt, pass);
    let done = count_one(&mut turn.value().turns);
    pause(pauses);
    leave_counted::<Brand>(turn, done);
    done
}

/// So many turns, each of which counts itself. The pass has more turns than that left.
pub fn count_turns<R: Wait>(rt: &R, room: &Turnstile<Count>, pass: &mut Pass<Count>, turns: u64)
    requires pass { IsPass (name_of room.now) pass.old }
    requires left { turns < left pass.old }
    ensures pass { IsPass (name_of room.now) pass.new }
    ensures left { left pass.new + turns ≡ left pass.old }
{
    for _ in 0..turns {
        count_turn(rt, room, pass, 0);
    }
}

/// One turn, which adds nothing: how many were counted so far.
pub fn count_so_far<R: Wait>(rt: &R, room: &Turnstile<Count>, pass: &mut Pass<Count>) -> u64
    requires pass { IsPass (name_of room.now) pass.old }
    requires left { 0 < left pass.old }
    ensures pass { IsPass (name_of room.now) pass.new }
    ensures mine { mine pass.new ≡ mine pass.old }
{
    let mut turn = room.enter(rt, pass);
    let turns = turn.value().turns;
    leave_counted::<Brand>(turn, false);
    turns
}

// One turn, which takes so long and adds nothing.
fn slow_turn<R: Wait + Clock>(
    rt: &R,
    room: &Turnstile<Count>,
    mut pass: Pass<Count>,
    time: Duration,
)
    requires pass { IsPass (name_of room.now) pass }
    requires left { 0 < left pass }
{
    let turn = room.enter(rt, &mut pass);
    thread::sleep(rt, time);
    leave_counted::<Brand>(turn, false);
}

// One turn, so much later.
fn late_turn<R: Wait + Clock>(
    rt: &R,
    room: &Turnstile<Count>,
    mut pass: Pass<Count>,
    later: Duration,
)
    requires pass { IsPass (name_of room.now) pass }
    requires left { 0 < left pass }
{
    thread::sleep(rt, later);
    count_turn(rt, room, &mut pass, 0);
}

/// One thread makes a turn that takes `time`, and another wants one when `later` has gone by.
pub fn wait_for_a_slow_turn<R: Threads + Wait + Clock + Sync>(
    rt: &R,
    room: &Turnstile<Count>,
    slow: Pass<Count>,
    late: Pass<Count>,
    time: Duration,
    later: Duration,
)
    requires slow { IsPass (name_of room.now) slow × (0 < left slow) }
    requires late { IsPass (name_of room.now) late × (0 < left late) }
{
    join(
        rt,
        ||
            requires { IsSync R.row × IsPass (name_of room.now) slow × (0 < left slow) }
        { slow_turn(rt, room, slow, time) },
        ||
            requires { IsSync R.row × IsPass (name_of room.now) late × (0 < left late) }
        { late_turn(rt, room, late, later) },
    );
}
