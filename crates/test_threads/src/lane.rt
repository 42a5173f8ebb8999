// Passes that are known by their type alone: behind a lock, or in a list that threads share out.
ghost use Rattle.std.specs.Prelude.{◌≡◌, ◌+◌, ◌<◌, ◌≤◌, [], length, if◌then◌else◌};
ghost use Rattle.std.specs.Thread.{IsSync};
ghost use Rattle.turnstile.specs.Words.{name_of};
ghost use Rattle.turnstile.specs.Passes.{IsPass, mine, number, left, made};

use crate::count::{Count, count_so_far, count_turn};
use base_types::OutOfMemory;
use std::alloc::Global;
use std::marker::{Brand, Model, PhantomData};
use std::sync::{Mutex, Wait};
use std::thread;
use std::thread::{Threads, join};
use turnstile::{Pass, Turnstile};

/// Names one turnstile.
pub trait Room {
    ghost use Rattle.turnstile.specs.Passes.{Name};
    ghost use Rattle.test_threads.specs.declared.count.Count.{Count};

    ghost name: { Name Count };
}

impl Room for Brand {
    ghost use Rattle.test_threads.specs.Nobody.{nobody};

    ghost name = { nobody };
}

/// A pass, and how many turns it has counted, which is what contracts see.
#[derive(Drop)]
pub struct Lane<B: Room> {
    pass: Pass<Count>,
    counted: u64,
    room: PhantomData<B>,
}

impl<B: Room> Model for Lane<B> {
    ghost use Rattle.std.specs.Prelude.{◌≡◌, ℕ, length};
    ghost use Rattle.turnstile.specs.Passes.{IsPass, mine};

    ghost Value = { ℕ };

    ghost view = { λ l. l.counted };

    ghost invariant = { λ l. IsPass B.name l.pass × (l.counted ≡ length (mine l.pass)) };
}

impl<B: Room> Lane<B> {
    pub fn new(pass: Pass<Count>) -> Lane<B>
        requires { IsPass B.name pass × (mine pass ≡ []) }
        ensures { result ≡ 0 }
    {
        Lane {
            pass,
            counted: 0,
            room: PhantomData,
        }
    }

    /// One turn of so many pauses, if the pass has one left.
    pub fn step<R: Wait>(&mut self, rt: &R, room: &Turnstile<Count>, pauses: u32) -> bool
        requires { name_of room.now ≡ B.name }
        ensures { self.new ≡ self.old + (if result then 1 else 0) }
    {
        if self.pass.left() == 0 || self.counted == u64::MAX {
            return false;
        }
        let done = count_turn(rt, room, &mut self.pass, pauses);
        self.counted += u64::from(done);
        done
    }

    /// So many turns. The first has no pause, each further one a pause more, up to the longest, and then again
    /// from none on.
    pub fn run<R: Wait>(&mut self, rt: &R, room: &Turnstile<Count>, turns: u64, longest: u32)
        requires { name_of room.now ≡ B.name }
    {
        let mut pauses = 0;
        for _ in 0..turns {
            self.step(rt, room, pauses);
            pauses = if pauses < longest { pauses + 1 } else { 0 };
        }
    }
}

// So many turns of a pass that lies behind a lock.
fn run_locked<B: Room, R: Wait>(rt: &R, room: &Turnstile<Count>, lane: &Mutex<Lane<B>>, turns: u64)
    requires { name_of room.now ≡ B.name }
{
    for _ in 0..turns {
        lane.lock(rt).step(rt, room, 0);
    }
}

/// Two threads make so many turns each with one pass, which lies behind a lock; then how many it counted.
pub fn count_by_lock<B: Room + Send + Sync, R: Threads + Wait + Sync>(
    rt: &R,
    room: &Turnstile<Count>,
    pass: Pass<Count>,
    turns: u64,
) -> u64
    requires room { name_of room.now ≡ B.name }
    requires pass { IsPass (name_of room.now) pass × (mine pass ≡ []) }
{
    let lane = Mutex::new(Lane::<B>::new(pass));
    let shared = &lane;
    join(
        rt,
        ||
            requires { IsSync R.row × (name_of room.now ≡ B.name) }
        { run_locked(rt, room, shared, turns) },
        ||
            requires { IsSync R.row × (name_of room.now ≡ B.name) }
        { run_locked(rt, room, shared, turns) },
    );
    lane.into_inner().counted
}

/// The same at a turnstile of its own.
pub fn count_behind_a_lock<R: Threads + Wait + Sync>(
    rt: &R,
    alloc: Global,
    turns: u64,
) -> Result<u64, OutOfMemory> {
    let (room, first) = Turnstile::new(alloc, Count { turns: 0 })?;
    Ok(count_by_lock::<Brand, R>(rt, &room, first, turns))
}

fn lanes<B: Room>(
    alloc: Global,
    room: &Turnstile<Count>,
    first: &mut Pass<Count>,
    count: usize,
) -> Result<Vec<Lane<B>>, OutOfMemory>
    requires room { name_of room.now ≡ B.name }
    requires first { IsPass (name_of room.now) first.old × (made first.old ≡ 1) × (count < 64) }
    ensures first { IsPass (name_of room.now) first.new × (left first.new ≡ left first.old) }
{
    let mut lanes = Vec::with_capacity(alloc, count)?;
    for _ in 0..count {
        lanes.push_reserved(Lane::new(room.pass(first)));
    }
    Ok(lanes)
}

/// So many threads make so many turns each, as `Lane::run` does, and then the first pass looks how many were
/// counted.
pub fn count_by_lanes<B: Room + Send + Sync, R: Threads + Wait + Sync>(
    rt: &R,
    alloc: Global,
    room: &Turnstile<Count>,
    mut first: Pass<Count>,
    threads: usize,
    turns: u64,
    longest: u32,
) -> Result<u64, OutOfMemory>
    requires room { name_of room.now ≡ B.name }
    requires first { IsPass (name_of room.now) first × (made first ≡ 1) × (0 < left first) }
    requires threads { (0 < threads) × (threads < 64) }
{
    let mut lanes = lanes::<B>(alloc, room, &mut first, threads)?;
    thread::for_each_mut(
        rt,
        lanes.as_mut_slice(),
        threads,
        &|_, lane| lane.run(rt, room, turns, longest),
    );
    Ok(count_so_far(rt, room, &mut first))
}

/// The same at a turnstile of its own.
pub fn count_by_many<R: Threads + Wait + Sync>(
    rt: &R,
    alloc: Global,
    threads: usize,
    turns: u64,
    longest: u32,
) -> Result<u64, OutOfMemory>
    requires { (0 < threads) × (threads < 64) }
{
    let (room, first) = Turnstile::new(alloc, Count { turns: 0 })?;
    count_by_lanes::<Brand, R>(rt, alloc, &room, first, threads, turns, longest)
}
