// Turns at one value in threads, through a turnstile or under a mutex, for `bench/turns` to time.
ghost use Rattle.std.specs.Prelude.{◌≡◌, ◌<◌, ◌≤◌};

use base_types::OutOfMemory;
use std::alloc::Global;
use std::sync::{Mutex, Wait};
use std::thread::Threads;
use std::{io, thread};
use test_threads::{Count, count_by_many, count_one};

/// As many passes as a turnstile can have beside the first.
const MOST_THREADS: u64 = 63;

/// What gives the turns.
#[derive(Clone, Copy)]
pub(crate) enum By {
    Turnstile,
    Mutex,
}

/// Makes so many turns in each of the threads (1 to 63), and prints how many were counted.
pub(crate) fn time<R: Threads + Wait + Print + Sync>(
    rt: &R,
    alloc: Global,
    by: By,
    threads: u64,
    turns: u64,
) -> io::Result<()> {
    let threads = thread_count(threads);
    let counted = match by {
        By::Turnstile => count_by_many(rt, alloc, threads, turns, 0),
        By::Mutex => count_under_lock(rt, alloc, threads, turns),
    };
    match counted {
        Ok(turns) => rt.println(format_args!("{turns}")),
        Err(OutOfMemory) => rt.println(format_args!("out of memory")),
    }
}

fn thread_count(asked: u64) -> usize
    ensures { (0 < result) × (result < 64) }
{
    asked.clamp(1, MOST_THREADS) as usize
}

/// The same turns under a mutex around the same value.
fn count_under_lock<R: Threads + Wait + Sync>(
    rt: &R,
    alloc: Global,
    threads: usize,
    turns: u64,
) -> Result<u64, OutOfMemory> {
    let total = Mutex::new(Count { turns: 0 });
    let shared = &total;
    thread::map_indices(rt, alloc, threads, &|_| count_locked(rt, shared, turns))?;
    Ok(total.into_inner().turns)
}

/// The turns of one thread, which counts its own too, as one with a pass does.
fn count_locked<R: Wait>(rt: &R, total: &Mutex<Count>, turns: u64) -> u64 {
    let mut counted = 0u64;
    for _ in 0..turns {
        let done = count_one(&mut total.lock(rt).turns);
        counted = counted.saturating_add(u64::from(done));
    }
    counted
}
