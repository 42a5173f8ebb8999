// How many keys a second readers look up in an index, beside its writer and without, and in the same run in a `BTreeMap`
// of the kit, alone and behind a mutex and a reader-writer lock. `bench/index` makes a table of the lines: which map, the
// number of readers, whether a writer was at work, the look-ups of all readers in a second, and the changes in a second.
use crate::times::Plan;
use crate::{indexed, locked, plain};
use std::alloc::Global;
use std::io;
use std::sync::Wait;
use std::thread::Threads;
use std::time::Clock;

/// How often each is timed.
const ROUNDS: u32 = 3;

/// Times them, with so many keys, of which each reader looks so many up.
pub(crate) fn time<R: Threads + Wait + Clock + Print + Sync>(
    rt: &R,
    alloc: Global,
    keys: u64,
    looks: u64,
) -> io::Result<()> {
    let Some(plan) = Plan::new(keys, looks) else {
        return Ok(());
    };
    for _ in 0..ROUNDS {
        indexed::time(rt, alloc, plan)?;
        plain::time(rt, alloc, plan)?;
        locked::time_mutex(rt, alloc, plan)?;
        locked::time_rwlock(rt, alloc, plan)?;
    }
    Ok(())
}
