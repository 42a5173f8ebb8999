// How many locks are asked for and released in a second, in order and by a look at all of them.
ghost use Rattle.std.specs.Prelude.{◌≤◌};

use crate::scanned::ScannedLocks;
use key_space::{Held, Range};
use lock_table::{Key, LockName, LockTable, Mode, Verdict};
use std::io;
use std::time::{Duration, Instant};

/// The sessions, the locks of each, and how often each releases all of them and asks for others.
const OWNERS: u16 = 16;

const LOCKS: u16 = 64;

const ROUNDS: u32 = 2_000;

/// Locks of sessions.
pub(crate) trait Locks {
    fn ask(&mut self, ask: Held) -> Option<Verdict>;

    fn release_all(&mut self, who: u16);
}

impl Locks for LockTable {
    fn ask(&mut self, ask: Held) -> Option<Verdict> {
        if ask.who > 16 || ask.name.range.lo > ask.name.range.hi {
            return None;
        }
        Some(LockTable::ask(self, ask.who, ask.age, ask.name, ask.mode))
    }

    fn release_all(&mut self, who: u16) {
        if who <= 16 {
            LockTable::release_all(self, who);
        }
    }
}

fn lock_of(who: u16, number: u64) -> Held {
    let key = Key {
        number: u128::from(number >> 24) * 32 + u128::from(who),
    };
    Held {
        who,
        age: u64::from(who),
        name: LockName {
            table: 3,
            range: Range { lo: key, hi: key },
        },
        mode: Mode::Exclusive,
    }
}

/// Each session releases its locks and asks for as many others, over and over: how many it was granted.
fn change_all<L: Locks>(locks: &mut L, rounds: u32) -> u64 {
    let mut number = 1u64;
    let mut granted = 0u64;
    for _ in 0..rounds {
        for who in 1..OWNERS + 1 {
            locks.release_all(who);
            for _ in 0..LOCKS {
                number = number
                    .wrapping_mul(6_364_136_223_846_793_005)
                    .wrapping_add(1_442_695_040_888_963_407);
                if locks.ask(lock_of(who, number)) == Some(Verdict::Granted) {
                    granted = granted.saturating_add(1);
                }
            }
        }
    }
    granted
}

/// How many there were in a second.
fn rate(count: u64, time: Duration) -> u64 {
    let micros = time.as_secs().saturating_mul(1_000_000);
    let micros = micros.saturating_add(u64::from(time.subsec_micros()));
    count.saturating_mul(1_000_000) / micros.max(1)
}

fn time_one<L: Locks>(rt: &HostRuntime, what: &str, locks: &mut L, rounds: u32) -> io::Result<()> {
    change_all(locks, 1);
    let start = Instant::now(rt)?;
    let granted = change_all(locks, rounds);
    let rate = rate(granted, start.elapsed(rt)?);
    println!(rt; "{what}: {rate} locks a second")
}

/// Times them.
pub(crate) fn time(rt: &HostRuntime) -> io::Result<()> {
    let Ok(mut table) = LockTable::new(rt.alloc()) else {
        return println!(rt; "out of memory");
    };
    time_one(rt, "lock_table", &mut table, ROUNDS)?;
    let mut scanned = ScannedLocks::new(rt.alloc());
    time_one(rt, "one list", &mut scanned, ROUNDS / 20)
}
