// Look-ups in threads, and how long they take.
ghost use Rattle.std.specs.Prelude.{◌^◌, ◌<◌, ◌≤◌};
ghost use Rattle.std.specs.Thread.{IsSync};

use key_space::Key;
use std::sync::Wait;
use std::sync::atomic::{AtomicBool, Ordering};
use std::thread::{Threads, join};
use std::time::{Clock, Duration, Instant};
use std::{io, thread};

/// How many keys there are, and how many each reader looks up.
#[derive(Clone, Copy)]
pub(crate) struct Plan {
    pub keys: u64,
    pub looks: u64,
    pub ghost some: { (0 < keys) × (keys ≤ 2 ^ 28) },
}

impl Plan {
    /// At most 2^28 keys. None: there would be nothing to do.
    pub fn new(keys: u64, looks: u64) -> Option<Plan> {
        let keys = keys.min(1 << 28);
        if keys == 0 || looks == 0 {
            return None;
        }
        Some(Plan { keys, looks })
    }

    /// The next seed of a sequence that looks random, and the number below `keys` that it stands for.
    fn next(self, seed: u64) -> (u64, u64) {
        let seed = seed
            .wrapping_mul(6_364_136_223_846_793_005)
            .wrapping_add(1_442_695_040_888_963_407);
        (seed, (seed >> 32) % self.keys)
    }
}

/// The key of a number. Different numbers have different keys, in an order that looks random.
pub(crate) fn key_of(number: u64) -> Key {
    let mixed = (number ^ (number >> 30)).wrapping_mul(0xbf58_476d_1ce4_e5b9);
    let mixed = (mixed ^ (mixed >> 27)).wrapping_mul(0x94d0_49bb_1331_11eb);
    Key {
        number: u128::from(mixed ^ (mixed >> 31)),
    }
}

/// A reader of a map.
pub(crate) trait Looks {
    /// The value of a key.
    fn look<R: Wait>(&mut self, rt: &R, key: Key) -> Option<u64>;
}

/// A writer of a map.
pub(crate) trait Changes {
    /// Drops a key and adds it again with this value.
    fn change<R: Wait>(&mut self, rt: &R, key: Key, value: u64);
}

/// A reader, and how many of its look-ups have found their key.
#[derive(Drop)]
pub(crate) struct Desk<L> {
    pub reader: L,
    pub found: u64,
}

/// The look-ups of one reader.
fn look_all<R: Wait, L: Looks>(rt: &R, plan: Plan, desk: &mut Desk<L>, place: usize) {
    let mut seed = place as u64;
    let mut found = 0u64;
    for _ in 0..plan.looks {
        let (next, number) = plan.next(seed);
        seed = next;
        if desk.reader.look(rt, key_of(number)).is_some() {
            found = found.wrapping_add(1);
        }
    }
    desk.found = found;
}

/// Changes keys until it is told to stop, and returns how often it did.
fn change_all<R: Wait, W: Changes>(rt: &R, plan: Plan, writer: &mut W, stop: &AtomicBool) -> u64 {
    let mut seed = u64::MAX;
    for changed in 0..u64::MAX {
        if stop.load(Ordering::SeqCst) {
            return changed;
        }
        let (next, number) = plan.next(seed);
        seed = next;
        writer.change(rt, key_of(number), number);
    }
    u64::MAX
}

/// How long all look-ups take, each reader's in a thread of its own.
fn time<R: Threads + Wait + Clock + Sync, L: Looks + Send>(
    rt: &R,
    plan: Plan,
    desks: &mut [Desk<L>],
) -> io::Result<Duration> {
    let start = Instant::now(rt)?;
    let threads = desks.len().max(1);
    thread::for_each_mut(
        rt,
        desks,
        threads,
        &|place, desk| look_all(rt, plan, desk, place),
    );
    start.elapsed(rt)
}

/// The same beside a writer, which is returned with the number of its changes.
fn time_beside<R: Threads + Wait + Clock + Sync, L: Looks + Send, W: Changes + Send + Drop>(
    rt: &R,
    plan: Plan,
    desks: &mut [Desk<L>],
    mut writer: W,
) -> (W, u64, io::Result<Duration>) {
    let stop = AtomicBool::new(false);
    let ((writer, changes), time) = join(
        rt,
        || {
            let changes = change_all(rt, plan, &mut writer, &stop);
            (writer, changes)
        },
        || {
            let time = time(rt, plan, desks);
            stop.store(true, Ordering::SeqCst);
            time
        },
    );
    (writer, changes, time)
}

/// How many there were in a second.
fn rate(count: u64, time: Duration) -> u64 {
    let micros = time.as_secs().saturating_mul(1_000_000);
    let micros = micros.saturating_add(u64::from(time.subsec_micros()));
    count.saturating_mul(1_000_000) / micros.max(1)
}

/// How many keys weren't found.
fn missed<L>(plan: Plan, desks: &[Desk<L>]) -> u64 {
    let mut missed = 0u64;
    for desk in desks {
        missed = missed.saturating_add(plan.looks.saturating_sub(desk.found));
    }
    missed
}

/// Times one, two and four readers.
pub(crate) fn print_alone<R: Threads + Wait + Clock + Print + Sync, L: Looks + Send>(
    rt: &R,
    plan: Plan,
    map: &str,
    desks: &mut [Desk<L>],
) -> io::Result<()> {
    for count in [1usize, 2, 4] {
        let readers = count.min(desks.len());
        let desks = &mut desks[..readers];
        let time = time(rt, plan, desks)?;
        let looks = rate(plan.looks.saturating_mul(readers as u64), time);
        let missed = missed(plan, desks);
        rt.println(format_args!("{map} {readers} 0 {looks} 0 {missed}"))?;
    }
    Ok(())
}

/// Times one, two and four readers beside a writer.
pub(crate) fn print_beside<
    R: Threads + Wait + Clock + Print + Sync,
    L: Looks + Send,
    W: Changes + Send + Drop,
>(rt: &R, plan: Plan, map: &str, desks: &mut [Desk<L>], mut writer: W) -> io::Result<()> {
    for count in [1usize, 2, 4] {
        let readers = count.min(desks.len());
        let desks = &mut desks[..readers];
        let (back, changes, time) = time_beside(rt, plan, desks, writer);
        writer = back;
        let time = time?;
        let looks = rate(plan.looks.saturating_mul(readers as u64), time);
        let changes = rate(changes, time);
        let missed = missed(plan, desks);
        rt.println(format_args!("{map} {readers} 1 {looks} {changes} {missed}"))?;
    }
    Ok(())
}
