// A map of the kit behind a lock.
use crate::plain::{Map, desks, filled};
use crate::times::{Changes, Looks, Plan, print_alone, print_beside};
use key_space::Key;
use std::alloc::Global;
use std::io;
use std::sync::{Mutex, RwLock, Wait};
use std::thread::Threads;
use std::time::Clock;

/// A reader or the writer of a map behind a mutex.
#[derive(Clone, Copy)]
struct Exclusive<'a> {
    map: &'a Mutex<Map>,
}

impl Looks for Exclusive<'_> {
    fn look<R: Wait>(&mut self, rt: &R, key: Key) -> Option<u64> {
        self.map.lock(rt).get(&key).copied()
    }
}

impl Changes for Exclusive<'_> {
    fn change<R: Wait>(&mut self, rt: &R, key: Key, value: u64) {
        self.map.lock(rt).remove(&key);
        let _ = self.map.lock(rt).insert(key, value);
    }
}

/// A reader or the writer of a map behind a reader-writer lock.
#[derive(Clone, Copy)]
struct Shared<'a> {
    map: &'a RwLock<Map>,
}

impl Looks for Shared<'_> {
    fn look<R: Wait>(&mut self, rt: &R, key: Key) -> Option<u64> {
        self.map.read(rt).get(&key).copied()
    }
}

impl Changes for Shared<'_> {
    fn change<R: Wait>(&mut self, rt: &R, key: Key, value: u64) {
        self.map.write(rt).remove(&key);
        let _ = self.map.write(rt).insert(key, value);
    }
}

/// Times a map behind a mutex.
pub(crate) fn time_mutex<R: Threads + Wait + Clock + Print + Sync>(
    rt: &R,
    alloc: Global,
    plan: Plan,
) -> io::Result<()> {
    let map = Mutex::new(filled(alloc, plan)?);
    let map = Exclusive { map: &map };
    let mut desks = desks(alloc, map)?;
    print_alone(rt, plan, "mutex", desks.as_mut_slice())?;
    print_beside(rt, plan, "mutex", desks.as_mut_slice(), map)
}

/// Times a map behind a reader-writer lock.
pub(crate) fn time_rwlock<R: Threads + Wait + Clock + Print + Sync>(
    rt: &R,
    alloc: Global,
    plan: Plan,
) -> io::Result<()> {
    let map = RwLock::new(filled(alloc, plan)?);
    let map = Shared { map: &map };
    let mut desks = desks(alloc, map)?;
    print_alone(rt, plan, "rwlock", desks.as_mut_slice())?;
    print_beside(rt, plan, "rwlock", desks.as_mut_slice(), map)
}
