// A map of the kit that nobody changes while it is read.
use crate::times::{Desk, Looks, Plan, key_of, print_alone};
use key_space::Key;
use std::alloc::{AllocError, Global};
use std::collections::BTreeMap;
use std::io;
use std::sync::Wait;
use std::thread::Threads;
use std::time::Clock;

pub(crate) type Map = BTreeMap<Key, u64>;

/// A map with all keys.
pub(crate) fn filled(alloc: Global, plan: Plan) -> Result<Map, AllocError> {
    let mut map = BTreeMap::new(alloc);
    for number in 0..plan.keys {
        map.insert(key_of(number), number)?;
    }
    Ok(map)
}

/// A reader of a map.
#[derive(Clone, Copy)]
struct Alone<'a> {
    map: &'a Map,
}

impl Looks for Alone<'_> {
    fn look<R: Wait>(&mut self, _rt: &R, key: Key) -> Option<u64> {
        self.map.get(&key).copied()
    }
}

/// Times a map alone.
pub(crate) fn time<R: Threads + Wait + Clock + Print + Sync>(
    rt: &R,
    alloc: Global,
    plan: Plan,
) -> io::Result<()> {
    let map = filled(alloc, plan)?;
    let mut desks = desks(alloc, Alone { map: &map })?;
    print_alone(rt, plan, "plain", desks.as_mut_slice())
}

/// Four readers.
pub(crate) fn desks<L: Copy>(alloc: Global, reader: L) -> Result<Vec<Desk<L>>, AllocError> {
    let mut desks = Vec::with_capacity(alloc, 4)?;
    for _ in 0..4 {
        desks.push(Desk { reader, found: 0 })?;
    }
    Ok(desks)
}
