// Requests for locks.
ghost use Rattle.std.specs.Prelude.{◌≤◌};

use crate::plain::PlainLocks;
use key_space::{Held, Range};
use lock_table::{Key, LockName, LockTable, Mode, Verdict};
use std::alloc::Global;
use std::test::Fail;

/// The answer to session `who`, of the same age, which asks for keys from `lo` to `lo + more` of a table.
fn ask(locks: &mut LockTable, who: u16, table: u16, lo: u64, more: u16, mode: Mode) -> Verdict
    requires { who ≤ 16 }
{
    locks.ask(who, u64::from(who), name_of(table, lo, more), mode)
}

fn name_of(table: u16, lo: u64, more: u16) -> LockName
    ensures { result.range.lo.number ≤ result.range.hi.number }
{
    LockName {
        table,
        range: Range {
            lo: Key {
                number: u128::from(lo),
            },
            hi: Key {
                number: u128::from(lo) + u128::from(more),
            },
        },
    }
}

/// What the second of two sessions gets that ask for the key 5, the first Shared and the second Exclusive.
fn second_answer(alloc: Global, first: u16, second: u16) -> Result<Verdict, Fail>
    requires first { first ≤ 16 }
    requires second { second ≤ 16 }
{
    let mut locks = LockTable::new(alloc)?;
    ask(&mut locks, first, 0, 5, 0, Mode::Shared);
    Ok(ask(&mut locks, second, 0, 5, 0, Mode::Exclusive))
}

#[test]
fn the_younger_dies_and_the_older_waits(rt: HostRuntime) -> Result<(), Fail> {
    assert_eq!(rt;
        second_answer(rt.alloc(), 1, 2)?,
        Verdict::Die { holder: 1 }
    );
    assert_eq!(rt;
        second_answer(rt.alloc(), 2, 1)?,
        Verdict::Wait { holder: 2 }
    );
    Ok(())
}

/// How many of `n` disjoint locks a session is granted, and the answer to one more.
fn granted(alloc: Global, n: u64) -> Result<(u64, Verdict, u32), Fail> {
    let mut locks = LockTable::new(alloc)?;
    let mut granted = 0u64;
    for i in 0..n {
        let lo = 3 * (i % 100_000);
        if ask(&mut locks, 16, 7, lo, 1, Mode::Exclusive) == Verdict::Granted {
            granted = granted.saturating_add(1);
        }
    }
    let last = ask(&mut locks, 16, 8, 1, 1, Mode::Shared);
    Ok((granted, last, locks.held(16)))
}

#[test]
fn a_session_holds_1024_locks(rt: HostRuntime) -> Result<(), Fail> {
    let full = Verdict::Full {
        held: 1024,
        limit: 1024,
    };
    assert_eq!(rt; granted(rt.alloc(), 1024)?, (1024, full, 1024));
    assert_eq!(rt; granted(rt.alloc(), 1023)?, (1023, Verdict::Granted, 1024));
    Ok(())
}

/// The next number of a fixed sequence without visible order.
fn after(number: u64) -> u64 {
    number
        .wrapping_mul(6_364_136_223_846_793_005)
        .wrapping_add(1_442_695_040_888_963_407)
}

/// How many of `n` requests of sixteen sessions, with some releases between them, are answered otherwise than
/// over one list that is looked at whole; and how many were granted.
fn differing(alloc: Global, n: u32, keys: u64) -> Result<(u32, u32), Fail> {
    let mut locks = LockTable::new(alloc)?;
    let mut plain = PlainLocks::new(alloc);
    let mut number = 1u64;
    let mut differ = 0u32;
    let mut granted = 0u32;
    for _ in 0..n {
        number = after(number);
        let who = (number >> 60) as u16 % 16 + 1;
        let lo = (number >> 20) % keys.max(1);
        let more = (number >> 50) as u16 % 4;
        let mode = if number >> 40 & 7 == 0 {
            Mode::Exclusive
        } else {
            Mode::Shared
        };
        let table = if number >> 45 & 1 == 0 { 0 } else { 16 };
        let name = name_of(table, lo, more);
        let age = number >> 55 & 7;
        let answer = locks.ask(who, age, name, mode);
        let wanted = plain.ask(Held {
            who,
            age,
            name,
            mode,
        })?;
        if answer != wanted {
            differ = differ.saturating_add(1);
        }
        if answer == Verdict::Granted {
            granted = granted.saturating_add(1);
        }
        if number >> 30 & 127 == 0 {
            locks.release_all(who);
            plain.release_all(who);
        }
    }
    Ok((differ, granted))
}

#[test]
fn answers_are_those_of_a_list_that_is_looked_at_whole(rt: HostRuntime) -> Result<(), Fail> {
    for (n, keys) in [(2_000, 1_000_000), (2_000, 500), (1_000, 20)] {
        let (differ, granted) = differing(rt.alloc(), n, keys)?;
        assert_eq!(rt; differ, 0);
        assert!(rt; granted > 100);
    }
    Ok(())
}
