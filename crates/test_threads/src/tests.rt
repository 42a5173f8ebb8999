use super::count::{Count, count_turns, wait_for_a_slow_turn};
use super::lane::{count_behind_a_lock, count_by_many};
use super::marks::{Marks, count_own, look, mark, mark_by_two, mark_two};
use super::pile::{Pile, put};
use std::fs;
use std::process::Abort;
use std::sync::Wait;
use std::test::*;
use std::thread::Threads;
use std::time::{Clock, Duration};
use turnstile::Turnstile;

#[test]
fn the_list_has_the_marks_in_the_order_of_the_turns(rt: HostRuntime) -> Result<(), Fail> {
    let items = Vec::new(rt.alloc());
    let (room, mut a) = Turnstile::new(rt.alloc(), Marks { items })?;
    let mut b = room.pass(&mut a);
    assert!(rt; a.number() == 0 && b.number() == 1);
    assert!(rt; mark(&rt, &room, &mut a, 1));
    assert!(rt; mark_two(&rt, &room, &mut b, 2, 3));
    look(&rt, &room, &mut a);
    assert_eq!(rt; a.left(), (1 << 56) - 2);
    assert_eq!(rt; b.left(), (1 << 56) - 1);
    room.meet(&mut a, &mut b);
    let mut passes = Vec::with_capacity(rt.alloc(), 2)?;
    passes.push_reserved(b);
    passes.push_reserved(a);
    let list = room.finish(passes);
    assert!(rt; list.items.as_slice() == [(0, 1), (1, 2), (1, 3)].as_slice());
    Ok(())
}

#[test]
fn two_threads_make_a_thousand_turns_each(rt: HostRuntime) -> Result<(), Fail> {
    let items = Vec::new(rt.alloc());
    let (room, mut a) = Turnstile::new(rt.alloc(), Marks { items })?;
    let b = room.pass(&mut a);
    let list = mark_by_two(&rt, rt.alloc(), room, a, b, 1000).ok_or("out of memory")?;
    assert_eq!(rt; list.items.len(), 2000);
    assert_eq!(rt; list.items.iter().filter(|m| m.0 == 0).count(), 1000);
    Ok(())
}

#[test]
fn eight_threads_are_counted(rt: HostRuntime) -> Result<(), Fail> {
    assert_eq!(rt; count_by_many(&rt, rt.alloc(), 8, 2000, 0)?, 16_000);
    Ok(())
}

// The turns take from none of the time after which a waiting thread sleeps up to several times as much, so that many turns end
// just when one goes to sleep: a wake that is lost then leaves it asleep for ever.
#[test]
fn eight_threads_that_sleep_are_all_woken(rt: HostRuntime) -> Result<(), Fail> {
    assert_eq!(rt; count_by_many(&rt, rt.alloc(), 8, 4000, 2000)?, 32_000);
    Ok(())
}

#[test]
fn a_pass_behind_a_mutex_is_counted(rt: HostRuntime) -> Result<(), Fail> {
    assert_eq!(rt; count_behind_a_lock(&rt, rt.alloc(), 1000)?, 2000);
    Ok(())
}

#[test]
fn a_pass_counts_the_marks_that_it_made(rt: HostRuntime) -> Result<(), Fail> {
    let items = Vec::new(rt.alloc());
    let (room, mut a) = Turnstile::new(rt.alloc(), Marks { items })?;
    let mut b = room.pass(&mut a);
    assert!(rt; mark(&rt, &room, &mut a, 7) && mark_two(&rt, &room, &mut b, 7, 8));
    assert_eq!(rt; count_own(&rt, &room, &mut a), 1);
    assert_eq!(rt; count_own(&rt, &room, &mut b), 2);
    Ok(())
}

#[test]
fn a_value_with_a_model(rt: HostRuntime) -> Result<(), Fail> {
    let (room, mut a) = Turnstile::new(rt.alloc(), Pile::new(Vec::new(rt.alloc())))?;
    assert!(rt; put(&rt, &room, &mut a, 4) && put(&rt, &room, &mut a, 5));
    let mut passes = Vec::with_capacity(rt.alloc(), 1)?;
    passes.push_reserved(a);
    assert!(rt; room.finish(passes).as_slice() == [4, 5].as_slice());
    Ok(())
}

// The processor time of this process, in hundredths of a second.
fn processor_time(rt: &HostRuntime) -> Option<u64> {
    let text = fs::read_to_string(rt, "/proc/self/stat").ok()?;
    let (_, fields) = text.as_str().rsplit_once(')')?;
    let mut fields = fields.split_whitespace().skip(11);
    let user = fields.next()?.parse::<u64>().ok()?;
    let system = fields.next()?.parse::<u64>().ok()?;
    user.checked_add(system)
}

#[test]
fn a_slow_turn_keeps_no_core_busy(rt: HostRuntime) -> Result<(), Fail> {
    let (room, mut a) = Turnstile::new(rt.alloc(), Count { turns: 0 })?;
    let b = room.pass(&mut a);
    // So that the number of turns that have ended has more than 16 bits.
    count_turns(&rt, &room, &mut a, 70_000);
    let slow = Duration::from_millis(3000);
    let late = Duration::from_millis(100);
    let before = processor_time(&rt).ok_or("no times")?;
    wait_for_a_slow_turn(&rt, &room, a, b, slow, late);
    let spent = processor_time(&rt)
        .ok_or("no times")?
        .saturating_sub(before);
    assert!(rt; spent < 20);
    Ok(())
}
