// Blocks of a pool, and numbers and spans in bytes.
use block_pool::{Pool, PoolFull};
use fields::{diff_span, get_u16, get_u32, get_u64, put_u16, put_u32, put_u64};
use std::test::Fail;

/// Takes all blocks of a pool of `n`: how many could be taken, how many are out then,
/// and what a further call is refused with.
fn filled(alloc: std::alloc::Global, n: u32) -> Result<(u32, u32, Option<PoolFull>), Fail> {
    let mut pool = Pool::new(alloc, n)?;
    let mut taken = 0u32;
    for _ in 0..n {
        if pool.take().is_err() {
            break;
        }
        taken = taken.saturating_add(1);
    }
    let refused = pool.take().err();
    Ok((taken, pool.used(), refused))
}

#[test]
fn a_pool_gives_out_as_many_blocks_as_it_has(rt: HostRuntime) -> Result<(), Fail> {
    for (n, used) in [(1, 1), (5, 5), (64, 64), (4096, 4096)] {
        let full = Some(PoolFull { used, limit: used });
        assert_eq!(rt; filled(rt.alloc(), n)?, (n, n, full));
    }
    Ok(())
}

/// What a second run of three blocks out of five is refused with, how many blocks can be taken then, and what a
/// further one is refused with.
fn behind_a_run(
    alloc: std::alloc::Global,
) -> Result<(Option<PoolFull>, u32, Option<PoolFull>), Fail> {
    let mut pool = Pool::new(alloc, 5)?;
    if pool.take_run(3).is_err() {
        return Err(Fail::from("no run"));
    }
    let refused = pool.take_run(3).err();
    let mut taken = 0u32;
    for _ in 0..2 {
        if pool.take().is_ok() {
            taken = taken.saturating_add(1);
        }
    }
    Ok((refused, taken, pool.take().err()))
}

#[test]
fn a_run_leaves_the_blocks_behind_it(rt: HostRuntime) -> Result<(), Fail> {
    let few = PoolFull { used: 3, limit: 5 };
    let none = PoolFull { used: 5, limit: 5 };
    assert_eq!(rt; behind_a_run(rt.alloc())?, (Some(few), 2, Some(none)));
    Ok(())
}

#[test]
fn numbers_stand_with_the_lowest_byte_first(rt: HostRuntime) {
    let mut bytes = [9u8; 10];
    put_u16(&mut bytes, 1, 0x0201);
    assert_eq!(rt; bytes, [9, 1, 2, 9, 9, 9, 9, 9, 9, 9]);
    put_u32(&mut bytes, 4, 0x0605_0403);
    assert_eq!(rt; bytes, [9, 1, 2, 9, 3, 4, 5, 6, 9, 9]);
    put_u64(&mut bytes, 2, 0x0807_0605_0403_0201);
    assert_eq!(rt; bytes, [9, 1, 1, 2, 3, 4, 5, 6, 7, 8]);
    assert_eq!(rt; get_u16(&bytes, 8), 0x0807);
    assert_eq!(rt; get_u32(&bytes, 0), 0x0201_0109);
    assert_eq!(rt; get_u64(&bytes, 2), 0x0807_0605_0403_0201);
}

/// The span of two lists of 40 bytes that differ at these two places.
fn span_of(first: usize, last: usize) -> Option<(usize, usize)> {
    let before = [7u8; 40];
    let mut after = [7u8; 40];
    if first < 40 && last < 40 {
        after[first] = 8;
        after[last] = 9;
    }
    diff_span(&before, &after)
}

#[test]
fn spans_begin_and_end_with_a_difference(rt: HostRuntime) {
    for (first, last, want) in [
        (40, 40, None),
        (0, 0, Some((0, 1))),
        (39, 39, Some((39, 1))),
        (0, 39, Some((0, 40))),
        (7, 8, Some((7, 2))),
        (8, 15, Some((8, 8))),
        (1, 31, Some((1, 31))),
        (16, 17, Some((16, 2))),
        (33, 38, Some((33, 6))),
    ] {
        assert_eq!(rt; span_of(first, last), want);
    }
}
