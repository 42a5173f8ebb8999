// Pages of slots.
ghost use Rattle.slot_pages.specs.State.{IsPage};

use row_types::{Column, Items, Kind, Name, Schema, TableDef, int_at};
use slot_pages::{BadPage, Page, Pool, PoolFull};
use std::alloc::Global;
use std::test::Fail;

/// A change of a page's slots, whose length is 17.
#[derive(Clone, Copy)]
enum Step {
    /// The slot's first byte is flipped.
    Flip(u16),
    /// A later byte of it is flipped.
    FlipBehind(u16),
    Hold(u16),
    Unhold(u16),
    Skip,
}

/// Flips a byte's lowest bit, where the page has the byte.
fn flip(page: &mut Page, pool: &mut Pool, offset: u16)
    requires { IsPage pool.old page.old }
    ensures { IsPage pool.new page.new }
{
    if offset < 4096 && page.stamp() < 1000 {
        page.toggle(pool, offset, &[1]);
    }
}

fn apply(page: &mut Page, pool: &mut Pool, step: Step)
    requires { IsPage pool.old page.old }
    ensures { IsPage pool.new page.new }
{
    match step {
        Step::Flip(n) => flip(page, pool, n.min(255) * 17),
        Step::FlipBehind(n) => flip(page, pool, n.min(255) * 17 + 3),
        Step::Hold(n) => page.hold(n.min(255)),
        Step::Unhold(n) => page.unhold(n.min(255)),
        Step::Skip => page.skip_taken(pool, 17),
    }
}

#[test]
fn the_first_free_slot_is_the_lowest_that_is_empty_and_not_held(
    rt: HostRuntime,
) -> Result<(), Fail> {
    let mut pool = Pool::new(rt.alloc(), 2)?;
    let Ok(mut page) = Page::fresh(&mut pool, 0, 0) else {
        return Err(Fail::from("the pool is full"));
    };
    for (step, want, stamp) in [
        (Step::Skip, 0, 0),
        (Step::Flip(0), 1, 1),
        (Step::Skip, 1, 1),
        (Step::Hold(1), 2, 1),
        (Step::Skip, 2, 1),
        (Step::Flip(2), 3, 2),
        (Step::Skip, 3, 2),
        (Step::FlipBehind(2), 3, 3),
        (Step::FlipBehind(3), 4, 4),
        (Step::Flip(0), 0, 5),
        (Step::Flip(0), 4, 6),
        (Step::Skip, 4, 6),
        (Step::Unhold(1), 1, 6),
        (Step::Flip(239), 1, 7),
        (Step::Skip, 1, 7),
        (Step::Flip(1), 4, 8),
    ] {
        apply(&mut page, &mut pool, step);
        assert_eq!(rt; page.first_free(&pool, 17), Some(want));
        assert_eq!(rt; page.stamp(), stamp);
    }
    Ok(())
}

fn int_column(alloc: Global, name: &str) -> Result<Column, Fail> {
    match Name::new(alloc, name)? {
        Some(name) => Ok(Column {
            name,
            kind: Kind::Int,
        }),
        None => Err(Fail::from("no name")),
    }
}

/// The schema of one table of two whole numbers, the first being its key.
fn pairs(alloc: Global) -> Result<Schema, Fail> {
    let id = int_column(alloc, "id")?;
    let n = int_column(alloc, "n")?;
    let Some(name) = Name::new(alloc, "kv")? else {
        return Err(Fail::from("no name"));
    };
    let def = TableDef {
        name,
        columns: Items::from_vec(vec![in alloc; id, n]?),
        keys: Items::from_vec(vec![in alloc; 0u8]?),
    };
    let mut schema = Schema::empty(alloc);
    match schema.add(def) {
        Ok(()) => Ok(schema),
        Err(_) => Err(Fail::from("the table is refused")),
    }
}

/// What a page says that is 0 but for the byte at a place.
fn checked(alloc: Global, at: usize, byte: u8) -> Result<Result<(), BadPage>, Fail> {
    let schema = pairs(alloc)?;
    let mut image = vec![in alloc; 0u8; 4096]?;
    if schema.tables().is_empty() || at >= image.len() {
        return Err(Fail::from("no such byte"));
    }
    image[at] = byte;
    let mut pool = Pool::new(alloc, 1)?;
    match Page::from_image(&mut pool, 0, 7, 5, &image) {
        Ok(page) => Ok(page.check(&pool, &schema)),
        Err(_) => Err(Fail::from("the pool is full")),
    }
}

#[test]
fn a_page_is_refused_at_its_first_fault(rt: HostRuntime) -> Result<(), Fail> {
    for (at, byte, slot, place) in [
        (0, 2, 0, 0),
        (1, 1, 0, 1),
        (17, 3, 1, 0),
        (33, 1, 1, 16),
        (239 * 17, 2, 239, 0),
        (239 * 17 + 16, 1, 239, 16),
        (4080, 1, 240, 0),
        (4095, 255, 240, 15),
    ] {
        assert_eq!(rt;
            checked(rt.alloc(), at, byte)?,
            Err(BadPage { slot, at: place })
        );
    }
    for at in [0, 17, 239 * 17] {
        assert_eq!(rt; checked(rt.alloc(), at, 1)?, Ok(()));
    }
    Ok(())
}

/// What a page's first slot holds, as both calls say that read a slot without a fault.
fn held(alloc: Global, page: &Page, pool: &Pool) -> Result<Option<(i64, i64)>, Fail>
    requires { IsPage pool.now page.now }
{
    let schema = pairs(alloc)?;
    if schema.tables().is_empty() || schema.slot_len(0) != 17 {
        return Err(Fail::from("another table"));
    }
    let slot = page.slot(pool, 0, 17);
    if schema.slot_fault(0, slot).is_some() {
        return Err(Fail::from("a fault"));
    }
    let key = schema.int_in_slot(0, slot, 0);
    match schema.decode_checked(alloc, 0, slot)? {
        Some(row) if key == Some(int_at(&row, 0)) => Ok(Some((int_at(&row, 0), int_at(&row, 1)))),
        None if key.is_none() => Ok(None),
        _ => Err(Fail::from("another key")),
    }
}

/// Flips the bits of an inserted row, or those that an update changes.
fn change(page: &mut Page, pool: &mut Pool, offset: u16)
    requires { IsPage pool.old page.old }
    ensures { IsPage pool.new page.new }
{
    if page.stamp() >= 1000 {
        return;
    }
    if offset == 0 {
        page.toggle(pool, 0, &[1, 1, 0, 0, 0, 0, 0, 0, 0, 10]);
    } else {
        page.toggle(pool, 9, &[30]);
    }
}

#[test]
fn a_slot_that_is_toggled_twice_is_as_before(rt: HostRuntime) -> Result<(), Fail> {
    let mut pool = Pool::new(rt.alloc(), 1)?;
    let Ok(mut page) = Page::fresh(&mut pool, 0, 0) else {
        return Err(Fail::from("the pool is full"));
    };
    let full = PoolFull { used: 1, limit: 1 };
    assert_eq!(rt; Page::fresh(&mut pool, 0, 1).err(), Some(full));
    for (offset, want, stamp) in [
        (0, Some((1, 10)), 1),
        (9, Some((1, 20)), 2),
        (9, Some((1, 10)), 3),
        (9, Some((1, 20)), 4),
        (9, Some((1, 10)), 5),
        (0, None, 6),
    ] {
        change(&mut page, &mut pool, offset);
        assert_eq!(rt; held(rt.alloc(), &page, &pool)?, want);
        assert_eq!(rt; page.stamp(), stamp);
    }
    Ok(())
}
