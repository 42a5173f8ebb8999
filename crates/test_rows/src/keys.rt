// Worked examples from outside.
ghost use Rattle.std.specs.Prelude.{◌≡◌};

use crate::rows::table;
use key_space::{Held, Key, LockName, Mode, Range, Verdict, answer_to, key_of};
use row_types::{Row, Schema, Value};
use std::test::Fail;

#[test]
fn keys_of_whole_numbers_at_both_ends(rt: HostRuntime) {
    for (number, key) in [
        (i64::MIN, 0),
        (-1, (1u128 << 63) - 1),
        (0, 1 << 63),
        (i64::MAX, (1 << 64) - 1),
    ] {
        assert_eq!(rt; Key::of_int(number).number, key);
        assert_eq!(rt; Key { number: key }.to_int(), Some(number));
    }
    for key in [1 << 64, u128::MAX] {
        assert_eq!(rt; Key { number: key }.to_int(), None);
    }
}

fn range(lo: u128, hi: u128) -> Range
    ensures lo { result.lo.number ≡ lo }
    ensures hi { result.hi.number ≡ hi }
{
    Range {
        lo: Key { number: lo },
        hi: Key { number: hi },
    }
}

#[test]
fn ranges_share_keys_at_their_ends(rt: HostRuntime) {
    let middle = range(3, 5);
    for (lo, hi, shares, holds) in [
        (0, 2, false, false),
        (0, 3, true, false),
        (3, 5, true, true),
        (4, 4, true, true),
        (2, 6, true, false),
        (5, 9, true, false),
        (6, 9, false, false),
    ] {
        assert!(rt; lo <= hi);
        let other = range(lo, hi);
        assert_eq!(rt; middle.overlaps(&other), shares);
        assert_eq!(rt; middle.contains(&other), holds);
    }
}

fn held(who: u16, age: u64, lo: u128, hi: u128, mode: Mode) -> Held
    ensures lo { result.name.range.lo.number ≡ lo }
    ensures hi { result.name.range.hi.number ≡ hi }
{
    let name = LockName {
        table: 0,
        range: range(lo, hi),
    };
    Held {
        who,
        age,
        name,
        mode,
    }
}

#[test]
fn answers_to_requests(rt: HostRuntime) {
    let locks = [
        held(4, 10, 0, 9, Mode::Shared),
        held(3, 30, 0, 9, Mode::Shared),
        held(2, 20, 5, 9, Mode::Shared),
        held(1, 15, 20, 29, Mode::Exclusive),
    ];
    for (who, age, at, mode, answer) in [
        (7, 25, 5, Mode::Shared, Verdict::Granted),
        (7, 25, 5, Mode::Exclusive, Verdict::Die { holder: 2 }),
        (7, 12, 5, Mode::Exclusive, Verdict::Die { holder: 4 }),
        (7, 5, 5, Mode::Exclusive, Verdict::Wait { holder: 2 }),
        (7, 10, 3, Mode::Exclusive, Verdict::Wait { holder: 3 }),
        (7, 15, 20, Mode::Shared, Verdict::Wait { holder: 1 }),
        (1, 15, 25, Mode::Shared, Verdict::Granted),
        (7, 99, 10, Mode::Exclusive, Verdict::Granted),
    ] {
        let ask = held(who, age, at, at, mode);
        assert_eq!(rt; answer_to(&locks, &ask), answer);
    }
}

#[test]
fn the_key_of_a_row_is_that_of_its_marked_column(rt: HostRuntime) -> Result<(), Fail> {
    let alloc = rt.alloc();
    let mut schema = Schema::empty(alloc);
    schema.add(table(alloc, "CREATE TABLE kv (n INT, id INT PRIMARY KEY)")?)?;
    let mut values = Vec::new(alloc);
    values.push(Value::Int(7))?;
    values.push(Value::Int(-7))?;
    let row = Row::from_vec(values);
    assert_eq!(rt; schema.tables().len(), 1);
    assert!(rt; schema.fits(0, &row));
    assert_eq!(rt; key_of(&schema, 0, &row), Key::of_int(-7));
    Ok(())
}
