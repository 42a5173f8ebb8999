// The keys that a statement is about.
ghost use Rattle.std.specs.Prelude.{◌≡◌, ◌<◌, ◌^◌};
ghost use Rattle.row_types.specs.Keys.{row_key};
ghost use Rattle.sql_check.specs.KeyRange.{low_end, high_end, key_in, keys_below, range_of, range_of_rows};

use crate::columns::is_key;
use key_space::{Key, Range};
use row_types::{Row, TableDef, Value, int_at};
use sql_parse::{Comparison, Condition};

/// The first number above the keys of whole numbers.
const END: u128 = 1 << 64;

/// The key that a condition on the key compares with.
fn key_in(condition: &Condition) -> u128
    ensures key { result ≡ key_in condition.now }
    ensures small { result < 2 ^ 64 }
{
    match &condition.value {
        Value::Int(number) => Key::of_int(*number).number,
        Value::Text(_) => Key::of_int(0).number,
    }
}

/// The least key that compares so with another.
fn low_end(comparison: Comparison, key: u128) -> u128
    requires { key < 2 ^ 64 }
    ensures { result ≡ low_end comparison key }
{
    match comparison {
        Comparison::Equal | Comparison::GreaterEqual => key,
        Comparison::Greater => key + 1,
        Comparison::NotEqual | Comparison::Less | Comparison::LessEqual => 0,
    }
}

/// The first key above those that compare so with another.
fn high_end(comparison: Comparison, key: u128) -> u128
    requires { key < 2 ^ 64 }
    ensures { result ≡ high_end comparison key }
{
    match comparison {
        Comparison::Equal | Comparison::LessEqual => key + 1,
        Comparison::Less => key,
        Comparison::NotEqual | Comparison::Greater | Comparison::GreaterEqual => END,
    }
}

/// The keys from one up to below another.
fn keys_below(from: u128, end: u128) -> Option<Range>
    ensures { result ≡ keys_below from end }
{
    if from >= end {
        return None;
    }
    Some(Range {
        lo: Key { number: from },
        hi: Key { number: end - 1 },
    })
}

/// The keys that the conditions on the key allow. `None`: there are none.
pub(crate) fn range_of(def: &TableDef, conditions: &[Condition]) -> Option<Range>
    ensures { result ≡ range_of def.now conditions.now }
{
    let mut from = 0;
    let mut end = END;
    for condition in conditions {
        if is_key(def, &condition.column) {
            let key = key_in(condition);
            from = from.max(low_end(condition.comparison, key));
            end = end.min(high_end(condition.comparison, key));
        }
    }
    keys_below(from, end)
}

/// From the least of the keys of some rows to the greatest. `None`: there are no rows.
pub(crate) fn range_of_rows(marks: &[u8], rows: &[Row]) -> Option<Range>
    ensures { result ≡ range_of_rows marks.now rows.now }
{
    let (first, rest) = rows.split_first()?;
    let first = row_key(marks, first).number;
    let mut least = first;
    let mut greatest = first;
    for row in rest {
        let key = row_key(marks, row).number;
        least = least.min(key);
        greatest = greatest.max(key);
    }
    Some(Range {
        lo: Key { number: least },
        hi: Key { number: greatest },
    })
}

/// The key of a row, whose marked columns these are: that of the whole number in the first.
pub fn row_key(marks: &[u8], row: &Row) -> Key
    ensures { result.number ≡ row_key marks.now row.now }
{
    match marks {
        [] => Key::default(),
        [mark, ..] => Key::of_int(int_at(row, *mark as usize)),
    }
}
