// The keys of rows, as numbers.
ghost use Rattle.std.specs.Prelude.{◌≡◌, ◌<◌, ◌≤◌, ◌^◌, ℤ, length, Some, MatchOption, FitsSigned};
ghost use Rattle.std.specs.Int.{w64};
ghost use Rattle.row_types.specs.Keys.{key_of_int, row_key};
ghost use Rattle.row_types.specs.Schema.{columns_at, keys_at};
ghost use Rattle.row_types.specs.Slot.{IsRowOf};

use row_types::{Row, Schema, int_at};

/// A key: a number below 2^128. Keys are in the order of their numbers.
#[derive(Clone, Copy, Debug, Default, PartialEq, Eq, PartialOrd, Ord)]
pub struct Key {
    pub number: u128,
}

/// What is added to a whole number, so that the least of 64 bits is key 0.
const OFFSET: i128 = 1 << 63;

impl Key {
    /// The key of a whole number: the number plus 2^63.
    pub fn of_int(v: i64) -> Key
        ensures { result.number ≡ key_of_int v }
    {
        Key {
            number: (i128::from(v) + OFFSET) as u128,
        }
    }

    /// The whole number whose key it is. `None`: the key is 2^64 or more.
    pub fn to_int(self) -> Option<i64>
        ensures cases { MatchOption result (2 ^ 64 ≤ self.number) (λ v. key_of_int v ≡ self.number) }
        ensures back { (v : ℤ) → FitsSigned w64 v → self.number ≡ key_of_int v → result ≡ Some v }
    {
        let number = u64::try_from(self.number).ok()?;
        Some((i128::from(number) - OFFSET) as i64)
    }
}

/// The key of a row of a table: that of the whole number in the column that is marked as the key.
pub fn key_of(schema: &Schema, table: u16, row: &Row) -> Key
    requires table { table < length schema.now }
    requires row { IsRowOf (columns_at schema.now table) row.now }
    ensures { result.number ≡ row_key (keys_at schema.now table) row.now }
{
    match schema.table(table).keys.as_slice() {
        [] => Key::default(),
        [mark, ..] => Key::of_int(int_at(row, *mark as usize)),
    }
}
