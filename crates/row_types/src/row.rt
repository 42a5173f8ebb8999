// Values and rows.
ghost use Rattle.std.specs.Prelude.{◌≡◌};
ghost use Rattle.row_types.specs.Keys.{int_at};

use crate::{Items, OutOfMemory, Text, TryCopy};

/// A value of a row: a whole number from -2^63 to 2^63 - 1, or a text.
#[derive(Debug, PartialEq, Eq, Drop)]
pub enum Value {
    Int(i64),
    Text(Text),
}

impl TryCopy for Value {
    fn copy(&self) -> Result<Value, OutOfMemory> {
        match self {
            Value::Int(number) => Ok(Value::Int(*number)),
            Value::Text(text) => Ok(Value::Text(text.copy()?)),
        }
    }
}

/// A row: its values in the order of the columns.
pub type Row = Items<Value>;

/// The whole number at a place of a row, 0 where no such stands.
pub fn int_at(row: &Row, place: usize) -> i64
    ensures { result ≡ int_at row.now place }
{
    match row.as_slice().get(place) {
        Some(Value::Int(number)) => *number,
        _ => 0,
    }
}
