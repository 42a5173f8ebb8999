// The columns of a table.
use crate::Column;
use std::marker::Model;

/// The columns of a table, in their order: at most 32, so a byte tells one.
#[derive(Debug, Drop)]
pub struct Columns<'a> {
    columns: &'a [Column],
}

impl<'a> Model for Columns<'a> {
    ghost use Rattle.std.specs.Prelude.{◌≤◌, List, length};
    ghost use Rattle.row_types.specs.declared.definition.Column.{Column};

    ghost Value = { List Column };

    ghost view = { λ c. c.columns.now };

    ghost invariant = { λ c. length c.columns.now ≤ 32 };
}

impl<'a> Columns<'a> {
    ghost use Rattle.std.specs.Prelude.{◌≡◌, ◌≤◌, length};

    /// These columns.
    pub fn new(columns: &'a [Column]) -> Columns<'a>
        requires { length columns.now ≤ 32 }
        ensures { result ≡ columns.now }
    {
        Columns { columns }
    }

    /// The columns as a slice.
    pub fn as_slice(&self) -> &'a [Column]
        ensures value { result.now ≡ self.now }
        ensures few { length result.now ≤ 32 }
    {
        self.columns
    }
}
