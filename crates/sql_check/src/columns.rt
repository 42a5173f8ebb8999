// What the names of a statement stand for.
ghost use Rattle.std.specs.Prelude.{◌≡◌, ◌<◌, ◌≤◌, length, IfSome};
ghost use Rattle.row_types.specs.Schema.{column_named};
ghost use Rattle.sql_check.specs.Columns.{column_number, kind_named, is_marked, is_key};

use row_types::{Column, Columns, Kind, Name, TableDef};

/// The kind of the column with this name.
pub(crate) fn kind_named(columns: &[Column], name: &Name) -> Option<Kind>
    ensures { result ≡ kind_named columns.now name.now }
{
    for column in columns {
        if column.name == *name {
            return Some(column.kind);
        }
    }
    None
}

/// The place of the column with this name.
fn place_named(columns: &[Column], name: &Name) -> Option<usize>
    ensures place { result ≡ column_named columns.now name.now }
    ensures inside { IfSome result (λ place. place < length columns.now) }
{
    for (i, column) in columns.iter().enumerate() {
        if column.name == *name {
            return Some(i);
        }
    }
    None
}

/// The number, from 0, of the column with this name, and 0 where there is none.
pub fn column_number(columns: &Columns, name: &Name) -> u8
    ensures { result ≡ column_number columns.now name.now }
{
    match place_named(columns.as_slice(), name) {
        Some(place) => place as u8,
        None => 0,
    }
}

/// Whether column number `column` is marked as the key.
fn is_marked(marks: &[u8], column: usize) -> bool
    ensures { result ≡ is_marked marks.now column }
{
    marks.iter().any(|mark| *mark as usize == column)
}

/// Whether the column with this name is the key.
pub(crate) fn is_key(def: &TableDef, name: &Name) -> bool
    ensures { result ≡ is_key def.now name.now }
{
    match place_named(def.columns.as_slice(), name) {
        Some(place) => is_marked(def.keys.as_slice(), place),
        None => false,
    }
}
