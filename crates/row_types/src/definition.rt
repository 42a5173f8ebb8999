// What a table is defined by: its name, its columns and which of them are its key.

use crate::{Items, Name, OutOfMemory, TryCopy};

/// What a column holds: whole numbers, or texts of at most so many bytes.
#[derive(Clone, Copy, Debug, PartialEq, Eq, Drop)]
pub enum Kind {
    Int,
    Text(u16),
}

/// A column of a table.
#[derive(Debug, Drop)]
pub struct Column {
    pub name: Name,
    pub kind: Kind,
}

impl TryCopy for Column {
    fn copy(&self) -> Result<Column, OutOfMemory> {
        Ok(Column {
            name: self.name.copy()?,
            kind: self.kind,
        })
    }
}

/// The definition of a table: its name, its columns, and the numbers, from 0, of the columns that are marked
/// PRIMARY KEY.
#[derive(Debug, Drop)]
pub struct TableDef {
    pub name: Name,
    pub columns: Items<Column>,
    pub keys: Items<u8>,
}

impl TryCopy for TableDef {
    fn copy(&self) -> Result<TableDef, OutOfMemory> {
        Ok(TableDef {
            name: self.name.copy()?,
            columns: self.columns.copy()?,
            keys: self.keys.copy()?,
        })
    }
}
