// Tables as plain lists of rows.
ghost use Rattle.std.specs.Prelude.{◌≡◌, ◌<◌, [], map, length, IfOk};
ghost use Rattle.row_types.specs.Tables.{schema_of, empty_table, AreTables, IsTableRows};
ghost use Rattle.key_space.specs.Plays.{changed};
ghost use Rattle.plain_model.specs.Meaning.{table_at};
ghost use Rattle.plain_model.specs.Views.{paired};

use crate::OutOfMemory;
use row_types::{Items, Row, Schema, TableDef, TryCopy};
use std::alloc::Global;
use std::marker::Model;

/// The tables of a schema, each with its rows in rising order of their keys: seen as the list of
/// definitions with their rows. The rows fit their definitions.
#[derive(Debug, Drop)]
pub struct Tables {
    schema: Schema,
    lists: Vec<Items<Row>>,
}

impl Model for Tables {
    ghost use Rattle.row_types.specs.Tables.{Tables as View};
    ghost use Rattle.plain_model.specs.Views.{paired, IsView};

    ghost Value = { View };

    ghost view = { λ t. paired t.schema t.lists.items };

    ghost invariant = { λ t. IsView t.schema t.lists.items };
}

impl Tables {
    /// The tables of a schema, without rows.
    pub fn new(alloc: Global, schema: Schema) -> Result<Tables, OutOfMemory>
        ensures { IfOk result (λ tables. tables ≡ map empty_table schema) }
    {
        let lists = empty_lists(alloc, schema.tables())?;
        Ok(Tables::from_lists(schema, lists))
    }

    /// The tables of a schema with these rows, as those of an opened database: a list for each definition, in
    /// the order of the definitions. The rows of each list fit their definition, and their keys rise.
    pub fn from_lists(schema: Schema, lists: Vec<Items<Row>>) -> Tables
        requires len { length lists.items ≡ length schema }
        requires tables { AreTables (paired schema lists.items) }
        ensures { result ≡ paired schema lists.items }
    {
        Tables { schema, lists }
    }

    /// The definitions of the tables.
    pub fn schema(&self) -> &Schema
        ensures value { result.now ≡ schema_of self.now }
        ensures tables { AreTables self.now }
    {
        &self.schema
    }

    /// The rows of a table.
    pub fn rows(&self, table: u16) -> &[Row]
        requires { table < length self.now }
        ensures { result.now ≡ (table_at self.now table).rows }
    {
        self.lists[table as usize].as_slice()
    }

    /// The tables, with other rows in one of them.
    pub(crate) fn with_rows(&self, table: u16, rows: Vec<Row>) -> Result<Tables, OutOfMemory>
        requires table { table < length self.now }
        requires rows { IsTableRows (record (table_at self.now table) { rows = rows.items }) }
        ensures { IfOk result (λ tables. tables ≡ changed self.now table (λ t. rows.items)) }
    {
        let mut tables = self.copy()?;
        tables.lists[table as usize] = Items::from_vec(rows);
        Ok(tables)
    }
}

/// A list without rows for each definition.
fn empty_lists(alloc: Global, defs: &[TableDef]) -> Result<Vec<Items<Row>>, OutOfMemory>
    ensures { IfOk result (λ lists. lists.items ≡ map (λ def. []) defs.now) }
{
    Ok(defs.iter().map(|_| Items::new(alloc)).collect(alloc)?)
}

impl TryCopy for Tables {
    fn copy(&self) -> Result<Tables, OutOfMemory> {
        let alloc = *self.lists.allocator();
        let mut lists = Vec::with_capacity(alloc, self.lists.len())?;
        let own = self.lists.as_slice();
        for list in own {
            lists.push(list.copy()?)?;
        }
        Ok(Tables {
            schema: self.schema.copy()?,
            lists,
        })
    }
}
