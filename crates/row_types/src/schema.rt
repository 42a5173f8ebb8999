// Schemas: the definitions of the tables that there are.
ghost use Rattle.std.specs.Prelude.{◌≡◌, ◌⊎◌, ◌↔◌, ◌<◌, ◌≤◌, ◌++◌, ◌∷◌, [], List, length, Some, None, Ok};
ghost use Rattle.std.specs.Prelude.{Err, IsTrue, IfSome, IfNone, OnOk, OnErr, slice_get};
ghost use Rattle.std.specs.List.{AllByRecursion};
ghost use Rattle.row_types.specs.Text.{IsName};
ghost use Rattle.row_types.specs.declared.definition.TableDef.{TableDef};
ghost use Rattle.row_types.specs.Schema.{table_named, column_named, has_table, has_column, doubled_from};
ghost use Rattle.row_types.specs.Schema.{has_int_key, refusal, verdict, columns_at, IsTable, IsNamed};
ghost use Rattle.row_types.specs.Schema.{IsSchema};
ghost use Rattle.row_types.specs.Slot.{slot_len};
ghost use Rattle.row_types.specs.Tables.{Tables, AreTables, created};

use crate::slot::slot_len;
use crate::{Column, Items, Kind, OutOfMemory, SchemaFault, TableDef, TryCopy};
use std::alloc::Global;
use std::marker::Model;

/// The most tables of a schema.
const TABLES: usize = 16;
/// The most columns of a table.
const COLUMNS: usize = 32;
/// The bytes of a page, which a slot has to fit.
pub(crate) const PAGE: usize = 4096;

/// The definitions of the tables in the order of their making,
/// seen as their list. A table's number is its place there.
#[derive(Debug, Drop)]
pub struct Schema {
    tables: Items<TableDef>,
}

impl Model for Schema {
    ghost use Rattle.std.specs.Prelude.{List};
    ghost use Rattle.row_types.specs.declared.definition.TableDef.{TableDef};
    ghost use Rattle.row_types.specs.Schema.{IsSchema};

    ghost Value = { List TableDef };

    ghost view = { λ s. s.tables };

    ghost invariant = { λ s. IsSchema s.tables };
}

impl Schema {
    ghost use Rattle.row_types.specs.Schema.{IsSchema};

    /// No table.
    pub fn empty(alloc: Global) -> Schema
        ensures { result ≡ [] }
    {
        Schema {
            tables: Items::new(alloc),
        }
    }

    /// The definitions of its tables, at most 16.
    pub fn tables(&self) -> &[TableDef]
        ensures value { result.now ≡ self.now }
        ensures schema { IsSchema self.now }
        ensures few { length self.now ≤ 16 }
    {
        self.tables.as_slice()
    }

    /// The definition of a table.
    pub fn table(&self, table: u16) -> &TableDef
        requires { table < length self.now }
        ensures value { slice_get self.now table ≡ Some result.now }
        ensures table { IsTable result.now }
    {
        &self.tables.as_slice()[table as usize]
    }

    /// The columns of a table, 1 to 32.
    pub fn columns(&self, table: u16) -> &[Column]
        requires { table < length self.now }
        ensures value { result.now ≡ columns_at self.now table }
        ensures some { 0 < length result.now }
        ensures few { length result.now ≤ 32 }
        ensures narrow { slot_len result.now ≤ 4096 }
    {
        self.table(table).columns.as_slice()
    }

    /// The number of the table with this name. `None`: no table has it.
    pub fn find_table(&self, name: &str) -> Option<u16>
        ensures value { result ≡ table_named self.now name.now }
        ensures inside { IfSome result (λ table. table < length self.now) }
    {
        let table = table_named(self.tables(), name)?;
        Some(table as u16)
    }

    /// The number of the column of a table with this name. `None`: no column has it.
    pub fn find_column(&self, table: u16, name: &str) -> Option<u8>
        requires { table < length self.now }
        ensures value { result ≡ column_named (columns_at self.now table) name.now }
        ensures inside { IfSome result (λ column. column < length (columns_at self.now table)) }
    {
        let column = column_named(self.columns(table), name)?;
        Some(column as u8)
    }

    /// Adds a table at the end. It is refused for the first of these rules that it breaks, and then nothing
    /// is added: no other table has its name; there are below 16 tables; it has at most 32 columns; their
    /// names differ (the place is the number of the first column whose name an earlier one has); one column
    /// is marked as the key, and it holds whole numbers; a slot has at most 4,096 bytes.
    pub fn add(&mut self, def: TableDef) -> Result<(), SchemaFault>
        ensures verdict { (result ≡ verdict self.old def)
            ⊎ ((verdict self.old def ≡ Ok tt) × (result ≡ Err SchemaFault.OutOfMemory)) }
        ensures ok { OnOk result (self.new ≡ self.old ++ def ∷ []) }
        ensures err { OnErr result (self.new ≡ self.old) }
    {
        if let Some(fault) = refusal(self.tables.as_slice(), &def) {
            return Err(fault);
        }
        self.tables.push(def)?;
        Ok(())
    }
}

impl TryCopy for Schema {
    fn copy(&self) -> Result<Schema, OutOfMemory> {
        Ok(Schema {
            tables: self.tables.copy()?,
        })
    }
}

fn table_named(tables: &[TableDef], name: &str) -> Option<usize>
    ensures value { result ≡ table_named tables.now name.now }
    ensures inside { IfSome result (λ table. table < length tables.now) }
{
    for (i, table) in tables.iter().enumerate() {
        if table.name.as_str() == name {
            return Some(i);
        }
    }
    None
}

fn column_named(columns: &[Column], name: &str) -> Option<usize>
    ensures value { result ≡ column_named columns.now name.now }
    ensures inside { IfSome result (λ column. column < length columns.now) }
{
    for (i, column) in columns.iter().enumerate() {
        if column.name.as_str() == name {
            return Some(i);
        }
    }
    None
}

fn has_table(tables: &[TableDef], name: &str) -> bool
    ensures { result ≡ has_table tables.now name.now }
{
    tables.iter().any(|table| table.name.as_str() == name)
}

fn has_column(columns: &[Column], name: &str) -> bool
    ensures { result ≡ has_column columns.now name.now }
{
    columns.iter().any(|column| column.name.as_str() == name)
}

/// The number of the first column whose name a column before it has.
fn doubled(columns: &[Column]) -> Option<usize>
    ensures value { result ≡ doubled_from 0 [] columns.now }
    ensures named { IfNone result (AllByRecursion (λ c. IsName c.name) columns.now) }
{
    for (i, column) in columns.iter().enumerate() {
        if has_column(&columns[..i], column.name.as_str()) {
            return Some(i);
        }
    }
    None
}

fn has_int_key(columns: &[Column], keys: &[u8]) -> bool
    ensures { result ≡ has_int_key columns.now keys.now }
{
    match keys {
        [key] => columns
            .get(*key as usize)
            .is_some_and(|column| column.kind == Kind::Int),
        _ => false,
    }
}

/// Why a table isn't added to these.
fn refusal(tables: &[TableDef], def: &TableDef) -> Option<SchemaFault>
    ensures value { result ≡ refusal tables.now def.now }
    ensures named { IfNone result (IsNamed def.now) }
{
    let columns = def.columns.as_slice();
    if has_table(tables, def.name.as_str()) {
        return Some(SchemaFault::TableExists);
    }
    if tables.len() >= TABLES {
        return Some(SchemaFault::Tables {
            limit: TABLES as u64,
        });
    }
    if columns.len() > COLUMNS {
        return Some(SchemaFault::Columns {
            count: columns.len() as u64,
        });
    }
    if let Some(place) = doubled(columns) {
        return Some(SchemaFault::SameName {
            place: place as u64,
        });
    }
    if !has_int_key(columns, def.keys.as_slice()) {
        return Some(SchemaFault::NoKey);
    }
    let bytes = slot_len(columns);
    if bytes > PAGE {
        return Some(SchemaFault::TooWide {
            bytes: bytes as u64,
        });
    }
    None
}

/// Where tables are asked for, what there is then are tables of
/// a schema again, and each that was asked for has a verdict.
pub fn created_are_tables()
    ensures tables { (tables : Tables) (defs : List TableDef) → AreTables tables
        → AllByRecursion IsNamed defs → AreTables (created tables defs).1 }
    ensures verdicts { (tables : Tables) (defs : List TableDef)
        → length (created tables defs).0 ≡ length defs }
{}
