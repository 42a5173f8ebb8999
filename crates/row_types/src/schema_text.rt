// The text of a schema, as it stands in a file.
ghost use Rattle.std.specs.Prelude.{◌≡◌, ◌⊎◌, ◌+◌, ◌≤◌, ◌<◌, ◌∷◌, ◌++◌, [], List, length, None, Some, Ok};
ghost use Rattle.std.specs.Prelude.{Err, IfOk, IfSome, IsErr, IsSome, MatchResult, slice_index};
ghost use Rattle.std.specs.Prelude.{if◌then◌else◌};
ghost use Rattle.std.specs.List.{flat_map};
ghost use Rattle.row_types.specs.Schema.{IsSchema, IsTable, refusal};
ghost use Rattle.row_types.specs.SchemaText.{name_text, kind_text, column_text, table_text, schema_text};
ghost use Rattle.row_types.specs.SchemaText.{Puts};
ghost use Rattle.row_types.specs.SchemaReading.{ReadsAs, byte_at, is_name, name_at, limit_at, kind_at};
ghost use Rattle.row_types.specs.SchemaReading.{column_at, columns_from, table_at, schema_at};
ghost use Rattle.row_types.specs.declared.definition.TableDef.{TableDef};
ghost use Rattle.row_types.specs.declared.schema_text.ReadError.TheVariants.{OutOfMemory, Invalid};

use crate::{Column, Items, Kind, Name, OutOfMemory, Schema, SchemaFault, TableDef};
use std::alloc::{AllocError, AllocFailed, Global};

/// The one format that is known.
const FORMAT: u16 = 1;

impl Schema {
    /// Writes its text to the front of `into`, and says how long it is.
    pub fn write_schema(&self, into: &mut [u8]) -> usize
        requires { length (schema_text self.now) ≤ length into.old }
        ensures { Puts (schema_text self.now) into.old into.new 0 result }
    {
        let tables = self.tables();
        into[0] = tables.len() as u8;
        let mut at = 1;
        for table in tables {
            at = put_table(into, at, table);
        }
        at
    }

    /// The schema whose text the bytes are, all of them. `None`: they are the text of no schema.
    pub fn read_schema(
        alloc: Global,
        format: u16,
        from: &[u8],
    ) -> Result<Option<Schema>, OutOfMemory>
        requires { format ≡ 1 }

        // What is read has this text, and every schema with this text is read, unless memory runs out.
        ensures found { IfOk result
            (λ found. IfSome found (λ schema. IsSchema schema × (from.now ≡ schema_text schema))) }
        ensures only { (tables : List TableDef) → IsSchema tables → from.now ≡ schema_text tables
            → (result ≡ Ok (Some tables)) ⊎ IsErr result }
    {
        prove_eq!(format, FORMAT);
        match schema_of(alloc, from) {
            Ok(schema) => Ok(Some(schema)),
            Err(ReadError::Invalid) => Ok(None),
            Err(ReadError::OutOfMemory) => Err(OutOfMemory),
        }
    }
}

/// The text of a schema has at most 18,993 bytes.
pub fn schema_texts_are_short()
    ensures { (tables : List TableDef) → IsSchema tables → length (schema_text tables) ≤ 18993 }
{}

/// Why bytes aren't read as a part of a schema.
#[derive(Clone, Copy, Debug, PartialEq, Eq, Drop)]
enum ReadError {
    Invalid,
    OutOfMemory,
}

impl From<OutOfMemory> for ReadError {
    ghost from_gives = { λ _ e. e ≡ OutOfMemory };

    fn from(_: OutOfMemory) -> ReadError {
        ReadError::OutOfMemory
    }
}

impl From<AllocError> for ReadError {
    ghost from_gives = { λ _ e. e ≡ OutOfMemory };

    fn from(_: AllocError) -> ReadError {
        ReadError::OutOfMemory
    }
}

impl<T: Drop> From<AllocFailed<T>> for ReadError {
    ghost from_gives = { λ _ e. e ≡ OutOfMemory };

    fn from(_: AllocFailed<T>) -> ReadError {
        ReadError::OutOfMemory
    }
}

fn byte_at(bytes: &[u8]) -> Result<(u8, &[u8]), ReadError>
    ensures { ReadsAs (λ x. (x.0, x.1.now)) result (byte_at bytes.now) }
{
    match bytes {
        [] => Err(ReadError::Invalid),
        [first, rest @ ..] => Ok((*first, rest)),
    }
}

/// The name that the bytes spell, if they do.
fn name_of(alloc: Global, bytes: &[u8]) -> Result<Option<Name>, OutOfMemory>
    ensures { IfOk result (λ name. name ≡ (if is_name bytes.now then Some bytes.now else None)) }
{
    match std::str::from_utf8(bytes) {
        Ok(text) => Name::new(alloc, text),
        Err(_) => Ok(None),
    }
}

#[tactic(auto, unfolding(crate::specs::SchemaReading::name_at))]
fn name_at(alloc: Global, bytes: &[u8]) -> Result<(Name, &[u8]), ReadError>
    ensures { ReadsAs (λ x. (x.0, x.1.now)) result (name_at bytes.now) }
{
    let (len, rest) = byte_at(bytes)?;
    let len = len as usize;
    if rest.len() < len {
        return Err(ReadError::Invalid);
    }
    let (text, rest) = rest.split_at(len);
    match name_of(alloc, text)? {
        Some(name) => Ok((name, rest)),
        None => Err(ReadError::Invalid),
    }
}

fn limit_at(bytes: &[u8]) -> Result<(Kind, &[u8]), ReadError>
    ensures { ReadsAs (λ x. (x.0, x.1.now)) result (limit_at bytes.now) }
{
    if bytes.len() < 2 {
        return Err(ReadError::Invalid);
    }
    let (limit, rest) = bytes.split_at(2);
    Ok((Kind::Text(u16::from_le_bytes([limit[0], limit[1]])), rest))
}

#[tactic(auto, unfolding(crate::specs::SchemaReading::kind_at))]
fn kind_at(bytes: &[u8]) -> Result<(Kind, &[u8]), ReadError>
    ensures { ReadsAs (λ x. (x.0, x.1.now)) result (kind_at bytes.now) }
{
    let (kind, rest) = byte_at(bytes)?;
    match kind {
        1 => Ok((Kind::Int, rest)),
        2 => limit_at(rest),
        _ => Err(ReadError::Invalid),
    }
}

#[tactic(auto, unfolding(crate::specs::SchemaReading::column_at))]
fn column_at(alloc: Global, bytes: &[u8]) -> Result<(Column, &[u8]), ReadError>
    ensures { ReadsAs (λ x. (x.0, x.1.now)) result (column_at bytes.now) }
{
    let (name, rest) = name_at(alloc, bytes)?;
    let (kind, rest) = kind_at(rest)?;
    Ok((Column { name, kind }, rest))
}

fn columns_from(alloc: Global, count: u8, bytes: &[u8]) -> Result<(Items<Column>, &[u8]), ReadError>
    ensures { ReadsAs (λ x. (x.0, x.1.now)) result (columns_from count bytes.now) }
{
    let mut columns = Items::new(alloc);
    let mut rest = bytes;
    for _ in 0..count {
        let (column, after) = column_at(alloc, rest)?;
        columns.push(column)?;
        rest = after;
    }
    Ok((columns, rest))
}

#[tactic(auto, unfolding(crate::specs::SchemaReading::table_at))]
fn table_at(alloc: Global, bytes: &[u8]) -> Result<(TableDef, &[u8]), ReadError>
    ensures { ReadsAs (λ x. (x.0, x.1.now)) result (table_at bytes.now) }
{
    let (name, rest) = name_at(alloc, bytes)?;
    let (count, rest) = byte_at(rest)?;
    let (key, rest) = byte_at(rest)?;
    let keys = Items::from_vec(Vec::from_slice(alloc, &[key])?);
    let (columns, rest) = columns_from(alloc, count, rest)?;
    let table = TableDef {
        name,
        columns,
        keys,
    };
    Ok((table, rest))
}

/// Adds the next table, where it is one that a schema takes.
fn add_next(schema: &mut Schema, table: TableDef) -> Result<(), ReadError>
    ensures cases { MatchResult result
        (λ _. (refusal schema.old table ≡ None) × (schema.new ≡ schema.old ++ table ∷ []))
        (λ e. e ≡ Invalid → IsSome (refusal schema.old table)) }
{
    match schema.add(table) {
        Ok(()) => Ok(()),
        Err(SchemaFault::OutOfMemory) => Err(ReadError::OutOfMemory),
        Err(_) => Err(ReadError::Invalid),
    }
}

#[tactic(auto, unfolding(crate::specs::SchemaReading::schema_at))]
fn schema_of(alloc: Global, bytes: &[u8]) -> Result<Schema, ReadError>
    ensures { ReadsAs (λ schema. schema) result (schema_at bytes.now) }
{
    let (count, mut rest) = byte_at(bytes)?;
    let mut schema = Schema::empty(alloc);
    for _ in 0..count {
        let (table, after) = table_at(alloc, rest)?;
        add_next(&mut schema, table)?;
        rest = after;
    }
    if !rest.is_empty() {
        return Err(ReadError::Invalid);
    }
    Ok(schema)
}

/// Puts bytes at a place, and says where they end.
fn put(into: &mut [u8], at: usize, bytes: &[u8]) -> usize
    requires { at + length bytes.now ≤ length into.old }
    ensures { Puts bytes.now into.old into.new at result }
{
    let end = at + bytes.len();
    into[at..end].copy_from_slice(bytes);
    end
}

fn put_name(into: &mut [u8], at: usize, name: &Name) -> usize
    requires { at + length (name_text name.now) ≤ length into.old }
    ensures { Puts (name_text name.now) into.old into.new at result }
{
    let text = name.as_str().as_bytes();
    let at = put(into, at, &[text.len() as u8]);
    put(into, at, text)
}

fn put_kind(into: &mut [u8], at: usize, kind: Kind) -> usize
    requires { at + length (kind_text kind) ≤ length into.old }
    ensures { Puts (kind_text kind) into.old into.new at result }
{
    match kind {
        Kind::Int => put(into, at, &[1]),
        Kind::Text(limit) => {
            let [low, high] = limit.to_le_bytes();
            put(into, at, &[2, low, high])
        }
    }
}

fn put_column(into: &mut [u8], at: usize, column: &Column) -> usize
    requires { at + length (column_text column.now) ≤ length into.old }
    ensures { Puts (column_text column.now) into.old into.new at result }
{
    let at = put_name(into, at, &column.name);
    put_kind(into, at, column.kind)
}

fn put_columns(into: &mut [u8], at: usize, columns: &[Column]) -> usize
    requires { at + length (flat_map column_text columns.now) ≤ length into.old }
    ensures { Puts (flat_map column_text columns.now) into.old into.new at result }
{
    let mut end = at;
    for column in columns {
        end = put_column(into, end, column);
    }
    end
}

fn put_table(into: &mut [u8], at: usize, table: &TableDef) -> usize
    requires table { IsTable table.now }
    requires room { at + length (table_text table.now) ≤ length into.old }
    ensures { Puts (table_text table.now) into.old into.new at result }
{
    let columns = table.columns.as_slice();
    let key = table.keys.as_slice()[0];
    let at = put_name(into, at, &table.name);
    let at = put(into, at, &[columns.len() as u8, key]);
    put_columns(into, at, columns)
}
