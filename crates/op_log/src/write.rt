// Writes changes behind one another.
ghost use Rattle.std.specs.Prelude.{◌≡◌, ◌+◌, ◌<◌, ◌++◌, length, OnOk, OnErr, FitsSigned};
ghost use Rattle.std.specs.Int.{w64};
ghost use Rattle.row_types.specs.Schema.{columns_at};
ghost use Rattle.row_types.specs.Slot.{IsRowOf};
ghost use Rattle.op_log.specs.Changes.{change_text, put_bytes, del_bytes};
ghost use Rattle.op_log.specs.declared.change.RowChange.TheVariants.{Put, Del};

use crate::OutOfMemory;
use row_types::{Row, Schema};

/// The bytes of a row that is set in a table: at most 4,099.
pub fn put_len(schema: &Schema, table: u16) -> usize
    requires { table < length schema.now }
    ensures value { result ≡ put_bytes schema.now table }
    ensures most { result < 4100 }
{
    3 + schema.slot_len(table)
}

/// The bytes of a row that is taken away: 11.
pub fn del_len() -> usize
    ensures { result ≡ del_bytes }
{
    11
}

#[tactic(auto, unfolding(crate::specs::Changes::change_text))]
fn write_put(into: &mut [u8], schema: &Schema, table: u16, row: &Row)
    requires table { table < length schema.now }
    requires row { IsRowOf (columns_at schema.now table) row.now }
    requires whole { length into.old ≡ put_bytes schema.now table }
    ensures { into.new ≡ change_text schema.now (Put table row.now) }
{
    into[0] = 1;
    into[1..3].copy_from_slice(&table.to_le_bytes());
    schema.encode(table, row, &mut into[3..]);
}

#[tactic(auto, unfolding(crate::specs::Changes::change_text))]
fn write_del(into: &mut [u8], schema: &Schema, table: u16, number: i64)
    requires whole { length into.old ≡ del_bytes }
    ensures { into.new ≡ change_text schema.now (Del table number) }
{
    into[0] = 2;
    into[1..3].copy_from_slice(&table.to_le_bytes());
    into[3..].copy_from_slice(&number.to_le_bytes());
}

/// Adds a row that is set in a table at the end of `body`. Out of memory leaves `body` as it was.
pub fn append_put(
    body: &mut Vec<u8>,
    schema: &Schema,
    table: u16,
    row: &Row,
) -> Result<(), OutOfMemory>
    requires table { table < length schema.now }
    requires row { IsRowOf (columns_at schema.now table) row.now }
    ensures ok { OnOk result (body.new.items
        ≡ body.old.items ++ change_text schema.now (Put table row.now)) }
    ensures err { OnErr result (body.new.items ≡ body.old.items) }
{
    let start = body.len();
    body.resize(start + put_len(schema, table), 0)?;
    write_put(&mut body[start..], schema, table, row);
    Ok(())
}

/// Adds that the row of a table whose key column has this number is taken away at the end of `body`. Out of
/// memory leaves `body` as it was.
pub fn append_del(
    body: &mut Vec<u8>,
    schema: &Schema,
    table: u16,
    number: i64,
) -> Result<(), OutOfMemory>
    ensures ok { OnOk result (body.new.items
        ≡ body.old.items ++ change_text schema.now (Del table number)) }
    ensures err { OnErr result (body.new.items ≡ body.old.items) }
{
    let start = body.len();
    body.resize(start + del_len(), 0)?;
    write_del(&mut body[start..], schema, table, number);
    Ok(())
}
