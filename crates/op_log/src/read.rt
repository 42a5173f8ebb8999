// Reads changes.
ghost use Rattle.std.specs.Prelude.{◌≡◌, ◌⊎◌, ◌≤◌, ◌<◌, ◌++◌, ◌∷◌, ℕ, List, length, take, drop, Ok, Err, IfOk};
ghost use Rattle.std.specs.Int.{w16, to_le_bytes};
ghost use Rattle.row_types.specs.Schema.{columns_at};
ghost use Rattle.row_types.specs.Slot.{IsRowOf, slot_len, slot_text};
ghost use Rattle.row_types.specs.declared.row.Value.{Value};
ghost use Rattle.op_log.specs.Changes.{IsChange, IsReadAs, IsRowRead, IsFront, headed, change_text};
ghost use Rattle.op_log.specs.declared.change.RowChange.{RowChange};
ghost use Rattle.op_log.specs.declared.change.ChangeFault.TheVariants.{OutOfMemory as NoMemory};

use crate::number::number_at;
use crate::write::{del_len, put_len};
use crate::{ChangeFault, OutOfMemory, RowChange};
use row_types::{Items, Row, Schema, SlotFault};
use std::alloc::Global;

/// The first byte of a row that is set, and of one that is taken away.
const PUT: u8 = 1;

const DEL: u8 = 2;

/// The row whose slot the bytes begin with.
fn row_at(alloc: Global, schema: &Schema, table: u16, bytes: &[u8]) -> Result<Row, ChangeFault>
    requires { table < length schema.now }
    ensures found { IfOk result (IsRowRead (columns_at schema.now table) bytes.now) }
    ensures only { (row : List Value) (rest : List ℕ) → IsRowOf (columns_at schema.now table) row
        → bytes.now ≡ slot_text (columns_at schema.now table) row ++ rest
        → (result ≡ Ok row) ⊎ (result ≡ Err NoMemory) }
{
    let len = schema.slot_len(table);
    if bytes.len() < len {
        return Err(ChangeFault::BadChange);
    }
    match schema.decode(alloc, table, &bytes[..len]) {
        Ok(Some(row)) => Ok(row),
        Ok(None) => Err(ChangeFault::BadChange),
        Err(SlotFault::BadSlot { .. }) => Err(ChangeFault::BadChange),
        Err(SlotFault::OutOfMemory) => Err(ChangeFault::OutOfMemory),
    }
}

/// The change with this first byte and of this table that `rest` continues with, and how many bytes it has.
fn change_at(
    alloc: Global,
    schema: &Schema,
    kind: u8,
    table: u16,
    rest: &[u8],
) -> Result<(RowChange, usize), ChangeFault>
    ensures found { IfOk result (λ found. IsReadAs schema.now (headed kind table rest.now) found.0 found.1) }
    ensures only { (change : RowChange) (more : List ℕ) → IsChange schema.now change
        → headed kind table rest.now ≡ change_text schema.now change ++ more
        → (result ≡ Ok (change, length (change_text schema.now change))) ⊎ (result ≡ Err NoMemory) }
{
    if schema.tables().len() <= table as usize {
        return Err(ChangeFault::BadChange);
    }
    if kind == PUT {
        return match row_at(alloc, schema, table, rest) {
            Ok(row) => Ok((RowChange::Put { table, row }, put_len(schema, table))),
            Err(fault) => Err(fault),
        };
    }
    if kind == DEL {
        return match number_at(rest) {
            Some(number) => Ok((RowChange::Del { table, number }, del_len())),
            None => Err(ChangeFault::BadChange),
        };
    }
    Err(ChangeFault::BadChange)
}

/// The change that the bytes begin with, and how many of them it has. `BadChange`: they begin with none.
pub fn read_change(
    alloc: Global,
    schema: &Schema,
    from: &[u8],
) -> Result<(RowChange, usize), ChangeFault>
    // What is read stands there, and every change is read, whatever follows it, unless memory runs out.
    ensures found { IfOk result (λ found. IsReadAs schema.now from.now found.0 found.1) }
    ensures only { (change : RowChange) (rest : List ℕ) → IsChange schema.now change
        → from.now ≡ change_text schema.now change ++ rest
        → (result ≡ Ok (change, length (change_text schema.now change))) ⊎ (result ≡ Err NoMemory) }
{
    match from {
        [kind, low, high, rest @ ..] => {
            let table = u16::from_le_bytes([*low, *high]);
            change_at(alloc, schema, *kind, table, rest)
        }
        _ => Err(ChangeFault::BadChange),
    }
}

/// The changes that a body begins with, and the place behind them: the body's length, or the first place at
/// which no change stands.
#[derive(Debug, Drop)]
pub struct Front {
    pub changes: Items<RowChange>,
    pub end: usize,
}

/// Reads changes from the front of a body on, up to the first place at which none stands.
pub fn read_body(alloc: Global, schema: &Schema, body: &[u8]) -> Result<Front, OutOfMemory>
    ensures { IfOk result (λ front. IsFront schema.now body.now front.changes front.end) }
{
    let mut changes = Vec::new(alloc);
    let mut at = 0;
    loop {
        match read_change(alloc, schema, &body[at..]) {
            Ok((change, len)) => {
                changes.push(change)?;
                at += len;
            }
            Err(ChangeFault::BadChange) => {
                return Ok(Front {
                    changes: Items::from_vec(changes),
                    end: at,
                });
            }
            Err(ChangeFault::OutOfMemory) => return Err(OutOfMemory),
        }
    }
}
