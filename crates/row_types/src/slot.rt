// How a row, or no row, stands in the bytes of a slot.
ghost use Rattle.std.specs.Prelude.{◌≡◌, ℕ, ◌+◌, ◌-◌, ◌≤◌, ◌<◌, ◌^◌, ◌↔◌, length, drop, replicate, None};
ghost use Rattle.std.specs.Prelude.{Some, IfOk, IfSome, IsTrue};
ghost use Rattle.row_types.specs.Slot.{width, widths, slot_len, cell_text, slot_text, empty_slot, FitsKind};
ghost use Rattle.row_types.specs.Slot.{IsRowOf, first_not_zero, cell_fault, cells_fault, slot_fault};
ghost use Rattle.row_types.specs.Reading.{cell_value, cells_values, read_slot, IsUnlessMemory};

use crate::{Column, Kind, OutOfMemory, Row, SlotFault, Text, Value};
use std::alloc::Global;

/// The bytes that a column of this kind takes.
pub(crate) fn width(kind: Kind) -> usize
    ensures value { result ≡ width kind }
    ensures small { result < 2 ^ 17 }
{
    match kind {
        Kind::Int => 8,
        Kind::Text(limit) => 2 + limit as usize,
    }
}

/// The bytes of a slot with these columns.
pub(crate) fn slot_len(columns: &[Column]) -> usize
    requires { length columns.now ≤ 32 }
    ensures { result ≡ slot_len columns.now }
{
    let mut bytes = 1;
    for column in columns {
        bytes += width(column.kind);
    }
    bytes.max(16)
}

/// Whether a column of this kind may hold the value.
fn fits(kind: Kind, value: &Value) -> bool
    ensures { IsTrue result ↔ FitsKind kind value.now }
{
    match (kind, value) {
        (Kind::Int, Value::Int(number)) => {
            // Read for the proof, which learns its range so.
            let _number = *number;
            true
        }
        (Kind::Text(limit), Value::Text(text)) => text.as_str().len() <= limit as usize,
        _ => false,
    }
}

/// Whether the row has a value for each column, which the column may hold.
pub(crate) fn is_row_of(columns: &[Column], values: &[Value]) -> bool
    ensures { IsTrue result ↔ IsRowOf columns.now values.now }
{
    if columns.len() != values.len() {
        return false;
    }
    for (i, column) in columns.iter().enumerate() {
        if !fits(column.kind, &values[i]) {
            return false;
        }
    }
    true
}

/// Whether these are eight bytes, each 0.
fn is_zero_word(bytes: &[u8]) -> bool
    ensures { IsTrue result → bytes.now ≡ replicate 8 0 }
{
    match bytes {
        [a, b, c, d, e, f, g, h] => u64::from_le_bytes([*a, *b, *c, *d, *e, *f, *g, *h]) == 0,
        _ => false,
    }
}

/// How many bytes stand in the words of eight zeros at the
/// front: those of a padding are tested so, and not one by one.
fn zeros_in_words(bytes: &[u8]) -> usize
    ensures zeros { (at : ℕ)
        → first_not_zero at bytes.now ≡ first_not_zero (at + result) (drop result bytes.now) }
    ensures within { result ≤ length bytes.now }
{
    let mut len = 0;
    while bytes.len() - len >= 8 && is_zero_word(&bytes[len..len + 8]) {
        len += 8;
    }
    len
}

pub(crate) fn first_not_zero(at: usize, bytes: &[u8]) -> Option<usize>
    requires { at + length bytes.now < 2 ^ 64 }
    ensures { result ≡ first_not_zero at bytes.now }
{
    let zeros = zeros_in_words(bytes);
    for (i, byte) in bytes[zeros..].iter().enumerate() {
        if *byte != 0 {
            return Some(at + zeros + i);
        }
    }
    None
}

fn cell_fault(at: usize, kind: Kind, bytes: &[u8]) -> Option<usize>
    requires whole { length bytes.now ≡ width kind }
    requires place { at + length bytes.now < 2 ^ 64 }
    ensures { result ≡ cell_fault at kind bytes.now }
{
    let Kind::Text(limit) = kind else {
        return None;
    };
    let (len, text) = bytes.split_at(2);
    let len = u16::from_le_bytes([len[0], len[1]]);
    if limit < len {
        return Some(at);
    }
    let (text, rest) = text.split_at(len as usize);
    match std::str::from_utf8(text) {
        Ok(_) => first_not_zero(at + 2 + len as usize, rest),
        Err(_) => Some(at + 2),
    }
}

fn cells_fault(columns: &[Column], bytes: &[u8]) -> Option<usize>
    requires whole { widths columns.now ≤ length bytes.now }
    requires place { length bytes.now < 2 ^ 63 }
    ensures { result ≡ cells_fault 1 columns.now bytes.now }
{
    let mut at = 0;
    for column in columns {
        let end = at + width(column.kind);
        let fault = cell_fault(at + 1, column.kind, &bytes[at..end]);
        if fault.is_some() {
            return fault;
        }
        at = end;
    }
    first_not_zero(at + 1, &bytes[at..])
}

/// The place of the first fault of a slot. `None`: it is the slot of a row, or of none.
pub(crate) fn slot_fault(columns: &[Column], slot: &[u8]) -> Option<usize>
    requires whole { length slot.now ≡ slot_len columns.now }
    requires place { length slot.now < 2 ^ 63 }
    ensures { result ≡ slot_fault columns.now slot.now }
{
    match slot {
        [] => None,
        [0, rest @ ..] => first_not_zero(1, rest),
        [1, rest @ ..] => cells_fault(columns, rest),
        _ => Some(0),
    }
}

fn cell_value(alloc: Global, kind: Kind, bytes: &[u8]) -> Result<Value, OutOfMemory>
    requires whole { length bytes.now ≡ width kind }
    requires sound { (at : ℕ) × (cell_fault at kind bytes.now ≡ None) }
    ensures { IfOk result (λ value. value ≡ cell_value kind bytes.now) }
{
    match kind {
        Kind::Int => Ok(Value::Int(i64::from_le_bytes([
            bytes[0], bytes[1], bytes[2], bytes[3], bytes[4], bytes[5], bytes[6], bytes[7],
        ]))),
        Kind::Text(_) => {
            let (len, text) = bytes.split_at(2);
            let len = u16::from_le_bytes([len[0], len[1]]);
            // SAFETY: the column has no fault, so its text was found to be UTF-8.
            let text = unsafe { std::str::from_utf8_unchecked(&text[..len as usize]) };
            Ok(Value::Text(Text::new(alloc, text)?))
        }
    }
}

fn put_cell(kind: Kind, value: &Value, into: &mut [u8])
    requires fits { FitsKind kind value.now }
    requires whole { length into.old ≡ width kind }
    ensures { into.new ≡ cell_text kind value.now }
{
    match value {
        Value::Int(number) => into.copy_from_slice(&number.to_le_bytes()),
        Value::Text(text) => {
            let text = text.as_str().as_bytes();
            let (len, rest) = into.split_at_mut(2);
            len.copy_from_slice(&(text.len() as u16).to_le_bytes());
            let (front, rest) = rest.split_at_mut(text.len());
            front.copy_from_slice(text);
            rest.fill(0);
        }
    }
}

pub(crate) fn cells_values(
    alloc: Global,
    columns: &[Column],
    bytes: &[u8],
) -> Result<Row, OutOfMemory>
    requires whole { widths columns.now ≤ length bytes.now }
    requires sound { cells_fault 1 columns.now bytes.now ≡ None }
    ensures { IfOk result (λ row. row ≡ cells_values columns.now bytes.now) }
{
    let mut values = Vec::with_capacity(alloc, columns.len())?;
    let mut at = 0;
    for column in columns {
        let end = at + width(column.kind);
        values.push(cell_value(alloc, column.kind, &bytes[at..end])?)?;
        at = end;
    }
    Ok(Row::from_vec(values))
}

/// What a slot holds: a row, or none where it is empty.
pub(crate) fn read_slot(
    alloc: Global,
    columns: &[Column],
    slot: &[u8],
) -> Result<Option<Row>, SlotFault>
    requires whole { length slot.now ≡ slot_len columns.now }
    requires place { length slot.now < 2 ^ 63 }
    ensures { IsUnlessMemory result (read_slot columns.now slot.now) }
{
    if let Some(at) = slot_fault(columns, slot) {
        return Err(SlotFault::BadSlot { at: at as u64 });
    }
    match slot {
        [1, rest @ ..] => {
            let row = cells_values(alloc, columns, rest)?;
            Ok(Some(row))
        }
        _ => Ok(None),
    }
}

/// Writes the slot of a row.
pub(crate) fn write_slot(columns: &[Column], values: &[Value], into: &mut [u8])
    requires row { IsRowOf columns.now values.now }
    requires whole { length into.old ≡ slot_len columns.now }
    ensures { into.new ≡ slot_text columns.now values.now }
{
    into[0] = 1;
    let mut at = 1;
    for (i, column) in columns.iter().enumerate() {
        let end = at + width(column.kind);
        put_cell(column.kind, &values[i], &mut into[at..end]);
        at = end;
    }
    into[at..].fill(0);
}
