// Pages of slots, and slots that were checked before.
ghost use Rattle.std.specs.Prelude.{◌≡◌, ℕ, ◌<◌, ◌≤◌, List, length, None, Some, IfOk, IfSome, slice_get};
ghost use Rattle.std.specs.Option.{option_map};
ghost use Rattle.row_types.specs.Slot.{width, widths, slot_len, slot_text, empty_slot, slot_fault, IsRowOf};
ghost use Rattle.row_types.specs.Page.{page_fault};
ghost use Rattle.row_types.specs.Reading.{cell_value, cells_values, slot_value};
ghost use Rattle.row_types.specs.Keys.{int_of, int_at};
ghost use Rattle.row_types.specs.Schema.{columns_at};
ghost use Rattle.row_types.specs.declared.row.Value.{Value};
ghost use Rattle.row_types.specs.declared.definition.Column.{Column};

use crate::schema::PAGE;
use crate::slot::{cells_values, first_not_zero, slot_fault, slot_len, width};
use crate::{Column, Kind, OutOfMemory, Row, Schema};
use std::alloc::Global;

impl Schema {
    /// The number of the first slot of a page that is the slot of no row and not empty, and the place of the
    /// fault in it. What is behind the last slot has the number behind the last, and is 0.
    pub fn page_fault(&self, table: u16, page: &[u8]) -> Option<(usize, usize)>
        requires table { table < length self.now }
        requires whole { length page.now ≡ 4096 }
        ensures { result ≡ page_fault (columns_at self.now table) page.now }
    {
        page_fault(self.columns(table), page)
    }

    /// The row of a slot that has no fault, `None` where it is empty: what `decode` gives, without testing
    /// the slot again.
    pub fn decode_checked(
        &self,
        alloc: Global,
        table: u16,
        slot: &[u8],
    ) -> Result<Option<Row>, OutOfMemory>
        requires table { table < length self.now }
        requires whole { length slot.now ≡ slot_len (columns_at self.now table) }
        requires sound { slot_fault (columns_at self.now table) slot.now ≡ None }
        ensures value { IfOk result (λ found. found ≡ slot_value (columns_at self.now table) slot.now) }
        ensures row { IfOk result (λ found. IfSome found (λ row.
            IsRowOf (columns_at self.now table) row
            × (slot.now ≡ slot_text (columns_at self.now table) row))) }
    {
        checked_slot(alloc, self.columns(table), slot)
    }

    /// The whole number in column `place` of the row of a slot that has no fault, 0 where that
    /// column holds texts or isn't there. `None`: the slot is empty. No memory is taken.
    pub fn int_in_slot(&self, table: u16, slot: &[u8], place: usize) -> Option<i64>
        requires table { table < length self.now }
        requires whole { length slot.now ≡ slot_len (columns_at self.now table) }
        ensures { result ≡ option_map (λ row. int_at row place)
            (slot_value (columns_at self.now table) slot.now) }
    {
        int_in_slot(self.columns(table), slot, place)
    }
}

/// The number of the first slot that has a fault, and the place of it.
fn page_fault(columns: &[Column], page: &[u8]) -> Option<(usize, usize)>
    requires whole { length page.now ≡ 4096 }
    requires few { length columns.now ≤ 32 }
    requires narrow { slot_len columns.now ≤ 4096 }
    ensures { result ≡ page_fault columns.now page.now }
{
    let len = slot_len(columns);
    let slots = PAGE / len;
    for k in 0..slots {
        let at = k * len;
        if let Some(place) = slot_fault(columns, &page[at..at + len]) {
            return Some((k, place));
        }
    }
    match first_not_zero(0, &page[slots * len..]) {
        Some(place) => Some((slots, place)),
        None => None,
    }
}

/// The row of a slot that has no fault.
fn checked_slot(alloc: Global, columns: &[Column], slot: &[u8]) -> Result<Option<Row>, OutOfMemory>
    requires whole { length slot.now ≡ slot_len columns.now }
    requires sound { slot_fault columns.now slot.now ≡ None }
    ensures { IfOk result (λ found. found ≡ slot_value columns.now slot.now) }
{
    if slot[0] == 0 {
        return Ok(None);
    }
    let row = cells_values(alloc, columns, &slot[1..])?;
    Ok(Some(row))
}

/// The whole number of a column, 0 for a text.
fn int_in_cell(kind: Kind, bytes: &[u8]) -> i64
    requires { length bytes.now ≡ width kind }
    ensures { result ≡ int_of (Some (cell_value kind bytes.now)) }
{
    match kind {
        Kind::Int => i64::from_le_bytes([
            bytes[0], bytes[1], bytes[2], bytes[3], bytes[4], bytes[5], bytes[6], bytes[7],
        ]),
        Kind::Text(_) => 0,
    }
}

/// The whole number at a place of the values of columns that stand one after another.
fn int_in_cells(columns: &[Column], bytes: &[u8], place: usize) -> i64
    requires { widths columns.now ≤ length bytes.now }
    ensures { result ≡ int_at (cells_values columns.now bytes.now) place }
{
    let mut at = 0;
    for (i, column) in columns.iter().enumerate() {
        let end = at + width(column.kind);
        if i == place {
            return int_in_cell(column.kind, &bytes[at..end]);
        }
        at = end;
    }
    0
}

/// The whole number at a place of a slot's row.
fn int_in_slot(columns: &[Column], slot: &[u8], place: usize) -> Option<i64>
    requires { length slot.now ≡ slot_len columns.now }
    ensures { result ≡ option_map (λ row. int_at row place) (slot_value columns.now slot.now) }
{
    match slot {
        [] | [0, ..] => None,
        [_, cells @ ..] => Some(int_in_cells(columns, cells, place)),
    }
}

/// The slot of a row has no fault and holds the row, and an empty slot has none and holds none.
pub fn slots_hold_their_rows()
    ensures sound { (columns : List Column) (row : List Value) → slot_len columns ≤ 4096 → IsRowOf columns row
        → slot_fault columns (slot_text columns row) ≡ None }
    ensures held { (columns : List Column) (row : List Value) → slot_len columns ≤ 4096 → IsRowOf columns row
        → slot_value columns (slot_text columns row) ≡ Some row }
    ensures empty { (columns : List Column) → slot_fault columns (empty_slot columns) ≡ None }
    ensures none { (columns : List Column) → slot_value columns (empty_slot columns) ≡ None }
{}
