// How the rows of a schema's tables stand in their slots.
ghost use Rattle.std.specs.Prelude.{◌≡◌, ◌⊎◌, ◌↔◌, ℕ, ◌/◌, ◌<◌, ◌≤◌, List, length, map, Some, None, Ok, Err};
ghost use Rattle.std.specs.Prelude.{IsTrue, IfOk, IfSome};
ghost use Rattle.row_types.specs.Slot.{slot_len, slot_text, empty_slot, slot_fault, IsRowOf};
ghost use Rattle.row_types.specs.Schema.{columns_at, keys_at};
ghost use Rattle.row_types.specs.Keys.{int_at};
ghost use Rattle.row_types.specs.declared.row.Value.{Value};
ghost use Rattle.row_types.specs.declared.definition.Column.{Column};

use crate::schema::PAGE;
use crate::slot::{is_row_of, read_slot, slot_fault, slot_len, write_slot};
use crate::{Items, OutOfMemory, Row, Schema, SlotFault, int_at};
use std::alloc::Global;

impl Schema {
    /// The bytes of a slot of the table: 16 to 4,096.
    pub fn slot_len(&self, table: u16) -> usize
        requires { table < length self.now }
        ensures value { result ≡ slot_len (columns_at self.now table) }
        ensures least { 16 ≤ result }
        ensures most { result ≤ 4096 }
    {
        slot_len(self.columns(table))
    }

    /// How many slots of the table a page of 4,096 bytes has.
    pub fn slots(&self, table: u16) -> usize
        requires { table < length self.now }
        ensures { result ≡ 4096 / slot_len (columns_at self.now table) }
    {
        PAGE / self.slot_len(table)
    }

    /// Whether the row has a value for each column of the table, which the column may hold.
    pub fn fits(&self, table: u16, row: &Row) -> bool
        requires { table < length self.now }
        ensures { IsTrue result ↔ IsRowOf (columns_at self.now table) row.now }
    {
        is_row_of(self.columns(table), row.as_slice())
    }

    /// Writes the slot of a row.
    pub fn encode(&self, table: u16, row: &Row, into: &mut [u8])
        requires table { table < length self.now }
        requires row { IsRowOf (columns_at self.now table) row.now }
        requires whole { length into.old ≡ slot_len (columns_at self.now table) }
        ensures { into.new ≡ slot_text (columns_at self.now table) row.now }
    {
        write_slot(self.columns(table), row.as_slice(), into);
    }

    /// The place of the first fault of a slot, in the order of
    /// its bytes. `None`: it is the slot of a row, or empty.
    pub fn slot_fault(&self, table: u16, slot: &[u8]) -> Option<u64>
        requires table { table < length self.now }
        requires whole { length slot.now ≡ slot_len (columns_at self.now table) }
        ensures { result ≡ slot_fault (columns_at self.now table) slot.now }
    {
        let at = slot_fault(self.columns(table), slot)?;
        Some(at as u64)
    }

    /// The row of a slot, `None` where it is empty. `BadSlot`
    /// names the first fault in the order of its bytes.
    pub fn decode(&self, alloc: Global, table: u16, slot: &[u8]) -> Result<Option<Row>, SlotFault>
        requires table { table < length self.now }
        requires whole { length slot.now ≡ slot_len (columns_at self.now table) }

        // What is read is a row with this slot, and every slot of a row is read, unless memory runs out.
        ensures row { IfOk result (λ found. IfSome found (λ row.
            IsRowOf (columns_at self.now table) row
            × (slot.now ≡ slot_text (columns_at self.now table) row))) }
        ensures only { (row : List Value) → IsRowOf (columns_at self.now table) row
            → slot.now ≡ slot_text (columns_at self.now table) row
            → (result ≡ Ok (Some row)) ⊎ (result ≡ Err SlotFault.OutOfMemory) }

        // No row is read exactly where the slot is empty, and a fault is told exactly where it is the first.
        ensures empty { (result ≡ Ok None) ↔ (slot.now ≡ empty_slot (columns_at self.now table)) }
        ensures bad { (at : ℕ) → (result ≡ Err (SlotFault.BadSlot at))
            ↔ (slot_fault (columns_at self.now table) slot.now ≡ Some at) }
    {
        read_slot(alloc, self.columns(table), slot)
    }

    /// The values of the row's key columns, in the order of their marks.
    pub fn key_values(
        &self,
        alloc: Global,
        table: u16,
        row: &Row,
    ) -> Result<Items<i64>, OutOfMemory>
        requires table { table < length self.now }
        requires row { IsRowOf (columns_at self.now table) row.now }
        ensures { IfOk result (λ numbers. numbers ≡ map (int_at row.now) (keys_at self.now table)) }
    {
        let marks = self.table(table).keys.as_slice();
        let mut numbers = Vec::with_capacity(alloc, marks.len())?;
        for mark in marks {
            numbers.push(int_at(row, *mark as usize))?;
        }
        Ok(Items::from_vec(numbers))
    }
}

/// A row has one slot, and a slot is of one row.
pub fn one_slot()
    ensures { (columns : List Column) (a b : List Value) → slot_len columns ≤ 4096 → IsRowOf columns a
        → IsRowOf columns b
        → slot_text columns a ≡ slot_text columns b → a ≡ b }
{}
