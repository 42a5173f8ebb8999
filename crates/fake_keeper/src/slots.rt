// Rows of all tables in one list, in the order of tables and keys, and how to go back.
ghost use Rattle.std.specs.Prelude.{◌≡◌, ◌<◌, ◌≤◌, length, true};
ghost use Rattle.std.specs.List.{AllByRecursion};
ghost use Rattle.plain_model.specs.CallRows.{IsRowAt};

use key_space::{Key, Range, key_of};
use plain_model::{OutOfMemory, RowPiece};
use row_types::{Items, Row, Schema, TryCopy};
use std::alloc::Global;

/// A row with its place.
#[derive(Debug, Drop)]
pub struct Slot {
    pub table: u16,
    pub key: Key,
    pub row: Row,
}

/// What stood at a place before a row operation, of which so many came before.
#[derive(Debug, Drop)]
pub struct Change {
    pub count: u64,
    pub table: u16,
    pub key: Key,
    pub was: Option<Row>,
}

/// Where the row of a key stands, or where it would.
fn place_of(slots: &[Slot], table: u16, key: Key) -> usize
    ensures { result ≤ length slots.now }
{
    let found = slots.binary_search_by_key(
        &(table, key.number),
        |slot| (slot.table, slot.key.number),
    );
    match found {
        Ok(place) => place,
        Err(place) => place,
    }
}

/// Whether the row of a key stands at a place.
fn is_there(slots: &[Slot], place: usize, table: u16, key: Key) -> bool
    ensures { result ≡ true → place < length slots.now }
{
    if place >= slots.len() {
        return false;
    }
    slots[place].table == table && slots[place].key == key
}

/// The row of a key.
pub fn row_of(slots: &[Slot], table: u16, key: Key) -> Result<Option<Row>, OutOfMemory> {
    let place = place_of(slots, table, key);
    if !is_there(slots, place, table, key) {
        return Ok(None);
    }
    Ok(Some(slots[place].row.copy()?))
}

/// The rows from `range.lo` on, up to so many.
pub fn piece_of(
    alloc: Global,
    slots: &[Slot],
    table: u16,
    range: Range,
    limit: usize,
) -> Result<RowPiece, OutOfMemory> {
    let mut rows = Vec::new(alloc);
    for slot in slots.iter().skip(place_of(slots, table, range.lo)) {
        if slot.table != table || slot.key > range.hi {
            break;
        }
        rows.push(slot.row.copy()?)?;
        if rows.len() >= limit {
            return Ok(RowPiece {
                upto: slot.key,
                rows: Items::from_vec(rows),
            });
        }
    }
    Ok(RowPiece {
        upto: range.hi,
        rows: Items::from_vec(rows),
    })
}

/// Takes the row of a key away.
fn unset(slots: &mut Vec<Slot>, table: u16, key: Key) {
    let place = place_of(slots.as_slice(), table, key);
    if is_there(slots.as_slice(), place, table, key) {
        slots.remove(place);
    }
}

/// Sets or takes away the row of a key.
pub fn exchange(
    slots: &mut Vec<Slot>,
    table: u16,
    key: Key,
    row: Option<Row>,
) -> Result<(), OutOfMemory> {
    unset(slots, table, key);
    let Some(row) = row else {
        return Ok(());
    };
    let place = place_of(slots.as_slice(), table, key);
    slots.insert(place, Slot { table, key, row })?;
    Ok(())
}

/// Goes back to the rows after the first `mark` row operations.
pub fn go_back(
    slots: &mut Vec<Slot>,
    changes: &mut Vec<Change>,
    mark: u64,
) -> Result<(), OutOfMemory> {
    for _ in 0..changes.len() {
        let Some(change) = changes.pop() else {
            return Ok(());
        };
        if change.count < mark {
            changes.push(change)?;
            return Ok(());
        }
        exchange(slots, change.table, change.key, change.was)?;
    }
    Ok(())
}

/// Whether a row fits its table, and its key lies between two.
pub fn is_at(schema: &Schema, table: u16, lo: Key, hi: Key, row: &Row) -> bool
    ensures { result ≡ true → IsRowAt schema.now table lo.number hi.number row.now }
{
    if table as usize >= schema.tables().len() {
        return false;
    }
    if !schema.fits(table, row) {
        return false;
    }
    let key = key_of(schema, table, row);
    lo.number <= key.number && key.number <= hi.number
}

/// The same of each of these rows.
pub fn are_at(schema: &Schema, table: u16, lo: Key, hi: Key, rows: &[Row]) -> bool
    ensures { result ≡ true
        → AllByRecursion (IsRowAt schema.now table lo.number hi.number) rows.now }
{
    for row in rows {
        if !is_at(schema, table, lo, hi, row) {
            return false;
        }
    }
    true
}
