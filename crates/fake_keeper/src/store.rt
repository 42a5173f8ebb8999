// What the calls of a keeper do to its rows.
ghost use Rattle.std.specs.Prelude.{◌≡◌, ◌+◌, ◌<◌, ◌≤◌, ◌^◌, IfErr, IfOk, IfSome, IsTrue, OnOk, Option, ℕ};
ghost use Rattle.std.specs.List.{AllByRecursion};
ghost use Rattle.key_space.specs.declared.lock.LockName.{LockName};
ghost use Rattle.key_space.specs.declared.lock.Mode.{Mode};
ghost use Rattle.plain_model.specs.CallRows.{IsRowAt};
ghost use Rattle.plain_model.specs.Calls.{Asked, AskBegin, AskChunk, AskDel, AskGet, AskLock, AskPut};
ghost use Rattle.plain_model.specs.Calls.{MayGive};

use crate::slots::{Change, Slot, are_at, exchange, go_back, is_at, piece_of, row_of};
use crate::switch::{
    Kind, Switches, stop_of_any, stop_of_begin, stop_of_del, stop_of_lock, stop_of_put,
};
use key_space::{Key, Range, key_of};
use plain_model::{RowPiece, Stop};
use row_types::{Row, Schema, TryCopy};
use std::alloc::Global;

/// Rows, how to go back to those at the begin, and the stops that are to be given.
#[derive(Drop)]
pub struct Store {
    pub slots: Vec<Slot>,
    pub changes: Vec<Change>,
    pub switches: Switches,
}

/// The stop that a call is to give, where one is wanted. A transaction that is spent is undone.
fn stop_at(store: &mut Store, kind: Kind) -> Option<Stop> {
    let stop = store.switches.stop_at(kind)?;
    if let Stop::Spent { .. } = stop {
        if go_back(&mut store.slots, &mut store.changes, 0).is_err() {
            return Some(Stop::OutOfMemory);
        }
    }
    Some(stop)
}

/// Whether there can be one more row operation.
fn has_room(count: u64) -> bool
    ensures { IsTrue result → count + 1 < 2 ^ 64 }
{
    count < u64::MAX
}

/// The answer to a call of a kind that every stop but a refusal may end.
pub fn try_any(store: &mut Store, kind: Kind) -> Result<(), Stop>
    ensures { (asked : Asked) → IfErr result (MayGive asked) }
{
    match stop_at(store, kind) {
        Some(stop) => Err(stop_of_any(stop)),
        None => Ok(()),
    }
}

/// The answer to a request for a lock.
pub fn try_lock(store: &mut Store) -> Result<(), Stop>
    ensures { (name : LockName) (mode : Mode) → IfErr result (MayGive (AskLock name mode)) }
{
    match stop_at(store, Kind::Lock) {
        Some(stop) => Err(stop_of_lock(stop)),
        None => Ok(()),
    }
}

/// The number of a transaction that begins, behind this.
pub fn try_begin(store: &mut Store, number: u64) -> Result<u64, Stop>
    ensures { (age : Option ℕ) → IfErr result (MayGive (AskBegin age)) }
{
    if let Some(stop) = stop_at(store, Kind::Begin) {
        return Err(stop_of_begin(stop));
    }
    match number.checked_add(1) {
        Some(next) => Ok(next),
        None => Err(Stop::OutOfMemory),
    }
}

/// Keeps what the transaction did.
pub fn try_commit(store: &mut Store) -> Result<(), Stop>
    ensures { (asked : Asked) → IfErr result (MayGive asked) }
{
    if let Some(stop) = stop_at(store, Kind::Commit) {
        return Err(stop_of_any(stop));
    }
    store.changes.clear();
    Ok(())
}

/// The row of a key.
pub fn try_get(
    store: &mut Store,
    schema: &Schema,
    count: u64,
    table: u16,
    key: Key,
) -> Result<Option<Row>, Stop>
    ensures room { OnOk result (count + 1 < 2 ^ 64) }
    ensures row { IfOk result (λ found. IfSome found (IsRowAt schema.now table key.number key.number)) }
    ensures cause { IfErr result (MayGive (AskGet table key.number)) }
{
    if !has_room(count) {
        return Err(Stop::OutOfMemory);
    }
    if let Some(stop) = stop_at(store, Kind::Get) {
        return Err(stop_of_any(stop));
    }
    let Ok(found) = row_of(store.slots.as_slice(), table, key) else {
        return Err(Stop::OutOfMemory);
    };
    let Some(row) = found else {
        return Ok(None);
    };
    if is_at(schema, table, key, key, &row) {
        return Ok(Some(row));
    }
    Err(Stop::OutOfMemory)
}

/// The rows of a range, up to so many.
pub fn try_chunk(
    alloc: Global,
    store: &mut Store,
    schema: &Schema,
    count: u64,
    table: u16,
    range: Range,
    limit: usize,
) -> Result<RowPiece, Stop>
    ensures room { OnOk result (count + 1 < 2 ^ 64) }
    ensures low { IfOk result (λ piece. range.lo.number ≤ piece.upto.number) }
    ensures high { IfOk result (λ piece. piece.upto.number ≤ range.hi.number) }
    ensures rows { IfOk result (λ piece.
        AllByRecursion (IsRowAt schema.now table range.lo.number piece.upto.number) piece.rows) }
    ensures cause { IfErr result (MayGive (AskChunk table range)) }
{
    if !has_room(count) {
        return Err(Stop::OutOfMemory);
    }
    if let Some(stop) = stop_at(store, Kind::Chunk) {
        return Err(stop_of_any(stop));
    }
    let Ok(piece) = piece_of(alloc, store.slots.as_slice(), table, range, limit) else {
        return Err(Stop::OutOfMemory);
    };
    if range.lo.number <= piece.upto.number
        && piece.upto.number <= range.hi.number
        && are_at(schema, table, range.lo, piece.upto, piece.rows.as_slice())
    {
        return Ok(piece);
    }
    Err(Stop::OutOfMemory)
}

/// Sets or takes away the row of a key, and returns whether one stood there.
fn change(store: &mut Store, count: u64, table: u16, key: Key, row: Option<Row>) -> Option<bool> {
    let was = row_of(store.slots.as_slice(), table, key).ok()?;
    let is_there = was.is_some();
    let made = Change {
        count,
        table,
        key,
        was,
    };
    store.changes.push(made).ok()?;
    exchange(&mut store.slots, table, key, row).ok()?;
    Some(is_there)
}

/// Sets the row of its key.
pub fn try_put(
    store: &mut Store,
    schema: &Schema,
    count: u64,
    table: u16,
    row: &Row,
) -> Result<(), Stop>
    ensures room { OnOk result (count + 1 < 2 ^ 64) }
    ensures cause { IfErr result (MayGive (AskPut table row.now)) }
{
    if !has_room(count) {
        return Err(Stop::OutOfMemory);
    }
    if let Some(stop) = stop_at(store, Kind::Put) {
        return Err(stop_of_put(stop));
    }
    let Some(key) = key_in(schema, table, row) else {
        return Err(Stop::OutOfMemory);
    };
    let Ok(copy) = row.copy() else {
        return Err(Stop::OutOfMemory);
    };
    match change(store, count, table, key, Some(copy)) {
        Some(_) => Ok(()),
        None => Err(Stop::OutOfMemory),
    }
}

/// The key of a row that fits its table.
fn key_in(schema: &Schema, table: u16, row: &Row) -> Option<Key> {
    if table as usize >= schema.tables().len() {
        return None;
    }
    if !schema.fits(table, row) {
        return None;
    }
    Some(key_of(schema, table, row))
}

/// Takes the row of a key away, and returns whether there was one.
pub fn try_del(store: &mut Store, count: u64, table: u16, key: Key) -> Result<bool, Stop>
    ensures room { OnOk result (count + 1 < 2 ^ 64) }
    ensures cause { IfErr result (MayGive (AskDel table key.number)) }
{
    if !has_room(count) {
        return Err(Stop::OutOfMemory);
    }
    if let Some(stop) = stop_at(store, Kind::Del) {
        return Err(stop_of_del(stop));
    }
    match change(store, count, table, key, None) {
        Some(was) => Ok(was),
        None => Err(Stop::OutOfMemory),
    }
}

/// Goes back to the rows after the first `mark` row operations, of which there are so many.
pub fn try_undo_to(store: &mut Store, count: u64, mark: u64) -> Result<(), Stop>
    ensures room { OnOk result (count + 1 < 2 ^ 64) }
    ensures cause { (asked : Asked) → IfErr result (MayGive asked) }
{
    if !has_room(count) {
        return Err(Stop::OutOfMemory);
    }
    if let Some(stop) = stop_at(store, Kind::UndoTo) {
        return Err(stop_of_any(stop));
    }
    match go_back(&mut store.slots, &mut store.changes, mark) {
        Ok(()) => Ok(()),
        Err(_) => Err(Stop::OutOfMemory),
    }
}

/// Goes back to the rows at the begin.
pub fn try_undo(store: &mut Store) -> Result<(), Stop>
    ensures { (asked : Asked) → IfErr result (MayGive asked) }
{
    if let Some(stop) = stop_at(store, Kind::Undo) {
        return Err(stop_of_any(stop));
    }
    match go_back(&mut store.slots, &mut store.changes, 0) {
        Ok(()) => Ok(()),
        Err(_) => Err(Stop::OutOfMemory),
    }
}
