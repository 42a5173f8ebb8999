// What statements do to the rows of a table, by filters, maps and sums over a list.
ghost use Rattle.std.specs.Prelude.{◌≡◌, ◌≤◌, ◌-◌, ◌^◌, ◌≤ℤ◌, ◌+ℤ◌, pos, ◌++◌, map, length, is_some, filter};
ghost use Rattle.std.specs.Prelude.{not, nat_lt, IfOk, OnOk};
ghost use Rattle.row_types.specs.Keys.{row_key};
ghost use Rattle.key_space.specs.Plays.{row_at, with_row};
ghost use Rattle.plain_model.specs.Values.{is_kept};
ghost use Rattle.plain_model.specs.Meaning.{kept, key_numbers, inserts, shown, ordered, limited, sum_of};
ghost use Rattle.plain_model.specs.Meaning.{total_of, totals_reply, is_out_of_range, updated, updates};
ghost use Rattle.plain_model.specs.Meaning.{deletes};

use crate::values::{cell, changed_row, is_kept};
use crate::{OutOfMemory, Refusal, Reply};
use key_space::Key;
use row_types::{Columns, Items, Name, Row, TableDef, TryCopy, Value, int_at};
use sql_check::{column_number, row_key};
use sql_parse::{Change, Condition, Delete, Order, Select, Shown, Total, Totals, Update};
use std::alloc::Global;

/// A copy of rows.
pub(crate) fn copied(alloc: Global, rows: &[Row]) -> Result<Vec<Row>, OutOfMemory>
    ensures { IfOk result (λ copy. copy.items ≡ rows.now) }
{
    let mut copy = Vec::with_capacity(alloc, rows.len())?;
    for row in rows {
        copy.push(row.copy()?)?;
    }
    Ok(copy)
}

/// The rows for which every condition holds.
fn kept(
    alloc: Global,
    columns: &Columns,
    conditions: &[Condition],
    rows: &[Row],
) -> Result<Vec<Row>, OutOfMemory>
    ensures { IfOk result (λ found. found.items ≡ kept columns.now conditions.now rows.now) }
{
    let mut found = Vec::new(alloc);
    for row in rows {
        if is_kept(columns, conditions, row)? {
            found.push(row.copy()?)?;
        }
    }
    Ok(found)
}

// ---- INSERT

fn has_key(marks: &[u8], rows: &[Row], key: Key) -> bool
    ensures { result ≡ is_some (row_at marks.now rows.now key.number) }
{
    for row in rows {
        if row_key(marks, row) == key {
            return true;
        }
    }
    false
}

/// The rows with another in its place.
fn with_row(alloc: Global, marks: &[u8], rows: &[Row], row: &Row) -> Result<Vec<Row>, OutOfMemory>
    ensures { IfOk result (λ all. all.items ≡ with_row marks.now rows.now row.now) }
{
    let mut all = below(alloc, marks, rows, row_key(marks, row))?;
    all.push(row.copy()?)?;
    push_above(marks, rows, row_key(marks, row), &mut all)?;
    Ok(all)
}

/// The rows with lower keys.
fn below(alloc: Global, marks: &[u8], rows: &[Row], key: Key) -> Result<Vec<Row>, OutOfMemory>
    ensures { IfOk result (λ low. low.items
        ≡ filter (λ other. nat_lt (row_key marks.now other) key.number) rows.now) }
{
    let mut low = Vec::new(alloc);
    for row in rows {
        if row_key(marks, row) < key {
            low.push(row.copy()?)?;
        }
    }
    Ok(low)
}

/// Adds the rows with higher keys.
fn push_above(marks: &[u8], rows: &[Row], key: Key, all: &mut Vec<Row>) -> Result<(), OutOfMemory>
    ensures { OnOk result (all.new.items
        ≡ all.old.items ++ filter (λ other. nat_lt key.number (row_key marks.now other)) rows.now) }
{
    for row in rows {
        if key < row_key(marks, row) {
            all.push(row.copy()?)?;
        }
    }
    Ok(())
}

/// The numbers in the key columns of a row.
pub fn key_numbers(alloc: Global, marks: &[u8], row: &Row) -> Result<Items<i64>, OutOfMemory>
    ensures { IfOk result (λ numbers. numbers ≡ key_numbers marks.now row.now) }
{
    let mut numbers = Vec::with_capacity(alloc, marks.len())?;
    for mark in marks {
        numbers.push(int_at(row, *mark as usize))?;
    }
    Ok(Items::from_vec(numbers))
}

/// INSERT of new rows.
pub(crate) fn inserts(
    alloc: Global,
    def: &TableDef,
    new: &[Row],
    rows: &[Row],
) -> Result<(Reply, Vec<Row>), OutOfMemory>
    ensures { IfOk result (λ done. (done.0, done.1.items) ≡ inserts def.now new.now rows.now) }
{
    let marks = def.keys.as_slice();
    let mut all = copied(alloc, rows)?;
    for row in new {
        if has_key(marks, &all, row_key(marks, row)) {
            let key = key_numbers(alloc, marks, row)?;
            let refused = Reply::Refused(Refusal::Duplicate { key });
            return Ok((refused, copied(alloc, rows)?));
        }
        all = with_row(alloc, marks, &all, row)?;
    }
    Ok((Reply::Many(new.len() as u64), all))
}

// ---- SELECT

/// The values of a row that are shown.
fn shown(alloc: Global, columns: &Columns, asked: &Shown, row: &Row) -> Result<Row, OutOfMemory>
    ensures { IfOk result (λ values. values ≡ shown columns.now asked.now row.now) }
{
    let names = match asked {
        Shown::All => return row.copy(),
        Shown::Columns(names) => names.as_slice(),
    };
    let mut values = Vec::with_capacity(alloc, names.len())?;
    for name in names {
        values.push(cell(columns, row, name)?)?;
    }
    Ok(Items::from_vec(values))
}

fn ordered(order: &Option<Order>, rows: Vec<Row>) -> Vec<Row>
    ensures { result.items ≡ ordered order.now rows.items }
{
    let mut rows = rows;
    if let Some(order) = order {
        if order.is_falling {
            rows.reverse();
        }
    }
    rows
}

fn limited(limit: Option<u64>, rows: Vec<Row>) -> Vec<Row>
    ensures { result.items ≡ limited limit rows.items }
{
    let mut rows = rows;
    if let Some(limit) = limit {
        rows.truncate(limit as usize);
    }
    rows
}

/// SELECT of columns.
pub(crate) fn selects(
    alloc: Global,
    columns: &Columns,
    s: &Select,
    rows: &[Row],
) -> Result<Reply, OutOfMemory>
    ensures { IfOk result (λ reply. reply
        ≡ Reply.Rows (map (shown columns.now s.now.shown)
        (limited s.now.limit (ordered s.now.order (kept columns.now s.now.conditions rows.now))))) }
{
    let found = kept(alloc, columns, s.conditions.as_slice(), rows)?;
    let found = limited(s.limit, ordered(&s.order, found));
    Ok(Reply::Rows(all_shown(alloc, columns, &s.shown, &found)?))
}

fn all_shown(
    alloc: Global,
    columns: &Columns,
    asked: &Shown,
    rows: &[Row],
) -> Result<Items<Row>, OutOfMemory>
    ensures { IfOk result (λ all. all ≡ map (shown columns.now asked.now) rows.now) }
{
    let mut all = Vec::with_capacity(alloc, rows.len())?;
    for row in rows {
        all.push(shown(alloc, columns, asked, row)?)?;
    }
    Ok(Items::from_vec(all))
}

/// The sum of a column of whole numbers.
fn sum_of(columns: &Columns, name: &Name, rows: &[Row]) -> i128
    ensures { result ≡ sum_of columns.now name.now rows.now }
{
    let column = column_number(columns, name) as usize;
    let mut sum = 0;
    for row in rows {
        sum = plus(sum, int_at(row, column));
    }
    sum
}

/// A sum with one number more.
fn plus(sum: i128, number: i64) -> i128
    requires low { pos 0 ≤ℤ (sum +ℤ pos (2 ^ 127 - 2 ^ 63)) }
    requires high { sum ≤ℤ pos (2 ^ 127 - 2 ^ 63) }
    ensures value { result ≡ sum +ℤ number }
    ensures low { sum ≤ℤ (result +ℤ pos (2 ^ 63)) }
    ensures high { result ≤ℤ (sum +ℤ pos (2 ^ 63)) }
{
    sum + i128::from(number)
}

fn total_of(columns: &Columns, rows: &[Row], total: &Total) -> i128
    ensures { result ≡ total_of columns.now rows.now total.now }
{
    match total {
        Total::Count => rows.len() as i128,
        Total::Sum(name) => sum_of(columns, name, rows),
    }
}

/// The row of totals over the rows that are kept.
fn totals_reply(
    alloc: Global,
    columns: &Columns,
    asked: &[Total],
    found: &[Row],
) -> Result<Reply, OutOfMemory>
    ensures { IfOk result (λ reply. reply ≡ totals_reply (map (total_of columns.now found.now) asked.now)) }
{
    let mut values = Vec::with_capacity(alloc, asked.len())?;
    for total in asked {
        match i64::try_from(total_of(columns, found, total)) {
            Ok(number) => values.push(Value::Int(number))?,
            Err(_) => return Ok(Reply::Refused(Refusal::Range)),
        }
    }
    let mut rows = Vec::with_capacity(alloc, 1)?;
    rows.push(Items::from_vec(values))?;
    Ok(Reply::Rows(Items::from_vec(rows)))
}

/// SELECT of totals.
pub(crate) fn totals(
    alloc: Global,
    columns: &Columns,
    s: &Totals,
    rows: &[Row],
) -> Result<Reply, OutOfMemory>
    ensures { IfOk result (λ reply. reply
        ≡ totals_reply (map (total_of columns.now
        (kept columns.now s.now.conditions rows.now)) s.now.totals)) }
{
    let found = kept(alloc, columns, s.conditions.as_slice(), rows)?;
    totals_reply(alloc, columns, s.totals.as_slice(), &found)
}

// ---- UPDATE and DELETE

fn is_out_of_range(
    columns: &Columns,
    changes: &[Change],
    found: &[Row],
) -> Result<bool, OutOfMemory>
    ensures { IfOk result (λ answer. answer ≡ is_out_of_range columns.now changes.now found.now) }
{
    for row in found {
        if changed_row(columns, changes, row)?.is_none() {
            return Ok(true);
        }
    }
    Ok(false)
}

/// A row after an UPDATE.
fn updated(columns: &Columns, s: &Update, row: &Row) -> Result<Row, OutOfMemory>
    ensures { IfOk result (λ new. new ≡ updated columns.now s.now.changes s.now.conditions row.now) }
{
    if is_kept(columns, s.conditions.as_slice(), row)? {
        if let Some(new) = changed_row(columns, s.changes.as_slice(), row)? {
            return Ok(new);
        }
    }
    row.copy()
}

/// UPDATE.
pub(crate) fn updates(
    alloc: Global,
    columns: &Columns,
    s: &Update,
    rows: &[Row],
) -> Result<(Reply, Vec<Row>), OutOfMemory>
    ensures { IfOk result (λ done. (done.0, done.1.items)
        ≡ updates columns.now s.now.changes s.now.conditions rows.now) }
{
    let changes = s.changes.as_slice();
    let conditions = s.conditions.as_slice();
    let found = kept(alloc, columns, conditions, rows)?;
    if is_out_of_range(columns, changes, &found)? {
        return Ok((Reply::Refused(Refusal::Range), copied(alloc, rows)?));
    }
    let all = all_updated(alloc, columns, s, rows)?;
    Ok((Reply::Many(found.len() as u64), all))
}

/// All rows after an UPDATE.
fn all_updated(
    alloc: Global,
    columns: &Columns,
    s: &Update,
    rows: &[Row],
) -> Result<Vec<Row>, OutOfMemory>
    ensures { IfOk result (λ all. all.items
        ≡ map (updated columns.now s.now.changes s.now.conditions) rows.now) }
{
    let mut all = Vec::with_capacity(alloc, rows.len())?;
    for row in rows {
        all.push(updated(columns, s, row)?)?;
    }
    Ok(all)
}

/// The rows that DELETE leaves.
fn left(
    alloc: Global,
    columns: &Columns,
    conditions: &[Condition],
    rows: &[Row],
) -> Result<Vec<Row>, OutOfMemory>
    ensures { IfOk result (λ rest. rest.items
        ≡ filter (λ row. not (is_kept columns.now conditions.now row)) rows.now) }
{
    let mut rest = Vec::new(alloc);
    for row in rows {
        if !is_kept(columns, conditions, row)? {
            rest.push(row.copy()?)?;
        }
    }
    Ok(rest)
}

/// DELETE.
pub(crate) fn deletes(
    alloc: Global,
    columns: &Columns,
    s: &Delete,
    rows: &[Row],
) -> Result<(Reply, Vec<Row>), OutOfMemory>
    ensures { IfOk result (λ done. (done.0, done.1.items) ≡ deletes columns.now s.now.conditions rows.now) }
{
    let found = kept(alloc, columns, s.conditions.as_slice(), rows)?;
    let rest = left(alloc, columns, s.conditions.as_slice(), rows)?;
    Ok((Reply::Many(found.len() as u64), rest))
}
