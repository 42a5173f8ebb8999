// What conditions and expressions come to on a row, by the names of columns.
ghost use Rattle.std.specs.Prelude.{◌≡◌, ◌≤◌, ◌+ℤ◌, ◌-ℤ◌, length, IfOk};
ghost use Rattle.plain_model.specs.Values.{cell, allows, compares, holds, is_kept, term_value, in_int};
ghost use Rattle.plain_model.specs.Values.{stepped, expression_value, changed_row};

use crate::OutOfMemory;
use row_types::{Columns, Items, Name, Row, TryCopy, Value};
use sql_check::column_number;
use sql_parse::{Change, Comparison, Condition, Step, Term};
use std::cmp::Ordering;

/// The value of a row in the column with this name, 0 where it has none.
pub(crate) fn cell(columns: &Columns, row: &Row, name: &Name) -> Result<Value, OutOfMemory>
    ensures { IfOk result (λ value. value ≡ cell columns.now row.now name.now) }
{
    match row.as_slice().get(column_number(columns, name) as usize) {
        Some(value) => value.copy(),
        None => Ok(Value::Int(0)),
    }
}

/// Whether what is in this order compares so.
pub fn allows(comparison: Comparison, order: Ordering) -> bool
    ensures { result ≡ allows comparison order }
{
    match comparison {
        Comparison::Equal => order.is_eq(),
        Comparison::NotEqual => order.is_ne(),
        Comparison::Less => order.is_lt(),
        Comparison::LessEqual => order.is_le(),
        Comparison::Greater => order.is_gt(),
        Comparison::GreaterEqual => order.is_ge(),
    }
}

/// Whether one value compares so with another.
fn compares(comparison: Comparison, value: &Value, other: &Value) -> bool
    ensures { result ≡ compares comparison value.now other.now }
{
    match (value, other) {
        (Value::Int(a), Value::Int(b)) => allows(comparison, a.cmp(b)),
        (Value::Text(a), Value::Text(b)) => allows(comparison, a.as_str().cmp(b.as_str())),
        (Value::Int(_), Value::Text(_)) => false,
        (Value::Text(_), Value::Int(_)) => false,
    }
}

/// Whether a condition holds of a row.
fn holds(columns: &Columns, row: &Row, condition: &Condition) -> Result<bool, OutOfMemory>
    ensures { IfOk result (λ answer. answer ≡ holds columns.now row.now condition.now) }
{
    let value = cell(columns, row, &condition.column)?;
    Ok(compares(condition.comparison, &value, &condition.value))
}

/// Whether every condition holds of a row.
pub(crate) fn is_kept(
    columns: &Columns,
    conditions: &[Condition],
    row: &Row,
) -> Result<bool, OutOfMemory>
    ensures { IfOk result (λ answer. answer ≡ is_kept columns.now conditions.now row.now) }
{
    for condition in conditions {
        if !holds(columns, row, condition)? {
            return Ok(false);
        }
    }
    Ok(true)
}

/// A term: its value, or what its column has in the row.
fn term_value(columns: &Columns, row: &Row, term: &Term) -> Result<Value, OutOfMemory>
    ensures { IfOk result (λ value. value ≡ term_value columns.now row.now term.now) }
{
    match term {
        Term::Value(value) => value.copy(),
        Term::Column(name) => cell(columns, row, name),
    }
}

/// The sum of two numbers. `None`: it leaves the range of numbers.
fn added(a: i64, b: i64) -> Option<Value>
    ensures { result ≡ in_int (a +ℤ b) }
{
    match a.checked_add(b) {
        Some(sum) => Some(Value::Int(sum)),
        None => None,
    }
}

/// A number with another taken away. `None`: that leaves the range of numbers.
fn taken(a: i64, b: i64) -> Option<Value>
    ensures { result ≡ in_int (a -ℤ b) }
{
    match a.checked_sub(b) {
        Some(rest) => Some(Value::Int(rest)),
        None => None,
    }
}

/// A number with another added, or taken away. `None`: that leaves the range of numbers.
fn stepped(value: &Value, is_minus: bool, other: &Value) -> Option<Value>
    ensures { result ≡ stepped value.now is_minus other.now }
{
    match (value, other) {
        (Value::Int(a), Value::Int(b)) => {
            if is_minus {
                return taken(*a, *b);
            }
            added(*a, *b)
        }
        (Value::Int(_), Value::Text(_)) => None,
        (Value::Text(_), Value::Int(_)) => None,
        (Value::Text(_), Value::Text(_)) => None,
    }
}

/// What an expression comes to on a row. `None`: a step leaves the range of numbers.
fn expression_value(
    columns: &Columns,
    row: &Row,
    change: &Change,
) -> Result<Option<Value>, OutOfMemory>
    ensures { IfOk result (λ value. value ≡ expression_value columns.now row.now change.now) }
{
    let mut value = term_value(columns, row, &change.first)?;
    let steps = change.further.as_slice();
    for step in steps {
        let other = term_value(columns, row, &step.term)?;
        match stepped(&value, step.is_minus, &other) {
            Some(next) => value = next,
            None => return Ok(None),
        }
    }
    Ok(Some(value))
}

/// The new row that assignments make of a row. `None`: a step leaves the range of numbers.
pub(crate) fn changed_row(
    columns: &Columns,
    changes: &[Change],
    row: &Row,
) -> Result<Option<Row>, OutOfMemory>
    ensures { IfOk result (λ new. new ≡ changed_row columns.now changes.now row.now) }
{
    let mut values = row.copy()?.into_vec();
    for change in changes {
        let Some(value) = expression_value(columns, row, change)? else {
            return Ok(None);
        };
        let column = column_number(columns, &change.column) as usize;
        if column < values.len() {
            values[column] = value;
        }
    }
    Ok(Some(Items::from_vec(values)))
}
