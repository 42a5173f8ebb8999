// What the tests and expressions of a plan come to on a row, by the numbers of its columns.
ghost use Rattle.std.specs.Prelude.{◌≡◌, ◌≢◌, ℕ, map, IfOk, unwrap_or};
ghost use Rattle.std.specs.Bool.{then_some};
ghost use Rattle.plain_model.specs.Values.{fits_int, value_at};
ghost use Rattle.plain_model.specs.PlanMeaning.{text_at, test_holds, passes_all, int_value, int_stepped};
ghost use Rattle.plain_model.specs.PlanMeaning.{ints_after, text_value, target_of, assigned_value};
ghost use Rattle.plain_model.specs.PlanMeaning.{planned_row};
ghost use Rattle.sql_exec.specs.Selects.{in_columns};

use crate::OutOfMemory;
use plain_model::allows;
use row_types::{Items, Row, Text, TryCopy, Value, int_at};
use sql_check::{Assignment, IntStep, IntTerm, Test, TextTerm};
use std::alloc::Global;
use std::mem::replace;

/// The text at a place of a row, empty where no such stands.
fn text_at(row: &Row, column: u8) -> &str
    ensures { result.now ≡ text_at row.now column }
{
    match row.as_slice().get(column as usize) {
        Some(Value::Text(text)) => text.as_str(),
        _ => "",
    }
}

/// Whether a test holds of a row.
fn test_holds(row: &Row, test: &Test) -> bool
    ensures { result ≡ test_holds row.now test.now }
{
    match test {
        Test::Int {
            column,
            comparison,
            value,
        } => allows(*comparison, int_at(row, *column as usize).cmp(value)),
        Test::Text {
            column,
            comparison,
            value,
        } => allows(*comparison, text_at(row, *column).cmp(value.as_str())),
    }
}

/// Whether every test holds of a row.
pub(crate) fn passes_all(conditions: &[Test], row: &Row) -> bool
    ensures { result ≡ passes_all conditions.now row.now }
{
    for test in conditions {
        if !test_holds(row, test) {
            return false;
        }
    }
    true
}

/// A term of whole numbers.
fn int_value(row: &Row, term: IntTerm) -> i64
    ensures { result ≡ int_value row.now term }
{
    match term {
        IntTerm::Number(number) => number,
        IntTerm::Column(column) => int_at(row, column as usize),
    }
}

/// A number with another added, or taken away. `None`: that leaves the range of numbers.
fn int_stepped(number: i64, is_minus: bool, other: i64) -> Option<i64>
    ensures { result
        ≡ then_some (fits_int (int_stepped number is_minus other)) (int_stepped number is_minus other) }
{
    if is_minus {
        number.checked_sub(other)
    } else {
        number.checked_add(other)
    }
}

/// A number after further steps, from left to right. `None`: one of them leaves the range of numbers.
fn ints_after(row: &Row, first: i64, further: &[IntStep]) -> Option<i64>
    ensures { result ≡ ints_after row.now first further.now }
{
    let mut number = first;
    for step in further {
        number = int_stepped(number, step.is_minus, int_value(row, step.term))?;
    }
    Some(number)
}

/// A term that is a text.
fn text_value(alloc: Global, row: &Row, term: &TextTerm) -> Result<Text, OutOfMemory>
    ensures { IfOk result (λ text. text ≡ text_value row.now term.now) }
{
    match term {
        TextTerm::Text(text) => text.copy(),
        TextTerm::Column(column) => Text::new(alloc, text_at(row, *column)),
    }
}

/// The column of an assignment.
fn target_of(change: &Assignment) -> u8
    ensures { result ≡ target_of change.now }
{
    match change {
        Assignment::Int { column, .. } => *column,
        Assignment::Text { column, .. } => *column,
    }
}

/// What an assignment gives its column. `None`: a step leaves the range of numbers.
fn assigned_value(
    alloc: Global,
    row: &Row,
    change: &Assignment,
) -> Result<Option<Value>, OutOfMemory>
    ensures { IfOk result (λ value. value ≡ assigned_value row.now change.now) }
{
    match change {
        Assignment::Int { first, further, .. } => {
            let number = ints_after(row, int_value(row, *first), further.as_slice());
            Ok(number.map(Value::Int))
        }
        Assignment::Text { text, .. } => Ok(Some(Value::Text(text_value(alloc, row, text)?))),
    }
}

/// The new row that assignments make of a row, whose expressions are of the old one. `None`: a step leaves
/// the range of numbers.
pub(crate) fn planned_row(
    alloc: Global,
    changes: &[Assignment],
    row: &Row,
) -> Result<Option<Row>, OutOfMemory>
    ensures { IfOk result (λ new. new ≡ planned_row changes.now row.now) }
{
    let mut values = row.copy()?.into_vec();
    for change in changes {
        let Some(value) = assigned_value(alloc, row, change)? else {
            return Ok(None);
        };
        let column = target_of(change) as usize;
        if column < values.len() {
            values[column] = value;
        }
    }
    Ok(Some(Items::from_vec(values)))
}

/// The value of a row in a column, 0 where it has none.
fn value_at(row: &[Value], column: u8) -> Result<Value, OutOfMemory>
    ensures { IfOk result (λ value. value ≡ value_at row.now column) }
{
    match row.get(column as usize) {
        Some(value) => value.copy(),
        None => Ok(Value::Int(0)),
    }
}

/// Takes the value in a column out of a row. All others stay.
fn taken(row: &mut [Value], column: u8) -> Value
    ensures value { result ≡ value_at row.old column }
    ensures others { (other : ℕ) → other ≢ column → value_at row.new other ≡ value_at row.old other }
{
    let column = column as usize;
    if row.len() <= column {
        return Value::Int(0);
    }
    replace(&mut row[column], Value::Int(0))
}

/// The value of a row in a column, which is moved out of it unless the column is among the later ones.
fn next_value(row: &mut [Value], column: u8, later: &[u8]) -> Result<Value, OutOfMemory>
    ensures value { IfOk result (λ value. value ≡ value_at row.old column) }
    ensures later { map (value_at row.new) later.now ≡ map (value_at row.old) later.now }
{
    if later.contains(&column) {
        return value_at(row, column);
    }
    Ok(taken(row, column))
}

/// The values of a row in these columns.
pub(crate) fn in_columns(alloc: Global, columns: &[u8], row: Row) -> Result<Row, OutOfMemory>
    ensures { IfOk result (λ values. values ≡ in_columns columns.now row) }
{
    let mut row = row.into_vec();
    let mut values = Vec::with_capacity(alloc, columns.len())?;
    for (i, column) in columns.iter().enumerate() {
        values.push(next_value(&mut row, *column, &columns[i + 1..])?)?;
    }
    Ok(Items::from_vec(values))
}
