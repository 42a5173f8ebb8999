// The first name, kind or count of a statement that is wrong.
ghost use Rattle.std.specs.Prelude.{◌≡◌, ◌<◌, ◌≤◌, ◌∷◌, ◌++◌, [], map, length, slice_get, Some, IfNone};
ghost use Rattle.std.specs.Option.{option_copied};
ghost use Rattle.std.specs.List.{AllByRecursion, list_any};
ghost use Rattle.std.specs.Str.{bytes_eq};
ghost use Rattle.sql_check.specs.Columns.{kind_of};
ghost use Rattle.sql_check.specs.Misfits.{fault_if, given_fault, values_fault, row_fault, first_fault};
ghost use Rattle.sql_check.specs.Misfits.{shown_fault, all_shown_fault, total_fault, is_same_kind};
ghost use Rattle.sql_check.specs.Misfits.{condition_fault, column_names, target_fault, alone_or, term_fault};
ghost use Rattle.sql_check.specs.Misfits.{terms_of, expression_fault, change_fault, changes_fault};
ghost use Rattle.sql_check.specs.Misfits.{order_fault, fault_in, is_none_left, table_of};
ghost use Rattle.sql_check.specs.Valued.{IsValue, IsTermOfValue, IsChangeOfValues, IsConditionOfValue};
ghost use Rattle.sql_check.specs.Valued.{HasValues};
ghost use Rattle.sql_check.specs.declared.fault.CheckFault.TheVariants.{Length as TooLong};
ghost use Rattle.row_types.specs.declared.definition.Kind.TheVariants.{Text as TextOf};

use crate::CheckFault;
use crate::columns::{is_key, kind_named};
use row_types::{Column, Kind, Name, Row, TableDef, Value};
use sql_parse::{
    Change, Condition, Order, Select, Shown, Statement, Step, Term, Total, Totals, Update,
};

/// LENGTH, where `given` is over the limit.
fn length_fault(given: u64, limit: u16) -> Option<CheckFault>
    ensures { result ≡ given_fault (TextOf limit) (TextOf given) }
{
    let limit = u64::from(limit);
    if given > limit {
        return Some(CheckFault::Length { given, limit });
    }
    None
}

/// KIND or LENGTH of a value in a column of this kind.
fn value_fault(kind: Kind, value: &Value) -> Option<CheckFault>
    ensures fault { result ≡ given_fault kind (kind_of value.now) }
    ensures value { IsValue value.now }
{
    match (kind, value) {
        (Kind::Int, Value::Int(number)) => {
            // Read for the proof, which learns its range so.
            let _number = *number;
            None
        }
        (Kind::Text(limit), Value::Text(text)) => length_fault(text.as_str().len() as u64, limit),
        (Kind::Int, Value::Text(text)) => {
            let _text = text.as_str();
            Some(CheckFault::Kind)
        }
        (Kind::Text(_), Value::Int(number)) => {
            let _number = *number;
            Some(CheckFault::Kind)
        }
    }
}

/// KIND or LENGTH of what a column of kind `given` has, in a column of this kind.
fn column_fault(kind: Kind, given: Kind) -> Option<CheckFault>
    ensures { result ≡ given_fault kind given }
{
    match (kind, given) {
        (Kind::Int, Kind::Int) => None,
        (Kind::Text(limit), Kind::Text(given)) => length_fault(u64::from(given), limit),
        (Kind::Int, Kind::Text(_)) => Some(CheckFault::Kind),
        (Kind::Text(_), Kind::Int) => Some(CheckFault::Kind),
    }
}

/// The first value of a row that is wrong in its column.
fn values_fault(columns: &[Column], row: &[Value]) -> Option<CheckFault>
    requires { length columns.now ≡ length row.now }
    ensures fault { result ≡ values_fault columns.now row.now }
    ensures values { IfNone result (AllByRecursion IsValue row.now) }
{
    for (i, column) in columns.iter().enumerate() {
        if let Some(fault) = value_fault(column.kind, &row[i]) {
            return Some(fault);
        }
    }
    None
}

/// COUNT, or the first value that is wrong.
fn row_fault(columns: &[Column], row: &Row) -> Option<CheckFault>
    ensures fault { result ≡ row_fault columns.now row.now }
    ensures values { IfNone result (AllByRecursion IsValue row.now) }
{
    let values = row.as_slice();
    if values.len() != columns.len() {
        return Some(CheckFault::Count {
            given: values.len() as u64,
            wanted: columns.len() as u64,
        });
    }
    values_fault(columns, values)
}

fn rows_fault(columns: &[Column], rows: &[Row]) -> Option<CheckFault>
    ensures fault { result ≡ first_fault (row_fault columns.now) rows.now }
    ensures values { IfNone result (AllByRecursion (AllByRecursion IsValue) rows.now) }
{
    for row in rows {
        if let Some(fault) = row_fault(columns, row) {
            return Some(fault);
        }
    }
    None
}

fn names_fault(columns: &[Column], names: &[Name]) -> Option<CheckFault>
    ensures { result ≡ first_fault (shown_fault columns.now) names.now }
{
    for name in names {
        if kind_named(columns, name).is_none() {
            return Some(CheckFault::NoColumn);
        }
    }
    None
}

fn shown_fault(columns: &[Column], shown: &Shown) -> Option<CheckFault>
    ensures { result ≡ all_shown_fault columns.now shown.now }
{
    match shown {
        Shown::All => None,
        Shown::Columns(names) => names_fault(columns, names.as_slice()),
    }
}

fn total_fault(columns: &[Column], total: &Total) -> Option<CheckFault>
    ensures { result ≡ total_fault columns.now total.now }
{
    match total {
        Total::Count => None,
        Total::Sum(name) => match kind_named(columns, name) {
            None => Some(CheckFault::NoColumn),
            Some(Kind::Int) => None,
            Some(Kind::Text(_)) => Some(CheckFault::Kind),
        },
    }
}

fn totals_fault(columns: &[Column], totals: &[Total]) -> Option<CheckFault>
    ensures { result ≡ first_fault (total_fault columns.now) totals.now }
{
    for total in totals {
        if let Some(fault) = total_fault(columns, total) {
            return Some(fault);
        }
    }
    None
}

/// Whether a column of this kind holds values of the kind of this one.
fn is_kind_of(kind: Kind, value: &Value) -> bool
    ensures same { result ≡ is_same_kind kind (kind_of value.now) }
    ensures value { IsValue value.now }
{
    match (kind, value) {
        (Kind::Int, Value::Int(number)) => {
            // Read for the proof, which learns its range so.
            let _number = *number;
            true
        }
        (Kind::Text(_), Value::Text(text)) => {
            let _text = text.as_str();
            true
        }
        (Kind::Int, Value::Text(text)) => {
            let _text = text.as_str();
            false
        }
        (Kind::Text(_), Value::Int(number)) => {
            let _number = *number;
            false
        }
    }
}

fn condition_fault(columns: &[Column], condition: &Condition) -> Option<CheckFault>
    ensures fault { result ≡ condition_fault columns.now condition.now }
    ensures value { IfNone result (IsConditionOfValue condition.now) }
{
    let Some(kind) = kind_named(columns, &condition.column) else {
        return Some(CheckFault::NoColumn);
    };
    if is_kind_of(kind, &condition.value) {
        return None;
    }
    Some(CheckFault::Kind)
}

fn conditions_fault(columns: &[Column], conditions: &[Condition]) -> Option<CheckFault>
    ensures fault { result ≡ first_fault (condition_fault columns.now) conditions.now }
    ensures values { IfNone result (AllByRecursion IsConditionOfValue conditions.now) }
{
    for condition in conditions {
        if let Some(fault) = condition_fault(columns, condition) {
            return Some(fault);
        }
    }
    None
}

/// Whether one of these assignments names the column.
fn is_named(earlier: &[Change], name: &Name) -> bool
    ensures { result ≡ list_any (bytes_eq name.now) (column_names earlier.now) }
{
    for change in earlier {
        if *name == change.column {
            return true;
        }
    }
    false
}

/// NO COLUMN, KEY FIXED or TWICE of an assignment to this column behind others.
fn target_fault(def: &TableDef, earlier: &[Change], name: &Name) -> Option<CheckFault>
    ensures { result ≡ target_fault def.now (column_names earlier.now) name.now }
{
    if kind_named(def.columns.as_slice(), name).is_none() {
        return Some(CheckFault::NoColumn);
    }
    if is_key(def, name) {
        return Some(CheckFault::KeyFixed);
    }
    if is_named(earlier, name) {
        return Some(CheckFault::Twice);
    }
    None
}

/// KIND for a text that doesn't stand alone, else the fault that there is.
fn alone_or(kind: Kind, is_alone: bool, fault: Option<CheckFault>) -> Option<CheckFault>
    ensures { result ≡ alone_or kind is_alone fault }
{
    match kind {
        Kind::Int => fault,
        Kind::Text(_) => {
            if is_alone {
                return fault;
            }
            Some(CheckFault::Kind)
        }
    }
}

fn term_fault(columns: &[Column], kind: Kind, is_alone: bool, term: &Term) -> Option<CheckFault>
    ensures fault { result ≡ term_fault columns.now kind is_alone term.now }
    ensures value { IsTermOfValue term.now }
{
    match term {
        Term::Value(value) => alone_or(kind, is_alone, value_fault(kind, value)),
        Term::Column(name) => match kind_named(columns, name) {
            None => Some(CheckFault::NoColumn),
            Some(given) => alone_or(kind, is_alone, column_fault(kind, given)),
        },
    }
}

/// The first further term of an expression that is wrong.
fn steps_fault(columns: &[Column], kind: Kind, is_alone: bool, steps: &[Step]) -> Option<CheckFault>
    ensures fault { result
        ≡ first_fault (term_fault columns.now kind is_alone) (map (λ s. s.term) steps.now) }
    ensures values { IfNone result (AllByRecursion IsTermOfValue (map (λ s. s.term) steps.now)) }
{
    for step in steps {
        if let Some(fault) = term_fault(columns, kind, is_alone, &step.term) {
            return Some(fault);
        }
    }
    None
}

/// The first term of an expression that is wrong in a column of this kind.
fn terms_fault(columns: &[Column], kind: Kind, change: &Change) -> Option<CheckFault>
    ensures fault { result
        ≡ first_fault (term_fault columns.now kind (is_none_left change.now.further)) (terms_of change.now) }
    ensures values { IfNone result (IsChangeOfValues change.now) }
{
    let further = change.further.as_slice();
    let is_alone = further.is_empty();
    if let Some(fault) = term_fault(columns, kind, is_alone, &change.first) {
        return Some(fault);
    }
    steps_fault(columns, kind, is_alone, further)
}

fn change_fault(def: &TableDef, earlier: &[Change], change: &Change) -> Option<CheckFault>
    ensures fault { result ≡ change_fault def.now (column_names earlier.now) change.now }
    ensures values { IfNone result (IsChangeOfValues change.now) }
{
    if let Some(fault) = target_fault(def, earlier, &change.column) {
        return Some(fault);
    }
    let columns = def.columns.as_slice();
    match kind_named(columns, &change.column) {
        None => Some(CheckFault::NoColumn),
        Some(kind) => terms_fault(columns, kind, change),
    }
}

fn changes_fault(def: &TableDef, changes: &[Change]) -> Option<CheckFault>
    ensures fault { result ≡ changes_fault def.now [] changes.now }
    ensures values { IfNone result (AllByRecursion IsChangeOfValues changes.now) }
{
    for (i, change) in changes.iter().enumerate() {
        if let Some(fault) = change_fault(def, &changes[..i], change) {
            return Some(fault);
        }
    }
    None
}

fn order_fault(def: &TableDef, order: &Option<Order>) -> Option<CheckFault>
    ensures { result ≡ order_fault def.now order.now }
{
    let Some(order) = order else {
        return None;
    };
    if kind_named(def.columns.as_slice(), &order.column).is_none() {
        return Some(CheckFault::NoColumn);
    }
    if is_key(def, &order.column) {
        return None;
    }
    Some(CheckFault::Order)
}

fn select_fault(def: &TableDef, s: &Select) -> Option<CheckFault>
    ensures fault { result ≡ fault_in def.now (Statement.Select s.now) }
    ensures values { IfNone result (AllByRecursion IsConditionOfValue s.now.conditions) }
{
    let columns = def.columns.as_slice();
    if let Some(fault) = shown_fault(columns, &s.shown) {
        return Some(fault);
    }
    if let Some(fault) = conditions_fault(columns, s.conditions.as_slice()) {
        return Some(fault);
    }
    order_fault(def, &s.order)
}

fn all_totals_fault(def: &TableDef, s: &Totals) -> Option<CheckFault>
    ensures fault { result ≡ fault_in def.now (Statement.Totals s.now) }
    ensures values { IfNone result (AllByRecursion IsConditionOfValue s.now.conditions) }
{
    let columns = def.columns.as_slice();
    if let Some(fault) = totals_fault(columns, s.totals.as_slice()) {
        return Some(fault);
    }
    conditions_fault(columns, s.conditions.as_slice())
}

fn update_fault(def: &TableDef, s: &Update) -> Option<CheckFault>
    ensures fault { result ≡ fault_in def.now (Statement.Update s.now) }
    ensures changes { IfNone result (AllByRecursion IsChangeOfValues s.now.changes) }
    ensures conditions { IfNone result (AllByRecursion IsConditionOfValue s.now.conditions) }
{
    if let Some(fault) = changes_fault(def, s.changes.as_slice()) {
        return Some(fault);
    }
    conditions_fault(def.columns.as_slice(), s.conditions.as_slice())
}

/// The first fault of a statement on this table, from left to right.
pub(crate) fn fault_in(def: &TableDef, statement: &Statement) -> Option<CheckFault>
    ensures fault { result ≡ fault_in def.now statement.now }
    ensures values { IfNone result (HasValues statement.now) }
{
    let columns = def.columns.as_slice();
    match statement {
        Statement::Insert(s) => rows_fault(columns, s.rows.as_slice()),
        Statement::Select(s) => select_fault(def, s),
        Statement::Totals(s) => all_totals_fault(def, s),
        Statement::Update(s) => update_fault(def, s),
        Statement::Delete(s) => conditions_fault(columns, s.conditions.as_slice()),
        Statement::Create(_) => None,
        Statement::Begin => None,
        Statement::Commit => None,
        Statement::Rollback => None,
    }
}

/// The name of the table that a statement is on.
pub(crate) fn table_of(statement: &Statement) -> Option<&Name>
    ensures { option_copied result ≡ table_of statement.now }
{
    match statement {
        Statement::Insert(s) => Some(&s.table),
        Statement::Select(s) => Some(&s.table),
        Statement::Totals(s) => Some(&s.table),
        Statement::Update(s) => Some(&s.table),
        Statement::Delete(s) => Some(&s.table),
        Statement::Create(_) => None,
        Statement::Begin => None,
        Statement::Commit => None,
        Statement::Rollback => None,
    }
}
