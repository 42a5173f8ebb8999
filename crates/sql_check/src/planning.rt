// The plan of a statement that fits its table.
ghost use Rattle.std.specs.Prelude.{◌≡◌, ◌≤◌, length, map, IfOk};
ghost use Rattle.std.specs.List.{range_with_len};
ghost use Rattle.sql_check.specs.Columns.{column_number};
ghost use Rattle.sql_check.specs.Plans.{test_of, columns_shown, falls, total_plan, int_term, int_step};
ghost use Rattle.sql_check.specs.Plans.{text_term, assignment_of, plan_on};
ghost use Rattle.sql_parse.specs.declared.statement.Statement.TheVariants as statements;

use crate::OutOfMemory;
use crate::columns::{column_number, kind_named};
use crate::plan::{
    Assignment, DeletePlan, InsertPlan, IntStep, IntTerm, Plan, SelectPlan, Test, TextTerm,
    TotalPlan, TotalsPlan, UpdatePlan,
};
use crate::range::{range_of, range_of_rows};
use row_types::{Columns, Items, Kind, Name, TableDef, Text, Value};
use sql_parse::{
    Change, Condition, Delete, Insert, Order, Select, Shown, Statement, Step, Term, Total, Totals,
    Update,
};
use std::alloc::Global;

fn test_of(columns: &Columns, condition: Condition) -> Test
    ensures { result ≡ test_of columns.now condition }
{
    let Condition {
        column,
        comparison,
        value,
    } = condition;
    let column = column_number(columns, &column);
    match value {
        Value::Int(value) => Test::Int {
            column,
            comparison,
            value,
        },
        Value::Text(value) => Test::Text {
            column,
            comparison,
            value,
        },
    }
}

fn tests_of(
    alloc: Global,
    columns: &Columns,
    conditions: Items<Condition>,
) -> Result<Items<Test>, OutOfMemory>
    ensures { IfOk result (λ tests. tests ≡ map (test_of columns.now) conditions) }
{
    let tests = conditions
        .into_vec()
        .into_iter()
        .map(|condition| test_of(columns, condition))
        .collect(alloc)?;
    Ok(Items::from_vec(tests))
}

fn all_columns(alloc: Global, count: usize) -> Result<Items<u8>, OutOfMemory>
    requires { count ≤ 32 }
    ensures { IfOk result (λ columns. columns ≡ range_with_len 0 count) }
{
    let mut columns = Vec::with_capacity(alloc, count)?;
    for column in 0..count {
        columns.push(column as u8)?;
    }
    Ok(Items::from_vec(columns))
}

fn named_columns(alloc: Global, columns: &Columns, names: &[Name]) -> Result<Items<u8>, OutOfMemory>
    ensures { IfOk result (λ numbers. numbers ≡ map (column_number columns.now) names.now) }
{
    let mut numbers = Vec::with_capacity(alloc, names.len())?;
    for name in names {
        numbers.push(column_number(columns, name))?;
    }
    Ok(Items::from_vec(numbers))
}

fn columns_shown(alloc: Global, columns: &Columns, shown: &Shown) -> Result<Items<u8>, OutOfMemory>
    ensures { IfOk result (λ numbers. numbers ≡ columns_shown columns.now shown.now) }
{
    match shown {
        Shown::All => all_columns(alloc, columns.as_slice().len()),
        Shown::Columns(names) => named_columns(alloc, columns, names.as_slice()),
    }
}

fn falls(order: &Option<Order>) -> bool
    ensures { result ≡ falls order.now }
{
    match order {
        None => false,
        Some(order) => order.is_falling,
    }
}

fn total_plan(columns: &Columns, total: &Total) -> TotalPlan
    ensures { result ≡ total_plan columns.now total.now }
{
    match total {
        Total::Count => TotalPlan::Count,
        Total::Sum(name) => TotalPlan::Sum(column_number(columns, name)),
    }
}

fn total_plans(
    alloc: Global,
    columns: &Columns,
    totals: &[Total],
) -> Result<Items<TotalPlan>, OutOfMemory>
    ensures { IfOk result (λ plans. plans ≡ map (total_plan columns.now) totals.now) }
{
    let mut plans = Vec::with_capacity(alloc, totals.len())?;
    for total in totals {
        plans.push(total_plan(columns, total))?;
    }
    Ok(Items::from_vec(plans))
}

fn int_term(columns: &Columns, term: &Term) -> IntTerm
    ensures { result ≡ int_term columns.now term.now }
{
    match term {
        Term::Value(Value::Int(number)) => IntTerm::Number(*number),
        Term::Value(Value::Text(_)) => IntTerm::Number(0),
        Term::Column(name) => IntTerm::Column(column_number(columns, name)),
    }
}

fn int_step(columns: &Columns, step: &Step) -> IntStep
    ensures { result ≡ int_step columns.now step.now }
{
    IntStep {
        is_minus: step.is_minus,
        term: int_term(columns, &step.term),
    }
}

fn int_steps(
    alloc: Global,
    columns: &Columns,
    steps: &[Step],
) -> Result<Items<IntStep>, OutOfMemory>
    ensures { IfOk result (λ plans. plans ≡ map (int_step columns.now) steps.now) }
{
    let mut plans = Vec::with_capacity(alloc, steps.len())?;
    for step in steps {
        plans.push(int_step(columns, step))?;
    }
    Ok(Items::from_vec(plans))
}

fn text_term(alloc: Global, columns: &Columns, term: Term) -> Result<TextTerm, OutOfMemory>
    ensures { IfOk result (λ plan. plan ≡ text_term columns.now term) }
{
    match term {
        Term::Value(Value::Int(_)) => Ok(TextTerm::Text(Text::new(alloc, "")?)),
        Term::Value(Value::Text(text)) => Ok(TextTerm::Text(text)),
        Term::Column(name) => Ok(TextTerm::Column(column_number(columns, &name))),
    }
}

fn assignment_of(
    alloc: Global,
    columns: &Columns,
    change: Change,
) -> Result<Assignment, OutOfMemory>
    ensures { IfOk result (λ plan. plan ≡ assignment_of columns.now change) }
{
    let Change {
        column: name,
        first,
        further,
    } = change;
    let column = column_number(columns, &name);
    match kind_named(columns.as_slice(), &name) {
        Some(Kind::Text(_)) => Ok(Assignment::Text {
            column,
            text: text_term(alloc, columns, first)?,
        }),
        Some(Kind::Int) | None => Ok(Assignment::Int {
            column,
            first: int_term(columns, &first),
            further: int_steps(alloc, columns, further.as_slice())?,
        }),
    }
}

fn assignments_of(
    alloc: Global,
    columns: &Columns,
    changes: Items<Change>,
) -> Result<Items<Assignment>, OutOfMemory>
    ensures { IfOk result (λ plans. plans ≡ map (assignment_of columns.now) changes) }
{
    let mut plans = Vec::with_capacity(alloc, changes.len())?;
    for change in changes.into_vec() {
        plans.push(assignment_of(alloc, columns, change)?)?;
    }
    Ok(Items::from_vec(plans))
}

fn select_plan(
    alloc: Global,
    table: u16,
    def: &TableDef,
    s: Select,
) -> Result<SelectPlan, OutOfMemory>
    requires { length def.now.columns ≤ 32 }
    ensures { IfOk result (λ plan. Plan.Select plan ≡ plan_on table def.now (Statement.Select s)) }
{
    let columns = &Columns::new(def.columns.as_slice());
    Ok(SelectPlan {
        table,
        range: range_of(def, s.conditions.as_slice()),
        columns: columns_shown(alloc, columns, &s.shown)?,
        conditions: tests_of(alloc, columns, s.conditions)?,
        is_falling: falls(&s.order),
        limit: s.limit,
    })
}

fn totals_plan(
    alloc: Global,
    table: u16,
    def: &TableDef,
    s: Totals,
) -> Result<TotalsPlan, OutOfMemory>
    requires { length def.now.columns ≤ 32 }
    ensures { IfOk result (λ plan. Plan.Totals plan ≡ plan_on table def.now (Statement.Totals s)) }
{
    let columns = &Columns::new(def.columns.as_slice());
    Ok(TotalsPlan {
        table,
        range: range_of(def, s.conditions.as_slice()),
        totals: total_plans(alloc, columns, s.totals.as_slice())?,
        conditions: tests_of(alloc, columns, s.conditions)?,
    })
}

fn update_plan(
    alloc: Global,
    table: u16,
    def: &TableDef,
    s: Update,
) -> Result<UpdatePlan, OutOfMemory>
    requires { length def.now.columns ≤ 32 }
    ensures { IfOk result (λ plan. Plan.Update plan ≡ plan_on table def.now (Statement.Update s)) }
{
    let columns = &Columns::new(def.columns.as_slice());
    Ok(UpdatePlan {
        table,
        range: range_of(def, s.conditions.as_slice()),
        changes: assignments_of(alloc, columns, s.changes)?,
        conditions: tests_of(alloc, columns, s.conditions)?,
    })
}

fn delete_plan(
    alloc: Global,
    table: u16,
    def: &TableDef,
    s: Delete,
) -> Result<DeletePlan, OutOfMemory>
    requires { length def.now.columns ≤ 32 }
    ensures { IfOk result (λ plan. Plan.Delete plan ≡ plan_on table def.now (Statement.Delete s)) }
{
    let columns = &Columns::new(def.columns.as_slice());
    Ok(DeletePlan {
        table,
        range: range_of(def, s.conditions.as_slice()),
        conditions: tests_of(alloc, columns, s.conditions)?,
    })
}

/// The plan of a statement on table number `table`, which has this definition.
pub(crate) fn plan_on(
    alloc: Global,
    table: u16,
    def: &TableDef,
    statement: Statement,
) -> Result<Plan, OutOfMemory>
    requires { length def.now.columns ≤ 32 }
    ensures { IfOk result (λ plan. plan ≡ plan_on table def.now statement) }
{
    match statement {
        Statement::Insert(s) => Ok(Plan::Insert(InsertPlan {
            table,
            range: range_of_rows(def.keys.as_slice(), s.rows.as_slice()),
            rows: s.rows,
        })),
        Statement::Select(s) => Ok(Plan::Select(select_plan(alloc, table, def, s)?)),
        Statement::Totals(s) => Ok(Plan::Totals(totals_plan(alloc, table, def, s)?)),
        Statement::Update(s) => Ok(Plan::Update(update_plan(alloc, table, def, s)?)),
        Statement::Delete(s) => Ok(Plan::Delete(delete_plan(alloc, table, def, s)?)),
        Statement::Create(_) => Ok(Plan::Create),
        Statement::Begin => Ok(Plan::Begin),
        Statement::Commit => Ok(Plan::Commit),
        Statement::Rollback => Ok(Plan::Rollback),
    }
}
