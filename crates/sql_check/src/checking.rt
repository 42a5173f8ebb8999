// Whether a statement fits the tables, and its plan.
ghost use Rattle.std.specs.Prelude.{◌≡◌, ◌<◌, ℕ, None, OnOk, IfNone, IfSome, length, option_and_then};
ghost use Rattle.row_types.specs.Schema.{table_named};
ghost use Rattle.row_types.specs.declared.definition.TableDef.{TableDef};
ghost use Rattle.sql_check.specs.Misfits.{misfit, table_of};
ghost use Rattle.sql_check.specs.Plans.{plan_on, plan_of, plan_unless, IsUnlessMemory};
ghost use Rattle.sql_check.specs.Valued.{HasValues};

use crate::misfits::{fault_in, table_of};
use crate::planning::plan_on;
use crate::{CheckFault, Plan};
use row_types::Schema;
use sql_parse::Statement;
use std::alloc::Global;

/// The plan of a statement on the tables of a schema, which takes its rows and values over without a copy.
///
/// It is refused for the first fault from left to right, with WHERE last but one and ORDER BY last: no
/// table has its name (`NoTable`); of INSERT, row by row, the number of values (`Count`) and then each
/// value (`Kind`, `Length`); of SELECT each column or total (`NoColumn`, `Kind`); of UPDATE each
/// assignment, its column (`NoColumn`, `KeyFixed`, `Twice`) and then its terms (`NoColumn`, `Kind`,
/// `Length`); of a condition `NoColumn`, `Kind`; of ORDER BY `NoColumn`, `Order`. A statement on no table
/// fits. `OutOfMemory` comes only where nothing of these does.
pub fn check(alloc: Global, schema: &Schema, statement: Statement) -> Result<Plan, CheckFault>
    // The plan exactly where there is no fault, and else the first.
    ensures plan { IsUnlessMemory result
        (plan_unless (misfit schema.now statement) (plan_of schema.now statement)) }
    // Its numbers lie in 64 bits, and its texts are UTF-8.
    ensures values { OnOk result (HasValues statement) }
{
    if let Some(fault) = misfit(schema, &statement) {
        return Err(fault);
    }
    match table_number(schema, &statement) {
        None => Ok(plan_without(&statement)),
        Some(table) => Ok(plan_on(alloc, table, schema.table(table), statement)?),
    }
}

/// The first fault of a statement by name, kind or count, as `check` finds it; it takes no memory.
pub fn misfit(schema: &Schema, statement: &Statement) -> Option<CheckFault>
    ensures fault { result ≡ misfit schema.now statement.now }
    // Where there is none its numbers lie in 64 bits, and its texts are UTF-8.
    ensures values { IfNone result (HasValues statement.now) }
{
    let name = table_of(statement)?;
    match schema.find_table(name.as_str()) {
        None => Some(CheckFault::NoTable),
        Some(table) => fault_in(schema.table(table), statement),
    }
}

/// The number of the table that a statement is on. `None`: it is on no table, or there is none of its name.
pub fn table_number(schema: &Schema, statement: &Statement) -> Option<u16>
    ensures number { result ≡ option_and_then (table_named schema.now) (table_of statement.now) }
    ensures inside { IfSome result (λ table. table < length schema.now) }
{
    let name = table_of(statement)?;
    schema.find_table(name.as_str())
}

/// The plan of a statement on no table.
fn plan_without(statement: &Statement) -> Plan
    requires { table_of statement.now ≡ None }
    ensures { (table : ℕ) (def : TableDef) → result ≡ plan_on table def statement.now }
{
    match statement {
        Statement::Begin => Plan::Begin,
        Statement::Commit => Plan::Commit,
        Statement::Rollback => Plan::Rollback,
        _ => Plan::Create,
    }
}
