// What holds of every statement, as functions that do nothing: each contract is the law.
ghost use Rattle.std.specs.Prelude.{◌≡◌, ◌↔◌, ℕ, ◌<◌, ◌^◌, List, Some};
ghost use Rattle.std.specs.List.{AllByRecursion};
ghost use Rattle.row_types.specs.Keys.{row_key};
ghost use Rattle.row_types.specs.declared.definition.TableDef.{TableDef};
ghost use Rattle.row_types.specs.declared.row.Value.{Value};
ghost use Rattle.sql_parse.specs.declared.statement.Condition.{Condition};
ghost use Rattle.sql_parse.specs.declared.statement.Statement.{Statement};
ghost use Rattle.sql_check.specs.declared.fault.CheckFault.TheVariants.{OutOfMemory as NoMemory};
ghost use Rattle.sql_check.specs.Misfits.{misfit};
ghost use Rattle.sql_check.specs.KeyRange.{IsInRange, MeetsKey, key_in, on_key, range_of, range_of_rows};

/// A key lies in the range of some conditions exactly where it is the key of a whole number and meets all
/// of those on the key.
pub fn range_is_what_conditions_allow()
    ensures { (def : TableDef) (conditions : List Condition) (key : ℕ)
        → IsInRange (range_of def conditions) key
        ↔ ((key < 2 ^ 64)
        × AllByRecursion (λ (c : Condition). MeetsKey c.comparison key (key_in c)) (on_key def conditions)) }
{}

/// The keys of some rows lie in their range.
pub fn rows_lie_in_their_range()
    ensures { (marks : List ℕ) (rows : List (List Value))
        → AllByRecursion (λ row. IsInRange (range_of_rows marks rows) (row_key marks row)) rows }
{}

/// That memory ran out is never why a statement doesn't fit.
pub fn out_of_memory_is_no_misfit()
    ensures { (tables : List TableDef) (statement : Statement) → misfit tables statement ≡ Some NoMemory → ⊥ }
{}
