// What is known of every plan, as functions that do nothing: each contract is the law.
ghost use Rattle.std.specs.Prelude.{◌≡◌, ℕ, List};
ghost use Rattle.row_types.specs.declared.definition.TableDef.{TableDef};
ghost use Rattle.sql_parse.specs.declared.statement.Statement.{Statement};
ghost use Rattle.sql_check.specs.declared.plan.Plan.{Plan};
ghost use Rattle.sql_check.specs.Valued.{IsPlanOf};
ghost use Rattle.sql_exec.specs.Fits.{FitsTables};

use plain_model::kept_rows_lie_in_their_range;
use sql_check::rows_lie_in_their_range;

/// The plan of a statement fits the tables: its rows, new rows and the rows that it keeps lie in its range.
pub(crate) fn plans_fit()
    ensures { (defs : List TableDef) (statement : Statement) (plan : Plan) → IsPlanOf defs statement plan
        → FitsTables defs plan }
{
    kept_rows_lie_in_their_range();
    rows_lie_in_their_range();
}
