// What holds of every run, as functions whose contract is the law.
ghost use Rattle.std.specs.Prelude.{ℕ, List};
ghost use Rattle.row_types.specs.declared.definition.TableDef.{TableDef};
ghost use Rattle.row_types.specs.Schema.{IsSchema};
ghost use Rattle.row_types.specs.Tables.{Tables};
ghost use Rattle.plain_model.specs.Blocks.{Said, Serial};
ghost use Rattle.list_store.specs.Log.{BeginsWith};
ghost use Rattle.section_runs.specs.Trail.{BeginsAmong, IsAmong, Leads, last_of};

use list_store::one_beginning;

/// Blocks that lead over a trail are run one after the other, from its first tables to its last.
pub fn trail_is_serial()
    ensures { (first : Tables) (said : List Said) (trail : List Tables) → Leads first said trail
        → Serial first said (last_of first trail) }
{}

/// Over a log file with which a run may begin with some of these tables, each run begins with some of them.
pub fn one_beginning_among()
    ensures { (defs : List TableDef) (tables : List Tables) (image : List ℕ) (first : Tables)
        → IsSchema defs → BeginsAmong defs tables image → BeginsWith defs first image
        → IsAmong first tables }
{
    one_beginning();
}
