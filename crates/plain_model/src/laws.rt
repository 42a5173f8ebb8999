// What holds of every statement, block and list of blocks, as functions that do nothing: each contract is
// the law.
ghost use Rattle.std.specs.Prelude.{◌≡◌, ℕ, List, ◌++◌, [], None, true};
ghost use Rattle.std.specs.List.{AllByRecursion};
ghost use Rattle.row_types.specs.Block.{Placed};
ghost use Rattle.row_types.specs.Tables.{Tables, AreTables};
ghost use Rattle.row_types.specs.declared.block.Block.{Block};
ghost use Rattle.row_types.specs.declared.block.BlockEnd.TheVariants.{Rollback, CutOff};
ghost use Rattle.row_types.specs.declared.definition.TableDef.{TableDef};
ghost use Rattle.row_types.specs.declared.row.Value.{Value};
ghost use Rattle.row_types.specs.Keys.{row_key};
ghost use Rattle.row_types.specs.Schema.{has_int_key};
ghost use Rattle.row_types.specs.Slot.{IsRowOf};
ghost use Rattle.key_space.specs.Plays.{Rows};
ghost use Rattle.sql_check.specs.KeyRange.{IsInRange, range_of};
ghost use Rattle.sql_check.specs.Misfits.{fault_in};
ghost use Rattle.sql_check.specs.Plans.{plan_on};
ghost use Rattle.sql_check.specs.Valued.{IsConditionOfValue, HasValues};
ghost use Rattle.sql_parse.specs.declared.statement.Condition.{Condition};
ghost use Rattle.plain_model.specs.Values.{is_kept};
ghost use Rattle.sql_parse.specs.declared.statement.Select.{Select};
ghost use Rattle.sql_parse.specs.declared.statement.Totals.{Totals};
ghost use Rattle.sql_parse.specs.declared.statement.Statement.{Statement};
ghost use Rattle.sql_parse.specs.declared.statement.Statement.TheVariants.{Select as SelectOf};
ghost use Rattle.sql_parse.specs.declared.statement.Statement.TheVariants.{Totals as TotalsOf};
ghost use Rattle.plain_model.specs.declared.reply.Reply.{Reply};
ghost use Rattle.plain_model.specs.declared.reply.Reply.TheVariants.{Refused};
ghost use Rattle.plain_model.specs.declared.reply.Refusal.{Refusal};
ghost use Rattle.plain_model.specs.Meaning.{acts, kept, means};
ghost use Rattle.plain_model.specs.PlanMeaning.{plan_acts};
ghost use Rattle.plain_model.specs.Blocks.{IsPlain, TransactionAnswers, block_means, Said, Serial};

use key_space::keys_keep_order;
use sql_check::{out_of_memory_is_no_misfit, range_is_what_conditions_allow};
use sql_parse::one_answer;

/// A block has one meaning: where nothing is used up, its replies and the tables after it follow from the
/// tables before.
pub fn one_meaning()
    ensures { (block : Block) (first a b : Tables) (p q : List Reply) → AllByRecursion IsPlain p
        → AllByRecursion IsPlain q
        → block_means block first p a → block_means block first q b → (p ≡ q) × (a ≡ b) }
{
    one_answer();
}

/// A statement that is refused leaves the tables.
pub fn refused_changes_nothing()
    ensures { (tables : Tables) (statement : Statement) (refusal : Refusal)
        → (means tables statement).0 ≡ Refused refusal → (means tables statement).1 ≡ tables }
{}

/// SELECT leaves the tables.
pub fn select_changes_nothing()
    ensures columns { (tables : Tables) (s : Select) → (means tables (SelectOf s)).1 ≡ tables }
    ensures totals { (tables : Tables) (s : Totals) → (means tables (TotalsOf s)).1 ≡ tables }
{}

/// Tables stay tables: the rows fit their definitions, and their keys rise.
pub fn means_tables()
    ensures { (tables : Tables) (statement : Statement) → HasValues statement → AreTables tables
        → AreTables (means tables statement).1 }
{
    out_of_memory_is_no_misfit();
}

/// A block that is rolled back or cut off leaves the tables.
pub fn rolled_back_changes_nothing()
    ensures rolled_back { (texts : List Placed) (first last : Tables) (replies : List Reply)
        → TransactionAnswers texts Rollback first replies last → last ≡ first }
    ensures cut_off { (texts : List Placed) (first last : Tables) (replies : List Reply)
        → TransactionAnswers texts CutOff first replies last → last ≡ first }
{}

/// Blocks one after the other: two lists that follow each other are one, and one list is two at each place.
pub fn serial_composes()
    ensures joined { (first middle last : Tables) (before after : List Said) → Serial first before middle
        → Serial middle after last → Serial first (before ++ after) last }
    ensures parted { (first last : Tables) (before after : List Said) → Serial first (before ++ after) last
        → (middle : Tables) × Serial first before middle × Serial middle after last }
{}

/// A row that WHERE keeps has its key in the range of the conditions, and where that is empty no row is kept.
pub fn kept_rows_lie_in_their_range()
    ensures kept { (def : TableDef) (conditions : List Condition) (row : List Value)
        → has_int_key def.columns def.keys ≡ true
        → IsRowOf def.columns row → AllByRecursion IsConditionOfValue conditions
        → is_kept def.columns conditions row ≡ true
        → IsInRange (range_of def conditions) (row_key def.keys row) }
    ensures none { (def : TableDef) (conditions : List Condition) (rows : Rows)
        → has_int_key def.columns def.keys ≡ true
        → AllByRecursion (IsRowOf def.columns) rows → AllByRecursion IsConditionOfValue conditions
        → range_of def conditions ≡ None → kept def.columns conditions rows ≡ [] }
{
    range_is_what_conditions_allow();
    keys_keep_order();
}

/// What a plan does to the rows of its table is what its statement means, where the statement fits.
pub fn plan_means_its_statement()
    ensures { (n : ℕ) (def : TableDef) (statement : Statement) (rows : Rows) → fault_in def statement ≡ None
        → AllByRecursion (IsRowOf def.columns) rows
        → acts def statement rows ≡ plan_acts def (plan_on n def statement) rows }
{}
