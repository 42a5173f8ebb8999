// What holds of calls and of the changes that they make, as functions that do nothing: each contract is the
// law.
ghost use Rattle.std.specs.Prelude.{◌≡◌, ◌≢◌, ◌<◌, ◌^◌, ℕ, ℤ, false, List, [], FitsSigned};
ghost use Rattle.std.specs.List.{AllByRecursion};
ghost use Rattle.std.specs.Int.{w64};
ghost use Rattle.row_types.specs.declared.definition.TableDef.{TableDef};
ghost use Rattle.row_types.specs.Keys.{key_of_int};
ghost use Rattle.row_types.specs.Tables.{Tables, AreTables, schema_of};
ghost use Rattle.key_space.specs.Plays.{RowOp};
ghost use Rattle.plain_model.specs.CallPlays.{OpsPlay, latest, moments_of};
ghost use Rattle.plain_model.specs.Calls.{Call, is_running};
ghost use Rattle.op_log.specs.Changes.{IsChange};
ghost use Rattle.op_log.specs.declared.change.RowChange.{RowChange};
ghost use Rattle.call_log.specs.History.{IsHistory, batches_of, last_batch, settled, with_batch, with_loaded};
ghost use Rattle.call_log.specs.Played.{ArePlayed, BatchesPlayed, empty_tables, played, played_batches};
ghost use Rattle.call_log.specs.Standing.{int_of_key, standing};

/// Each whole number of 64 bits has a key of its own.
pub fn keys_are_of_numbers()
    ensures number { (number : ℤ) → FitsSigned w64 number → int_of_key (key_of_int number) ≡ number }
    ensures key { (key : ℕ) → key_of_int (int_of_key key) ≡ key }
    ensures fits { (key : ℕ) → key < 2 ^ 64 → FitsSigned w64 (int_of_key key) }
{}

/// The changes that stand after operations, without what was undone, make of the tables before them the
/// tables after them; and they fit those tables.
pub fn standing_changes_make_the_tables()
    ensures tables { (first : Tables) (ops : List RowOp) → OpsPlay first ops
        → latest (moments_of first ops) ≡ played first (standing ops) }
    ensures plays { (first : Tables) (ops : List RowOp) → OpsPlay first ops → ArePlayed first (standing ops) }
    ensures fit { (first : Tables) (ops : List RowOp) → AreTables first → OpsPlay first ops
        → AllByRecursion (IsChange (schema_of first)) (standing ops) }
{}

/// The tables after all transactions that are committed are those that their batches make of tables without
/// rows. Each batch has changes, which fit and can be made one after the other.
pub fn batches_make_the_tables()
    ensures tables { (defs : List TableDef) (calls : List Call) → IsHistory defs calls
        → settled (empty_tables defs) calls ≡ played_batches (empty_tables defs) (batches_of calls) }
    ensures plays { (defs : List TableDef) (calls : List Call) → IsHistory defs calls
        → BatchesPlayed (empty_tables defs) (batches_of calls) }
    ensures fit { (defs : List TableDef) (calls : List Call) → IsHistory defs calls
        → AllByRecursion (AllByRecursion (IsChange defs)) (batches_of calls) }
    ensures some { (calls : List Call) → AllByRecursion (λ batch. batch ≢ []) (batches_of calls) }
{}

/// A batch of a log file that is loaded is one batch more, and makes its changes of the tables.
pub fn loads_add_a_batch()
    ensures history { (defs : List TableDef) (calls : List Call) (batch : List RowChange)
        → IsHistory defs calls → is_running calls ≡ false → ArePlayed (settled (empty_tables defs) calls) batch
        → IsHistory defs (with_loaded calls batch) }
    ensures batches { (defs : List TableDef) (calls : List Call) (batch : List RowChange)
        → AllByRecursion (IsChange defs) batch
        → batches_of (with_loaded calls batch) ≡ with_batch (batches_of calls) batch }
    ensures tables { (first : Tables) (calls : List Call) (batch : List RowChange)
        → settled first (with_loaded calls batch) ≡ played (settled first calls) batch }
    ensures forced { (calls : List Call) (batch : List RowChange)
        → last_batch (with_loaded calls batch) ≡ [] }
    ensures idle { (calls : List Call) (batch : List RowChange)
        → is_running (with_loaded calls batch) ≡ false }
{}
