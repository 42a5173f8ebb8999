// What the definitions say, as the contracts of functions that do nothing.
ghost use Rattle.std.specs.Prelude.{◌≡◌, ◌⊎◌, ◌↔◌, ◌<◌, ℤ, ◌<ℤ◌, ℕ, List, Some, None, ◌==◌, if◌then◌else◌};
ghost use Rattle.std.specs.Prelude.{FitsSigned};
ghost use Rattle.std.specs.Int.{w64};
ghost use Rattle.row_types.specs.Keys.{key_of_int, row_key};
ghost use Rattle.row_types.specs.Tables.{Tables, AreTables, schema_of};
ghost use Rattle.key_space.specs.Plays.{Rows, RowOp, Plays, row_at, with_row, without_key};
ghost use Rattle.row_types.specs.declared.row.Value.{Value};
ghost use Rattle.key_space.specs.Locks.{verdict_of, conflicts, conflicts_older, IsLeastOwner};
ghost use Rattle.key_space.specs.declared.lock.Held.{Held};
ghost use Rattle.key_space.specs.declared.lock.Verdict.TheVariants.{Die, Wait};

/// Keys are in the order of their whole numbers.
pub fn keys_keep_order()
    ensures { (v w : ℤ) → FitsSigned w64 v → FitsSigned w64 w → (v <ℤ w) ↔ (key_of_int v < key_of_int w) }
{}

/// A verdict names the least session number among those that its step speaks of.
pub fn verdict_names_the_least()
    ensures die { (held : List Held) (ask : Held) (holder : ℕ) → verdict_of held ask ≡ Die holder
        → IsLeastOwner (conflicts_older ask) held holder }
    ensures wait { (held : List Held) (ask : Held) (holder : ℕ) → verdict_of held ask ≡ Wait holder
        → IsLeastOwner (conflicts ask) held holder }
{}

/// Operations play from tables to one list of tables at most.
pub fn plays_once()
    ensures { (first a b : Tables) (ops : List RowOp) → Plays first ops a → Plays first ops b → a ≡ b }
{}

/// Where operations play from tables, what they lead to are tables of the same definitions: the rows fit, and
/// their keys rise.
pub fn tables_stay_tables()
    ensures tables { (first end : Tables) (ops : List RowOp) → AreTables first → Plays first ops end
        → AreTables end }
    ensures schema { (first end : Tables) (ops : List RowOp) → AreTables first → Plays first ops end
        → schema_of end ≡ schema_of first }
{}

/// A row that was set is looked up by its key, a key that was
/// taken away isn't found, and other keys answer as before.
pub fn look_ups_follow_changes()
    ensures put { (marks : List ℕ) (rows : Rows) (row : List Value) (key : ℕ) →
        row_at marks (with_row marks rows row) key
        ≡ (if row_key marks row == key then Some row else row_at marks rows key) }
    ensures del { (marks : List ℕ) (rows : Rows) (taken key : ℕ) →
        row_at marks (without_key marks rows taken) key
        ≡ (if taken == key then None else row_at marks rows key) }
{}
