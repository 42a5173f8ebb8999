// What the list of calls keeps, as functions that do nothing: each contract is the law.
ghost use Rattle.std.specs.Prelude.{◌≡◌, ℕ, Bool, List, length, reverse};
ghost use Rattle.row_types.specs.Tables.{Tables, AreTables};
ghost use Rattle.key_space.specs.Plays.{RowOp, Plays};
ghost use Rattle.plain_model.specs.Calls.{Call, ops_of, is_locked, locked_table, MayRead, MayWrite, IsMark};
ghost use Rattle.plain_model.specs.CallPlays.{CallsPlay, tables_of};
ghost use Rattle.plain_model.specs.Runs.{Since};

use key_space::tables_stay_tables;

/// What was called since a moment and what was called since then are called since the first moment.
pub fn since_composes()
    ensures { (first middle last : List Call) → Since first middle → Since middle last → Since first last }
{}

/// Row operations that play did so before each of them, and the locks are those that were held.
pub fn since_keeps()
    ensures play { (first : Tables) (old new : List Call) → Since old new → CallsPlay first new
        → CallsPlay first old }
    ensures locks { (write : Bool) (table key : ℕ) (old new : List Call) → Since old new
        → is_locked write new table key ≡ is_locked write old table key }
    ensures table { (old new : List Call) → Since old new → locked_table new ≡ locked_table old }
{}

/// What may be written may be read.
pub fn writes_are_reads()
    ensures { (calls : List Call) (table lo hi : ℕ) → MayWrite calls table lo hi → MayRead calls table lo hi }
{}

/// The number of the operations so far is a mark.
pub fn marks_begin()
    ensures { (ops : List RowOp) → IsMark ops (length ops) }
{}

/// Where the answered operations play, they play as a list of row operations does, the first one first; and
/// the tables that they lead to are tables.
pub fn calls_play_as_operations()
    ensures plays { (first : Tables) (calls : List Call) → CallsPlay first calls
        → Plays first (reverse (ops_of calls)) (tables_of first calls) }
    ensures tables { (first : Tables) (calls : List Call) → AreTables first → CallsPlay first calls
        → AreTables (tables_of first calls) }
{
    tables_stay_tables();
}
