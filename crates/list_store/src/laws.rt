// What holds of every log file, as functions that do nothing: each contract is the law.
ghost use Rattle.std.specs.Prelude.{◌≡◌, ◌<◌, ℕ, List, get_or};
ghost use Rattle.row_types.specs.Schema.{IsSchema};
ghost use Rattle.row_types.specs.Tables.{Tables};
ghost use Rattle.row_types.specs.declared.definition.TableDef.{TableDef};
ghost use Rattle.list_store.specs.Log.{BeginsWith, LogRead, log_reads};

/// A file has at most one reading.
pub fn one_reading()
    ensures { (defs : List TableDef) (bytes : List ℕ) (a b : LogRead) → IsSchema defs
        → log_reads defs bytes a → log_reads defs bytes b → a ≡ b }
{}

/// A file of bytes has a reading.
pub fn some_reading()
    ensures { (defs : List TableDef) (bytes : List ℕ) → IsSchema defs
        → ((i : ℕ) → get_or bytes i 0 < 256) → (read : LogRead) × log_reads defs bytes read }
{}

/// A store begins with one list of tables alone. So what a crash leaves of a store's tables is what the next
/// opening reads.
pub fn one_beginning()
    ensures { (defs : List TableDef) (bytes : List ℕ) (a b : Tables) → IsSchema defs
        → BeginsWith defs a bytes → BeginsWith defs b bytes → a ≡ b }
{}
