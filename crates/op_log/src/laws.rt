// What holds of the spelling of changes, as the contracts of functions that do nothing.
ghost use Rattle.std.specs.Prelude.{◌≡◌, ◌++◌, ℕ, List, length};
ghost use Rattle.std.specs.List.{AllByRecursion};
ghost use Rattle.row_types.specs.declared.definition.TableDef.{TableDef};
ghost use Rattle.row_types.specs.Schema.{IsSchema};
ghost use Rattle.op_log.specs.Changes.{IsChange, IsFront, change_text, body_text};
ghost use Rattle.op_log.specs.declared.change.RowChange.{RowChange};

/// Bytes begin with one change at most.
pub fn one_change()
    ensures { (defs : List TableDef) (a b : RowChange) (x y : List ℕ) → IsSchema defs → IsChange defs a
        → IsChange defs b → change_text defs a ++ x ≡ change_text defs b ++ y → (a ≡ b) × (x ≡ y) }
{}

/// A body is read in one way.
pub fn one_front()
    ensures { (defs : List TableDef) (body : List ℕ) (a b : List RowChange) (a_end b_end : ℕ) → IsSchema defs
        → IsFront defs body a a_end → IsFront defs body b b_end → (a ≡ b) × (a_end ≡ b_end) }
{}

/// What was written one after another is read again whole.
pub fn reads_what_was_written()
    ensures { (defs : List TableDef) (changes : List RowChange)
        → AllByRecursion (IsChange defs) changes
        → IsFront defs (body_text defs changes) changes (length (body_text defs changes)) }
{}
