// Plays what a log keeps.
ghost use Rattle.std.specs.Prelude.{◌≡◌, [], List, IfOk};
ghost use Rattle.std.specs.List.{AllByRecursion};
ghost use Rattle.row_types.specs.Tables.{Tables};
ghost use Rattle.op_log.specs.Changes.{IsChange};
ghost use Rattle.op_log.specs.declared.change.RowChange.{RowChange};

use crate::{OutOfMemory, TxnRows};
use key_space::{Key, key_of};
use op_log::RowChange;
use row_types::Items;

impl TxnRows {
    ghost use Rattle.txn_rows.specs.Rows.{Idle, IsIdle, IsLoaded, IsTried, defs_of};

    /// Plays the changes of a batch of a log, which aren't forced again. The result is the number, from 0 on,
    /// of the first change that can't be played, since it takes a row away that isn't there; `None`: all were
    /// played.
    ///
    /// Where it isn't `Ok(None)`, some of the changes may have been played.
    pub fn load(&mut self, batch: Items<RowChange>) -> Result<Option<usize>, OutOfMemory>
        requires idle { IsIdle self.old }
        requires fit { AllByRecursion (IsChange (defs_of self.old)) batch }
        ensures defs { defs_of self.new ≡ defs_of self.old }
        ensures played { (tables : Tables) (before : List RowChange) → Idle self.old tables before
            → IfOk result (IsLoaded self.new tables batch) }
    {
        self.forget();
        let mut index = 0;
        for change in batch.into_vec() {
            if !self.play(change)? {
                return Ok(Some(index));
            }
            index += 1;
        }
        Ok(None)
    }

    /// Plays a change. `false`: it takes a row away that isn't there.
    fn play(&mut self, change: RowChange) -> Result<bool, OutOfMemory>
        requires idle { (tables : Tables) × Idle self.old tables [] }
        requires fit { IsChange (defs_of self.old) change }
        ensures defs { defs_of self.new ≡ defs_of self.old }
        ensures played { (tables : Tables) → Idle self.old tables []
            → IfOk result (IsTried self.new tables change) }
    {
        match change {
            RowChange::Put { table, row } => {
                let key = key_of(&self.schema, table, &row);
                self.lists[table as usize].put(key, row)?;
                Ok(true)
            }
            RowChange::Del { table, number } => {
                let key = Key::of_int(number);
                if !self.lists[table as usize].has(key) {
                    return Ok(false);
                }
                self.lists[table as usize].remove(key);
                Ok(true)
            }
        }
    }
}
