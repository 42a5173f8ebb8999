// What a running transaction changed, so that it can be undone.
ghost use Rattle.std.specs.Prelude.{◌≡◌, ◌<◌, ◌≤◌, ◌++◌, [], ◌∷◌, List, None, Some, IfSome, OnOk, OnErr};
ghost use Rattle.std.specs.Prelude.{IsSome, length};
ghost use Rattle.std.specs.List.{AllByRecursion};
ghost use Rattle.txn_rows.specs.Steps.{IsSame, KeepsRows, back, stands};

use key_space::Key;
use row_lists::{Before, OutOfMemory, RowList};
use row_types::Row;
use std::alloc::Global;

/// A change of the running transaction.
#[derive(Drop)]
pub(crate) struct Step {
    /// How many operations came before it.
    pub(crate) count: u64,
    /// How many bytes the log's frame had before it.
    pub(crate) len: usize,
    pub(crate) table: u16,
    pub(crate) key: Key,
    /// What stood at the key.
    pub(crate) before: Before,
}

/// The changes of the running transaction, in order.
#[derive(Drop)]
pub(crate) struct Undo {
    pub(crate) steps: Vec<Step>,
    /// Whether the transaction may have left a key without a row.
    pub(crate) has_taken: bool,
}

impl Undo {
    ghost use Rattle.txn_rows.specs.declared.undo.Step.{Step};
    ghost use Rattle.txn_rows.specs.Steps.{AreThere, EndsBefore, IsBefore, IsOnTable, IsSince, IsStepped};
    ghost use Rattle.txn_rows.specs.Steps.{IsTakenBack, KeepsRows, first_len, stands};

    /// No change.
    pub(crate) fn new(alloc: Global) -> Undo
        ensures { result.steps.items ≡ [] }
    {
        Undo {
            steps: Vec::new(alloc),
            has_taken: false,
        }
    }

    /// Sets the row of a key of a table. Out of memory leaves the rows and the changes as they were.
    pub(crate) fn set(
        &mut self,
        lists: &mut [RowList],
        count: u64,
        len: usize,
        table: u16,
        key: Key,
        row: Row,
    ) -> Result<(), OutOfMemory>
        requires { table < length lists.old }
        ensures ok { OnOk result (IsStepped lists.old lists.new self.old.steps.items self.new.steps.items
            count len table key.number (Some (Some row))) }
        ensures steps { OnErr result (self.new.steps.items ≡ self.old.steps.items) }
        ensures lists { OnErr result (lists.new ≡ lists.old) }
    {
        self.steps.reserve(1)?;
        let before = lists[table as usize].put(key, row)?;
        self.steps.push_reserved(Step {
            count,
            len,
            table,
            key,
            before,
        });
        Ok(())
    }

    /// Takes the row away of a key of a table that is there. Out of memory leaves the rows and the changes as
    /// they were.
    pub(crate) fn take(
        &mut self,
        lists: &mut [RowList],
        count: u64,
        len: usize,
        table: u16,
        key: Key,
    ) -> Result<(), OutOfMemory>
        requires table { table < length lists.old }
        requires there { IsSome (stands lists.old table key.number) }
        ensures ok { OnOk result (IsStepped lists.old lists.new self.old.steps.items self.new.steps.items
            count len table key.number (Some None)) }
        ensures steps { OnErr result (self.new.steps.items ≡ self.old.steps.items) }
        ensures lists { OnErr result (lists.new ≡ lists.old) }
    {
        self.steps.reserve(1)?;
        self.has_taken = true;
        let before = lists[table as usize].take(key);
        self.steps.push_reserved(Step {
            count,
            len,
            table,
            key,
            before,
        });
        Ok(())
    }

    /// Takes back the changes from the operation with this number on, the latest first. The result is how
    /// many bytes the frame had before them, None where there are none.
    pub(crate) fn back_to(&mut self, lists: &mut [RowList], count: u64) -> Option<usize>
        requires there { AreThere (stands lists.old) self.old.steps.items }
        requires tables { AllByRecursion (IsOnTable (length lists.old)) self.old.steps.items }
        ensures { (kept undone : List Step) → self.old.steps.items ≡ kept ++ undone
            → AllByRecursion (IsBefore count) kept → AllByRecursion (IsSince count) undone
            → (self.new.steps.items ≡ kept) × (result ≡ first_len undone)
            × IsTakenBack lists.old lists.new undone }
    {
        let mut len = None;
        while let Some(step) = self.pop_from(count) {
            len = Some(step.len);
            restore(lists, step);
        }
        len
    }

    /// The latest change, where it is the operation with this number or a later one.
    fn pop_from(&mut self, count: u64) -> Option<Step>
        ensures some { IfSome result (λ step.
            (self.old.steps.items ≡ self.new.steps.items ++ step ∷ []) × IsSince count step) }
        ensures none { result ≡ None
            → (self.new.steps.items ≡ self.old.steps.items) × EndsBefore count self.old.steps.items }
    {
        if self.steps.last()?.count < count {
            return None;
        }
        self.steps.pop()
    }

    /// Ends the transaction with its changes: keys without a row go.
    pub(crate) fn keep(&mut self, lists: &mut [RowList])
        requires { AllByRecursion (IsOnTable (length lists.old)) self.old.steps.items }
        ensures steps { self.new.steps.items ≡ [] }
        ensures lists { KeepsRows lists.old lists.new }
    {
        if !self.has_taken {
            self.steps.clear();
            return;
        }
        self.has_taken = false;
        while let Some(step) = self.steps.pop() {
            forget(lists, step.table, step.key);
        }
    }
}

/// Takes a change back.
fn restore(lists: &mut [RowList], step: Step)
    requires table { step.table < length lists.old }
    requires there { IsSome (stands lists.old step.table step.key.number) }
    ensures len { length lists.new ≡ length lists.old }
    ensures back { IsSame (stands lists.new) (back (stands lists.old) step) }
{
    lists[step.table as usize].restore(step.key, step.before);
}

/// Takes a key of a table away that has no row.
fn forget(lists: &mut [RowList], table: u16, key: Key)
    requires { table < length lists.old }
    ensures { KeepsRows lists.old lists.new }
{
    lists[table as usize].forget(key);
}
