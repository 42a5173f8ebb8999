// Which transactions have ended.
use std::alloc::Global;
use std::collections::HashSet;
use std::marker::Model;
use xor_records::{Kind, OutOfMemory, Rec, RecView};

/// Transactions that have ended, seen as the list of their numbers.
#[derive(Drop)]
pub struct EndedTxns {
    txns: HashSet<u64>,
}

impl Model for EndedTxns {
    ghost use Rattle.std.specs.Prelude.{ℕ, List};

    ghost Value = { List ℕ };

    ghost view = { λ e. e.txns.keys };
}

impl EndedTxns {
    ghost use Rattle.std.specs.Prelude.{◌≡◌, ◌==◌, ◌||◌, ℕ, [], OnOk, OnErr};
    ghost use Rattle.xor_records.specs.Replay.{ends};
    ghost use Rattle.replay_core.specs.Ended.{is_in};

    /// No transactions.
    pub fn empty(alloc: Global) -> EndedTxns
        ensures { result ≡ [] }
    {
        EndedTxns {
            txns: HashSet::new(alloc),
        }
    }

    /// Whether the transaction has ended.
    pub fn has(&self, txn: u64) -> bool
        ensures { result ≡ is_in self.now txn }
    {
        self.txns.contains(&txn)
    }

    /// Adds a transaction. `OutOfMemory`: the same have ended as before.
    fn put(&mut self, txn: u64) -> Result<(), OutOfMemory>
        ensures ok { OnOk result ((t : ℕ) → is_in self.new t ≡ ((txn == t) || is_in self.old t)) }
        ensures err { OnErr result ((t : ℕ) → is_in self.new t ≡ is_in self.old t) }
    {
        self.txns.insert(txn)?;
        Ok(())
    }

    /// Adds the transaction of a commit or end record. A change adds none. `OutOfMemory`: the same have ended
    /// as before.
    pub fn add(&mut self, rec: &RecView) -> Result<(), OutOfMemory>
        ensures ok { OnOk result ((t : ℕ) → is_in self.new t ≡ (ends t rec.now || is_in self.old t)) }
        ensures err { OnErr result ((t : ℕ) → is_in self.new t ≡ is_in self.old t) }
    {
        match rec.kind() {
            Kind::Diff { .. } => Ok(()),
            Kind::Commit { txn } => self.put(txn),
            Kind::End { txn } => self.put(txn),
        }
    }
}

ghost use Rattle.std.specs.Prelude.{◌≡◌, IfOk};
ghost use Rattle.xor_records.specs.Replay.{ended};
ghost use Rattle.replay_core.specs.Ended.{is_in};

/// The transactions that have ended by these records: those with a commit or an end record among them.
/// `OutOfMemory`: there is none for their numbers.
pub fn ended(alloc: Global, records: &[Rec]) -> Result<EndedTxns, OutOfMemory>
    ensures { IfOk result (λ txns. is_in txns ≡ ended records.now) }
{
    let mut txns = EndedTxns::empty(alloc);
    for rec in records {
        txns.add(&rec.view())?;
    }
    Ok(txns)
}
