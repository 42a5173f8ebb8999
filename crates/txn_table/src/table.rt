// The transactions of all sessions.
ghost use Rattle.std.specs.Prelude.{◌≡◌, replicate, IfOk};
ghost use Rattle.txn_table.specs.Rows.{no_records};

use crate::buffer::Buffer;
use crate::{OutOfMemory, Txn, TxnFull};
use std::alloc::Global;
use std::marker::Model;

/// The sessions that have transactions.
const SESSIONS: usize = 17;

/// The transaction of each of 17 sessions, with the records that it has made, seen as a list with a row for
/// each session. All its memory is taken by `new`.
#[derive(Debug, Drop)]
pub struct TxnTable {
    buffers: Vec<Buffer>,
}

impl Model for TxnTable {
    ghost use Rattle.std.specs.Prelude.{◌≡◌, List, length};
    ghost use Rattle.txn_table.specs.Rows.{Row};

    ghost Value = { List Row };

    ghost view = { λ t. t.buffers.items };

    ghost invariant = { λ t. length t.buffers.items ≡ 17 };
}

impl TxnTable {
    ghost use Rattle.std.specs.Prelude.{◌≡◌, ◌<◌, ◌≤◌, ◌+◌, ◌*◌, ◌++◌, [], Err, Some, length, drop, replicate};
    ghost use Rattle.std.specs.Prelude.{slice_set, IfOk, OnErr, OnOk};
    ghost use Rattle.txn_table.specs.Rows.{begun, ended, no_records, pushed, pushed_forward, row_of, taken_all};
    ghost use Rattle.txn_table.specs.Rows.{waiting};

    /// No transactions. Each may make `q` bytes of forward records, and there is room for as many that undo
    /// them and 64 more.
    pub fn new(alloc: Global, q: u32) -> Result<TxnTable, OutOfMemory>
        ensures { IfOk result (λ table. table ≡ replicate 17 (no_records q)) }
    {
        let buffers = no_transactions(alloc, q)?;
        Ok(TxnTable { buffers })
    }

    /// A transaction begins, with no records.
    pub fn begin(&mut self, s: u16, txn: u64, age: u64)
        requires session { s ≤ 16 }
        requires none_waits { waiting (row_of self.old s) ≡ [] }
        ensures { self.new ≡ slice_set self.old s (begun (record { number = txn; age = age }) (row_of self.old s)) }
    {
        self.buffers[s as usize].begin(Txn { number: txn, age });
    }

    /// The session's transaction; `None` before the first begins, and once it is finished.
    pub fn txn(&self, s: u16) -> Option<Txn>
        requires { s ≤ 16 }
        ensures { result ≡ (row_of self.now s).txn }
    {
        self.buffers[s as usize].txn()
    }

    /// The bytes of forward records that the session's transaction has made, those among them that were
    /// undone.
    pub fn spent(&self, s: u16) -> u32
        requires { s ≤ 16 }
        ensures { result ≡ (row_of self.now s).spent }
    {
        self.buffers[s as usize].spent()
    }

    /// Puts a forward record behind the others. `TxnFull` comes exactly where the transaction would have made
    /// more bytes than it may, and changes nothing.
    pub fn push_forward(&mut self, s: u16, bytes: &[u8]) -> Result<(), TxnFull>
        requires session { s ≤ 16 }
        requires room { (row_of self.old s).spent + length bytes.now ≤ (row_of self.old s).limit
            → length (row_of self.old s).records + length bytes.now ≤ 2 * (row_of self.old s).limit + 64 }
        ensures pushed { OnOk result
            (self.new ≡ slice_set self.old s (pushed_forward bytes.now (row_of self.old s))) }
        ensures full { OnErr result ((row_of self.old s).limit < (row_of self.old s).spent + length bytes.now) }
        ensures tells { OnErr result (result
            ≡ Err (record { used = (row_of self.old s).spent; limit = (row_of self.old s).limit })) }
        ensures same { OnErr result (self.new ≡ self.old) }
    {
        self.buffers[s as usize].push_forward(bytes)
    }

    /// Puts a record behind the others that doesn't count: one that undoes another, or ends the transaction.
    pub fn push_back(&mut self, s: u16, bytes: &[u8])
        requires session { s ≤ 16 }
        requires room { length (row_of self.old s).records + length bytes.now
            ≤ 2 * (row_of self.old s).limit + 64 }
        ensures { self.new ≡ slice_set self.old s (pushed bytes.now (row_of self.old s)) }
    {
        self.buffers[s as usize].push_back(bytes);
    }

    /// How many bytes of the session's records wait to be taken.
    pub fn waiting(&self, s: u16) -> usize
        requires { s ≤ 16 }
        ensures { result ≡ length (waiting (row_of self.now s)) }
    {
        self.buffers[s as usize].waiting()
    }

    /// Copies the records that wait to the front of `into`, and tells how many bytes they are. None of them
    /// waits any more.
    pub fn take_waiting(&mut self, s: u16, into: &mut [u8]) -> usize
        requires session { s ≤ 16 }
        requires room { length (waiting (row_of self.old s)) ≤ length into.old }
        ensures count { result ≡ length (waiting (row_of self.old s)) }
        ensures copied { into.new
            ≡ waiting (row_of self.old s) ++ drop (length (waiting (row_of self.old s))) into.old }
        ensures taken { self.new ≡ slice_set self.old s (taken_all (row_of self.old s)) }
    {
        self.buffers[s as usize].take_waiting(into)
    }

    /// All records of the session's transaction, in the order in which they were pushed.
    pub fn bytes(&self, s: u16) -> &[u8]
        requires { s ≤ 16 }
        ensures { result.now ≡ (row_of self.now s).records }
    {
        self.buffers[s as usize].records()
    }

    /// The session's transaction is over. What waits of its records still waits.
    pub fn finish(&mut self, s: u16)
        requires { s ≤ 16 }
        ensures { self.new ≡ slice_set self.old s (ended (row_of self.old s)) }
    {
        self.buffers[s as usize].finish();
    }
}

fn no_transactions(alloc: Global, q: u32) -> Result<Vec<Buffer>, OutOfMemory>
    ensures { IfOk result (λ buffers. buffers.items ≡ replicate 17 (no_records q)) }
{
    let mut buffers = Vec::with_capacity(alloc, SESSIONS)?;
    for _ in 0..SESSIONS {
        buffers.push_reserved(Buffer::new(alloc, q)?);
    }
    Ok(buffers)
}
