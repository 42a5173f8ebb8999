// The records of one session.
ghost use Rattle.std.specs.Prelude.{◌≡◌, ◌≤◌, ◌++◌, length, drop};

use crate::OutOfMemory;
use std::alloc::Global;
use std::marker::Model;
use thiserror::Error;

/// The bytes beside twice the budget: room for the records that end a transaction.
const END_ROOM: usize = 64;

/// A transaction: its number, and that of its block's first try.
#[derive(Clone, Copy, Debug, PartialEq, Eq)]
pub struct Txn {
    pub number: u64,
    pub age: u64,
}

/// The forward records of the transaction would have more bytes than it may make. `used` have been made.
#[derive(Clone, Copy, Debug, PartialEq, Eq, Error)]
#[error("{used} of {limit} bytes of records are used")]
pub struct TxnFull {
    pub used: u64,
    pub limit: u64,
}

/// The records of a session, in the order in which they were pushed.
#[derive(Debug, Drop)]
pub(crate) struct Buffer {
    txn: Option<Txn>,
    limit: u32,
    spent: u32,
    taken: usize,
    records: Vec<u8>,
}

impl Model for Buffer {
    ghost use Rattle.std.specs.Prelude.{◌≤◌, ◌*◌, ◌+◌, length, vec_capacity};
    ghost use Rattle.txn_table.specs.Rows.{Row};

    ghost Value = { Row };

    ghost view = { λ b. record {
      txn = b.txn;
      limit = b.limit;
      spent = b.spent;
      taken = b.taken;
      records = b.records.items;
    } };

    ghost invariant = { λ b. (b.taken ≤ length b.records.items) × (b.spent ≤ b.limit)
        × (length b.records.items ≤ 2 * b.limit + 64) × (2 * b.limit + 64 ≤ vec_capacity b.records) };
}

impl Buffer {
    ghost use Rattle.std.specs.Prelude.{◌≡◌, ◌<◌, ◌≤◌, ◌+◌, ◌*◌, ◌++◌, Err, None, Some, length, drop, IfOk, OnErr, OnOk};
    ghost use Rattle.txn_table.specs.Rows.{Row, begun, ended, no_records, pushed, pushed_forward, taken_all, waiting};
    ghost use Rattle.txn_table.specs.declared.buffer.Txn.{Txn as Transaction};

    /// No records, with room for those of any transaction.
    pub(crate) fn new(alloc: Global, limit: u32) -> Result<Buffer, OutOfMemory>
        ensures { IfOk result (λ buffer. buffer ≡ no_records limit) }
    {
        let room = 2 * limit as usize + END_ROOM;
        let records = Vec::with_capacity(alloc, room)?;
        Ok(Buffer {
            txn: None,
            limit,
            spent: 0,
            taken: 0,
            records,
        })
    }

    pub(crate) fn begin(&mut self, txn: Txn)
        ensures { self.new ≡ begun txn self.old }
    {
        self.txn = Some(txn);
        self.spent = 0;
        self.taken = 0;
        self.records.clear();
    }

    pub(crate) fn txn(&self) -> Option<Txn>
        ensures { result ≡ self.now.txn }
    {
        self.txn
    }

    pub(crate) fn spent(&self) -> u32
        ensures { result ≡ self.now.spent }
    {
        self.spent
    }

    pub(crate) fn push_forward(&mut self, bytes: &[u8]) -> Result<(), TxnFull>
        requires { self.old.spent + length bytes.now ≤ self.old.limit
            → length self.old.records + length bytes.now ≤ 2 * self.old.limit + 64 }
        ensures pushed { OnOk result (self.new ≡ pushed_forward bytes.now self.old) }
        ensures full { OnErr result (self.old.limit < self.old.spent + length bytes.now) }
        ensures tells { OnErr result
            (result ≡ Err (record { used = self.old.spent; limit = self.old.limit })) }
        ensures same { OnErr result (self.new ≡ self.old) }
    {
        let left = (self.limit - self.spent) as usize;
        if bytes.len() > left {
            return Err(TxnFull {
                used: u64::from(self.spent),
                limit: u64::from(self.limit),
            });
        }
        let _ = self.records.extend_from_slice(bytes);
        self.spent += bytes.len() as u32;
        Ok(())
    }

    pub(crate) fn push_back(&mut self, bytes: &[u8])
        requires { length self.old.records + length bytes.now ≤ 2 * self.old.limit + 64 }
        ensures { self.new ≡ pushed bytes.now self.old }
    {
        let _ = self.records.extend_from_slice(bytes);
    }

    pub(crate) fn waiting(&self) -> usize
        ensures { result ≡ length (waiting self.now) }
    {
        self.records.as_slice().len() - self.taken
    }

    pub(crate) fn take_waiting(&mut self, into: &mut [u8]) -> usize
        requires { length (waiting self.old) ≤ length into.old }
        ensures count { result ≡ length (waiting self.old) }
        ensures copied { into.new ≡ waiting self.old ++ drop (length (waiting self.old)) into.old }
        ensures taken { self.new ≡ taken_all self.old }
    {
        let records = self.records.as_slice();
        let len = records.len();
        let count = copy_front(&records[self.taken..], into);
        self.taken = len;
        count
    }

    pub(crate) fn records(&self) -> &[u8]
        ensures { result.now ≡ self.now.records }
    {
        &self.records
    }

    pub(crate) fn finish(&mut self)
        ensures { self.new ≡ ended self.old }
    {
        self.txn = None;
    }
}

/// Copies bytes over the first ones of a slice, and tells how many.
fn copy_front(bytes: &[u8], into: &mut [u8]) -> usize
    requires { length bytes.now ≤ length into.old }
    ensures count { result ≡ length bytes.now }
    ensures copied { into.new ≡ bytes.now ++ drop (length bytes.now) into.old }
{
    let count = bytes.len();
    into[..count].copy_from_slice(bytes);
    count
}
