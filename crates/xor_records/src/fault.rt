// Why bytes are no record.
ghost use Rattle.std.specs.Prelude.{◌≡◌, None};
ghost use Rattle.xor_records.specs.Fault.{txn_fault, stamp_fault, length_fault, xor_fault, diff_fault};
ghost use Rattle.xor_records.specs.Fault.{record_fault};

use crate::places::{COMMIT, DIFF, END, length_at, offset_at, stamp_at, txn_at};
use thiserror::Error;

/// No record stands at the front of the bytes.
#[derive(Clone, Copy, Debug, PartialEq, Eq, Error)]
#[error("no record: byte {at} is wrong or missing")]
pub struct BadRec {
    /// The place of the first field, from the left, that breaks a rule; the number of bytes where they end
    /// before that.
    pub at: u64,
}

/// The bytes of a page.
const PAGE: usize = 4096;

/// The first fault up to the end of the transaction, which is at least 1.
fn txn_fault(from: &[u8]) -> Option<usize>
    ensures { result ≡ txn_fault from.now }
{
    if from.len() < 9 {
        return Some(from.len());
    }
    if txn_at(from) == 0 {
        return Some(1);
    }
    None
}

/// The first fault from the table of a change up to its stamp, which is at least 1.
fn stamp_fault(from: &[u8]) -> Option<usize>
    ensures { result ≡ stamp_fault from.now }
{
    if from.len() < 23 {
        return Some(from.len());
    }
    if stamp_at(from) == 0 {
        return Some(15);
    }
    None
}

/// The first fault of a change's offset and length: 1 byte at least, and no more than a page has from the
/// offset on.
fn length_fault(from: &[u8]) -> Option<usize>
    ensures { result ≡ length_fault from.now }
{
    if from.len() < 27 {
        return Some(from.len());
    }
    let length = length_at(from) as usize;
    if length == 0 || offset_at(from) as usize + length > PAGE {
        return Some(25);
    }
    None
}

/// The first fault of a change's XOR bytes, of which the first and the last aren't 0.
fn xor_fault(from: &[u8]) -> Option<usize>
    requires { length_fault from.now ≡ None }
    ensures { result ≡ xor_fault from.now }
{
    let end = 27 + length_at(from) as usize;
    if from.len() < end {
        return Some(from.len());
    }
    let xor = &from[27..end];
    if xor[0] == 0 || xor[xor.len() - 1] == 0 {
        return Some(27);
    }
    None
}

/// The first fault of a change behind its kind.
fn diff_fault(from: &[u8]) -> Option<usize>
    ensures { result ≡ diff_fault from.now }
{
    let fault = txn_fault(from);
    if fault.is_some() {
        return fault;
    }
    let fault = stamp_fault(from);
    if fault.is_some() {
        return fault;
    }
    let fault = length_fault(from);
    if fault.is_some() {
        return fault;
    }
    xor_fault(from)
}

/// The place of the first fault. `None`: a record stands at the front of the bytes.
#[tactic(auto, unfolding(crate::specs::Fault::record_fault))]
pub(crate) fn record_fault(from: &[u8]) -> Option<usize>
    ensures { result ≡ record_fault from.now }
{
    if from.is_empty() {
        return Some(0);
    }
    let kind = from[0];
    if kind == DIFF {
        return diff_fault(from);
    }
    if kind == COMMIT || kind == END {
        return txn_fault(from);
    }
    Some(0)
}
