// Reads records.
ghost use Rattle.std.specs.Prelude.{◌≡◌, ◌↔◌, ◌+◌, ◌≤◌, ◌++◌, ℕ, List, length, take, Ok, Err, Some, None};
ghost use Rattle.std.specs.Prelude.{IfOk};
ghost use Rattle.xor_records.specs.Record.{Record, Diff, IsRecord, record_text};
ghost use Rattle.xor_records.specs.Places.{length_at, xor_at};
ghost use Rattle.xor_records.specs.Fault.{record_fault};
ghost use Rattle.xor_records.specs.Reading.{head_at, record_at, len_at};

use crate::fault::record_fault;
use crate::places::{COMMIT, DIFF, length_at, offset_at, page_at, stamp_at, table_at, txn_at};
use crate::{BadRec, Head, Kind, RecView};

/// The head of a change.
fn head_at(from: &[u8]) -> Head
    requires { 27 ≤ length from.now }
    ensures { result ≡ head_at from.now }
{
    Head {
        txn: txn_at(from),
        table: table_at(from),
        page: page_at(from),
        stamp: stamp_at(from),
        offset: offset_at(from),
    }
}

/// A change.
fn diff_of(from: &[u8]) -> RecView<'_>
    requires record { IsRecord (Diff (head_at from.now) (xor_at from.now)) }
    requires whole { 27 + length_at from.now ≤ length from.now }
    ensures { result ≡ Diff (head_at from.now) (xor_at from.now) }
{
    let head = head_at(from);
    let end = 27 + length_at(from) as usize;
    let xor = &from[27..end];
    RecView::new(Kind::Diff { head, xor })
}

/// The record at the front of bytes without a fault, and how many bytes it has.
fn sound_record(from: &[u8]) -> (RecView<'_>, usize)
    requires { record_fault from.now ≡ None }
    ensures record { result.0 ≡ record_at from.now }
    ensures len { result.1 ≡ len_at from.now }
{
    let kind = from[0];
    if kind == DIFF {
        return (diff_of(from), 27 + length_at(from) as usize);
    }
    let txn = txn_at(from);
    if kind == COMMIT {
        return (RecView::new(Kind::Commit { txn }), 9);
    }
    (RecView::new(Kind::End { txn }), 9)
}

/// The record at the front of the bytes, and how many of them it has. Bytes may follow it. `BadRec`: none
/// stands there.
pub fn read_rec(from: &[u8]) -> Result<(RecView<'_>, usize), BadRec>
    // What is read is a record and spelled so, and every record is read, whatever follows it.
    ensures found { IfOk result (λ found. IsRecord found.0
        × (take found.1 from.now ≡ record_text found.0) × (found.1 ≤ length from.now)) }
    ensures only { (rec : Record) (rest : List ℕ) → IsRecord rec → from.now ≡ record_text rec ++ rest
        → result ≡ Ok (rec, length (record_text rec)) }

    // A fault is reported exactly where it is the first.
    ensures bad { (at : ℕ) → (result ≡ Err (record { at = at })) ↔ (record_fault from.now ≡ Some at) }
{
    match record_fault(from) {
        Some(at) => Err(BadRec { at: at as u64 }),
        None => Ok(sound_record(from)),
    }
}
