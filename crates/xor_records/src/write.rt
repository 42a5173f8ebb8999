// Writes records.
ghost use Rattle.std.specs.Prelude.{◌≡◌, ◌+◌, ◌≤◌, ◌++◌, ◌∷◌, length, drop};
ghost use Rattle.xor_records.specs.Record.{Diff, Commit, End, IsRecord, record_text, head_text};

use crate::Head;
use crate::places::{COMMIT, DIFF, END};
use fields::{put_u16, put_u32, put_u64};

/// Writes the kind of a change and its head.
fn put_head(into: &mut [u8], head: &Head)
    requires { 25 ≤ length into.old }
    ensures { into.new ≡ 1 ∷ head_text head.now ++ drop 25 into.old }
{
    into[0] = DIFF;
    put_u64(into, 1, head.txn);
    put_u16(into, 9, head.table);
    put_u32(into, 11, head.page);
    put_u64(into, 15, head.stamp);
    put_u16(into, 23, head.offset);
}

/// Writes a change to the front of `into`. The result is how many bytes it has: 27 and those of `xor`.
pub fn write_diff(into: &mut [u8], head: &Head, xor: &[u8]) -> usize
    requires record { IsRecord (Diff head.now xor.now) }
    requires room { 27 + length xor.now ≤ length into.old }
    ensures len { result ≡ 27 + length xor.now }
    ensures text { into.new ≡ record_text (Diff head.now xor.now) ++ drop result into.old }
{
    put_head(into, head);
    put_u16(into, 25, xor.len() as u16);
    let end = 27 + xor.len();
    into[27..end].copy_from_slice(xor);
    end
}

/// Writes that a transaction committed to the front of `into`. The result is how many bytes that has: 9.
pub fn write_commit(into: &mut [u8], txn: u64) -> usize
    requires record { IsRecord (Commit txn) }
    requires room { 9 ≤ length into.old }
    ensures len { result ≡ 9 }
    ensures text { into.new ≡ record_text (Commit txn) ++ drop 9 into.old }
{
    into[0] = COMMIT;
    put_u64(into, 1, txn);
    9
}

/// Writes that a transaction ended to the front of `into`. The result is how many bytes that has: 9.
pub fn write_end(into: &mut [u8], txn: u64) -> usize
    requires record { IsRecord (End txn) }
    requires room { 9 ≤ length into.old }
    ensures len { result ≡ 9 }
    ensures text { into.new ≡ record_text (End txn) ++ drop 9 into.old }
{
    into[0] = END;
    put_u64(into, 1, txn);
    9
}
