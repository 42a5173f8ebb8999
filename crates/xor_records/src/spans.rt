// The change that turns bytes into others.
ghost use Rattle.std.specs.Prelude.{◌≡◌, ◌≢◌, ◌↔◌, ◌-◌, ◌^◌, ◌<◌, All, IsNone, IfSome, length};
ghost use Rattle.std.specs.Prelude.{slice_index};
ghost use Rattle.fields.specs.Fields.{bytes_at};
ghost use Rattle.fields.specs.Toggle.{byte_at, byte_from, toggled};
ghost use Rattle.fields.specs.Differ.{IsDiffSpan};

use fields::{diff_span, xor_into};

/// A span of bytes: where it begins, and how many there are.
#[derive(Clone, Copy, Debug, PartialEq, Eq)]
pub struct Diff {
    pub offset: usize,
    pub length: usize,
}

/// The shortest span that holds all bytes in which the two differ. `None`: they are equal.
pub fn span(before: &[u8], after: &[u8]) -> Option<Diff>
    requires { length before.now ≡ length after.now }
    ensures none { IsNone result ↔ (before.now ≡ after.now) }
    ensures some { IfSome result (λ diff. IsDiffSpan before.now after.now diff.offset diff.length) }
{
    let (offset, length) = diff_span(before, after)?;
    Some(Diff { offset, length })
}

/// Puts the XOR bytes of a span into `into`.
pub fn diff_bytes(before: &[u8], after: &[u8], diff: &Diff, into: &mut [u8])
    requires lengths { length before.now ≡ length after.now }
    requires span { IsDiffSpan before.now after.now diff.now.offset diff.now.length }
    requires whole { length into.old ≡ diff.now.length }
    ensures bytes { into.new ≡ toggled byte_at (bytes_at diff.now.offset diff.now.length before.now)
        (bytes_at diff.now.offset diff.now.length after.now) }
    ensures fits { All (λ x. x < 2 ^ 8) into.new }
    ensures turns { toggled (byte_from diff.now.offset) before.now into.new ≡ after.now }
    ensures first { slice_index into.new 0 ≢ 0 }
    ensures last { slice_index into.new (length into.new - 1) ≢ 0 }
{
    let end = diff.offset + diff.length;
    into.copy_from_slice(&before[diff.offset..end]);
    xor_into(into, &after[diff.offset..end]);
}
