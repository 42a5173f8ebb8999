// Which slots of a page are free.
ghost use Rattle.std.specs.Prelude.{◌≡◌, ◌⊎◌, ◌↔◌, ℕ, ◌+◌, ◌*◌, ◌/◌, ◌<◌, ◌≤◌, IsTrue, IsNone, OnSome};
ghost use Rattle.std.specs.Prelude.{IfSome, IfNone, length};
ghost use Rattle.slot_pages.specs.State.{IsTaken, LiesOutside};
ghost use Rattle.slot_pages.specs.Slots.{IsFree, IsFirstFree};

use crate::bytes::are_zero;

/// The bytes of a page.
pub(crate) const PAGE: usize = 4096;
/// The most slots of a page.
pub(crate) const SLOTS: usize = 256;

/// Whether slot `k` is empty and not held.
fn is_free(bytes: &[u8], held: &[bool], len: usize, k: usize) -> bool
    requires whole { length bytes.now ≡ 4096 }
    requires marks { length held.now ≡ 256 }
    requires len { 16 ≤ len }
    requires inside { k < 4096 / len }
    ensures { IsTrue result ↔ IsFree bytes.now held.now len k }
{
    let at = k * len;
    !held[k] && are_zero(&bytes[at..at + len])
}

/// The first free slot from slot `from` on, where all slots before are taken.
pub(crate) fn first_free(bytes: &[u8], held: &[bool], len: usize, from: usize) -> Option<u16>
    requires whole { length bytes.now ≡ 4096 }
    requires marks { length held.now ≡ 256 }
    requires least { 16 ≤ len }
    requires most { len ≤ 4096 }
    requires taken { (k : ℕ) → k < from → IsTaken bytes.now held.now len k }
    ensures some { IfSome result (λ k. IsFirstFree bytes.now held.now len k) }
    ensures none { IfNone result ((k : ℕ) → k < 4096 / len → ¬ (IsFree bytes.now held.now len k)) }
{
    for k in from..PAGE / len {
        if is_free(bytes, held, len, k) {
            return Some(k as u16);
        }
    }
    None
}

/// Whether slot `k` is held or its first byte isn't 0.
fn is_taken(bytes: &[u8], held: &[bool], len: usize, k: usize) -> bool
    requires whole { length bytes.now ≡ 4096 }
    requires marks { length held.now ≡ 256 }
    requires len { 16 ≤ len }
    requires inside { k < 4096 / len }
    ensures { IsTrue result ↔ IsTaken bytes.now held.now len k }
{
    held[k] || bytes[k * len] != 0
}

/// How many slots are taken from the first on, where those before `from` are.
pub(crate) fn taken_from(bytes: &[u8], held: &[bool], len: usize, from: usize) -> usize
    requires whole { length bytes.now ≡ 4096 }
    requires marks { length held.now ≡ 256 }
    requires least { 16 ≤ len }
    requires few { from ≤ 65535 }
    requires taken { (k : ℕ) → k < from → IsTaken bytes.now held.now len k }
    ensures taken { (k : ℕ) → k < result → IsTaken bytes.now held.now len k }
    ensures ended { result < 4096 / len → ¬ (IsTaken bytes.now held.now len result) }
    ensures few { result ≤ 65535 }
{
    let mut k = from;
    while k < PAGE / len && is_taken(bytes, held, len, k) {
        k += 1;
    }
    k
}

/// How many of the first `taken` slots keep their first byte
/// where `count` bytes from `offset` on are changed.
pub(crate) fn still_taken(taken: usize, len: usize, offset: usize, count: usize) -> usize
    requires inside { offset + count ≤ 4096 }
    requires len { len ≤ 65535 }
    ensures least { result ≤ taken }
    ensures same { (k : ℕ) → k < result → (k * len < offset) ⊎ (offset + count ≤ k * len) }
    ensures most { (k : ℕ) → k < taken → LiesOutside len offset count k → k < result }
{
    if len == 0 {
        return 0;
    }
    let first = (offset + len - 1) / len;
    if first * len < offset + count {
        return first.min(taken);
    }
    taken
}
