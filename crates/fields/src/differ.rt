// Where two lists of bytes differ. Whole words of eight bytes are compared first, and single bytes only in
// the word in which a difference is.
ghost use Rattle.std.specs.Prelude.{◌≡◌, ◌↔◌, ◌<◌, ◌≤◌, ◌≢◌, ◌+◌, ◌-◌, ℕ, List, length, take, drop};
ghost use Rattle.std.specs.Prelude.{slice_index, IsNone, IfSome};
ghost use Rattle.fields.specs.Differ.{HoldsDifferences, IsDiffSpan};

use crate::numbers::get_u64;

/// The bytes of a word.
const WORD: usize = 8;

/// How many bytes of the two are equal from the front on, as far as whole words are.
fn equal_front(a: &[u8], b: &[u8]) -> usize
    requires { length a.now ≡ length b.now }
    ensures within { result ≤ length a.now }
    ensures same { take result a.now ≡ take result b.now }
{
    let mut at: usize = 0;
    while a.len() - at >= WORD && get_u64(a, at) == get_u64(b, at) {
        at += WORD;
    }
    at
}

/// The first place at which the two differ, or their length.
fn first_difference(a: &[u8], b: &[u8]) -> usize
    requires { length a.now ≡ length b.now }
    ensures within { result ≤ length a.now }
    ensures before { take result a.now ≡ take result b.now }
    ensures here { result < length a.now → slice_index a.now result ≢ slice_index b.now result }
{
    let mut at = equal_front(a, b);
    while at < a.len() && a[at] == b[at] {
        at += 1;
    }
    at
}

/// From which place on the two are equal, as far as whole words are.
fn equal_back(a: &[u8], b: &[u8]) -> usize
    requires { length a.now ≡ length b.now }
    ensures within { result ≤ length a.now }
    ensures same { drop result a.now ≡ drop result b.now }
{
    let mut end = a.len();
    while end >= WORD && get_u64(a, end - WORD) == get_u64(b, end - WORD) {
        end -= WORD;
    }
    end
}

/// The place behind the last one at which the two differ.
fn last_difference(a: &[u8], b: &[u8], first: usize) -> usize
    requires same_length { length a.now ≡ length b.now }
    requires first { first < length a.now }
    requires differs { slice_index a.now first ≢ slice_index b.now first }
    ensures within { result ≤ length a.now }
    ensures after { first < result }
    ensures behind { drop result a.now ≡ drop result b.now }
    ensures here { slice_index a.now (result - 1) ≢ slice_index b.now (result - 1) }
{
    let mut end = equal_back(a, b);
    while a[end - 1] == b[end - 1] {
        end -= 1;
    }
    end
}

/// The first place at which the two differ, and the length from there to the last such place. `None`: they
/// are equal.
pub fn diff_span(a: &[u8], b: &[u8]) -> Option<(usize, usize)>
    requires { length a.now ≡ length b.now }
    ensures none { IsNone result ↔ (a.now ≡ b.now) }
    ensures some { IfSome result (λ span. IsDiffSpan a.now b.now span.0 span.1) }
{
    let first = first_difference(a, b);
    if first == a.len() {
        return None;
    }
    let end = last_difference(a, b, first);
    Some((first, end - first))
}

/// Every span that holds all differing bytes holds this one.
pub fn a_diff_span_is_the_shortest()
    ensures { (a b : List ℕ) (at len other other_len : ℕ) → IsDiffSpan a b at len
        → HoldsDifferences a b other other_len → (other ≤ at) × (at + len ≤ other + other_len) }
{}
