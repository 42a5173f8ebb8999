// A node's entries.
ghost use Rattle.std.specs.Prelude.{◌≡◌, ◌≢◌, ℕ, ◌+◌, ◌*◌, ◌/◌, ◌%◌, ◌^◌, ◌<◌, ◌≤◌, nat_le, take, drop};
ghost use Rattle.std.specs.Prelude.{length, slice_index, slice_index_or};
ghost use Rattle.std.specs.List.{count_by, insert, remove};
ghost use Rattle.olfit_nodes.specs.Nodes.{Entry, entry_at, entries_of, count_of, child_in, place_in, Rises};
ghost use Rattle.olfit_nodes.specs.Nodes.{SameFrame};

use crate::head::{high_half, low_half, number};
use arrayvec::ArrayVec;

/// How many entries the node has.
pub fn count(words: &[u64; 64]) -> usize
    ensures { result ≡ count_of words.now }
{
    (words[6] % 65_536) as usize
}

/// The entry in a place: its key, and its value or child.
pub fn entry(words: &[u64; 64], place: usize) -> (u128, u64)
    requires { place < 16 }
    ensures { result ≡ entry_at words.now place }
{
    let at = 7 + 3 * place;
    (number(words[at], words[at + 1]), words[at + 2])
}

/// The place of the entry with this key. None: there is none.
pub fn find(words: &[u64; 64], key: u128) -> Option<usize>
    requires few { count_of words.now ≤ 16 }
    requires rises { Rises (entries_of words.now) }
    ensures { result ≡ place_in key (entries_of words.now) }
{
    for place in 0..count(words) {
        if entry(words, place).0 == key {
            return Some(place);
        }
    }
    None
}

/// How many entries have keys of at most this: where an entry with this key, if it is absent, has its place.
pub fn place_of(words: &[u64; 64], key: u128) -> usize
    requires few { count_of words.now ≤ 16 }
    ensures { result ≡ count_by (λ (e : Entry). nat_le e.0 key) (entries_of words.now) }
{
    let mut below = 0;
    for place in 0..count(words) {
        if entry(words, place).0 <= key {
            below += 1;
        }
    }
    below
}

/// The value of the last entry whose key is at most this. None: there is none.
pub fn child(words: &[u64; 64], key: u128) -> Option<u64>
    requires few { count_of words.now ≤ 16 }
    requires rises { Rises (entries_of words.now) }
    ensures { result ≡ child_in key (entries_of words.now) }
{
    let below = place_of(words, key);
    if below == 0 {
        return None;
    }
    Some(entry(words, below - 1).1)
}

/// Sets the entry in a place.
pub(crate) fn put_entry(words: &mut [u64; 64], place: usize, key: u128, value: u64)
    requires { place < 16 }
    ensures entry { entry_at words.new place ≡ (key, value) }
    ensures others { (i : ℕ) → i ≢ place → entry_at words.new i ≡ entry_at words.old i }
    ensures head { take 7 words.new ≡ take 7 words.old }
    ensures rest { drop 55 words.new ≡ drop 55 words.old }
{
    let at = 7 + 3 * place;
    words[at] = high_half(key);
    words[at + 1] = low_half(key);
    words[at + 2] = value;
}

/// Puts an entry into a place, before those from there on. The other words and the level stay.
pub fn insert_at(words: &mut [u64; 64], place: usize, key: u128, value: u64)
    requires room { count_of words.old < 16 }
    requires inside { place ≤ count_of words.old }
    ensures entries { entries_of words.new ≡ insert (entries_of words.old) place (key, value) }
    ensures frame { SameFrame words.old words.new }
{
    for i in (place..count(words)).rev() {
        let (moved, beside) = entry(words, i);
        put_entry(words, i + 1, moved, beside);
    }
    put_entry(words, place, key, value);
    words[6] += 1;
}

/// Takes the entry out of a place, and returns its value. The other words and the level stay.
pub fn remove_at(words: &mut [u64; 64], place: usize) -> u64
    requires few { count_of words.old ≤ 16 }
    requires inside { place < count_of words.old }
    ensures value { result ≡ (slice_index_or (entries_of words.old) place (0, 0)).1 }
    ensures entries { entries_of words.new ≡ remove (entries_of words.old) place }
    ensures frame { SameFrame words.old words.new }
{
    let (_, removed) = entry(words, place);
    for i in place + 1..count(words) {
        let (moved, beside) = entry(words, i);
        put_entry(words, i - 1, moved, beside);
    }
    words[6] -= 1;
    removed
}

/// Takes out the entries from this place on.
fn cut(words: &mut [u64; 64], place: usize) -> ArrayVec<(u128, u64), 16>
    requires few { count_of words.old ≤ 16 }
    requires inside { place ≤ count_of words.old }
    ensures lower { entries_of words.new ≡ take place (entries_of words.old) }
    ensures upper { result.items ≡ drop place (entries_of words.old) }
    ensures frame { SameFrame words.old words.new }
{
    let len = count(words);
    let mut upper = ArrayVec::new();
    for i in place..len {
        upper.push(entry(words, i));
    }
    words[6] -= (len - place) as u64;
    upper
}

/// Of the 17 entries of a full node and the new one in its place the node keeps the lower 8, and the upper 9
/// are returned. The other words and the level stay.
pub fn split(
    words: &mut [u64; 64],
    place: usize,
    key: u128,
    value: u64,
) -> ArrayVec<(u128, u64), 16>
    requires full { count_of words.old ≡ 16 }
    requires inside { place ≤ 16 }
    ensures lower { entries_of words.new ≡ take 8 (insert (entries_of words.old) place (key, value)) }
    ensures upper { result.items ≡ drop 8 (insert (entries_of words.old) place (key, value)) }
    ensures frame { SameFrame words.old words.new }
{
    if place < 8 {
        let upper = cut(words, 7);
        insert_at(words, place, key, value);
        return upper;
    }
    let mut upper = cut(words, 8);
    upper.insert(place - 8, (key, value));
    upper
}
