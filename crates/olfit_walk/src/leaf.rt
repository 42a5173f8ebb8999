//! What the words of a leaf say of a key and of a range.
ghost use Rattle.std.specs.Prelude.{◌≡◌, ◌<◌, ◌≤◌};
ghost use Rattle.std.specs.Option.{ForSome};
ghost use Rattle.std.specs.List.{filter};
ghost use Rattle.olfit_nodes.specs.Nodes.{count_of, entries_of, right_of, Rises};
ghost use Rattle.olfit_rule.specs.Maps.{map_of};
ghost use Rattle.olfit_walk.specs.Looks.{end_in, entries_of_keys, is_between};

use crate::answers::Piece;
use arrayvec::ArrayVec;
use key_space::{Key, Range};
use olfit_nodes::{count, entry, find, right};

/// The value of a key in a leaf. None: the leaf hasn't the key.
pub fn value_in(words: &[u64; 64], key: u128) -> Option<u64>
    requires few { count_of words.now ≤ 16 }
    requires rises { Rises (entries_of words.now) }
    ensures { result ≡ map_of (entries_of words.now) key }
{
    match find(words, key) {
        Some(place) => Some(entry(words, place).1),
        None => None,
    }
}

/// The first piece of a range, whose first key belongs into this leaf.
pub(crate) fn piece_of(words: &[u64; 64], range: Range, known: u64) -> Piece
    requires few { count_of words.now ≤ 16 }
    requires right { ForSome (right_of words.now) (λ link. 0 < link.key) }
    ensures ends { (result.from ≡ range.lo)
        × (result.upto.number ≡ end_in (right_of words.now) range.hi.number) }
    ensures entries { entries_of_keys result.entries.items
        ≡ filter (is_between range.lo.number result.upto.number) (entries_of words.now) }
    ensures known { result.known ≡ known }
{
    let upto = last_key(words, range.hi);
    Piece {
        from: range.lo,
        upto,
        entries: between(words, range.lo, upto),
        known,
    }
}

/// The last key of which a leaf tells, up to this one.
fn last_key(words: &[u64; 64], hi: Key) -> Key
    requires { ForSome (right_of words.now) (λ link. 0 < link.key) }
    ensures { result.number ≡ end_in (right_of words.now) hi.number }
{
    match right(words) {
        Some(link) => Key {
            number: hi.number.min(link.key - 1),
        },
        None => hi,
    }
}

/// The leaf's entries with keys from `from` to `upto`.
fn between(words: &[u64; 64], from: Key, upto: Key) -> ArrayVec<(Key, u64), 16>
    requires { count_of words.now ≤ 16 }
    ensures { entries_of_keys result.items ≡ filter (is_between from.number upto.number)
        (entries_of words.now) }
{
    let mut entries = ArrayVec::new();
    for place in 0..count(words) {
        let (number, value) = entry(words, place);
        if from.number <= number && number <= upto.number {
            entries.push((Key { number }, value));
        }
    }
    entries
}
